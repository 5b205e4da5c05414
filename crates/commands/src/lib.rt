// Places 5 to 13 of the order of checks.
#![tactic(auto)]

mod admission;

ghost use Rattle.std.specs.Prelude.{◌≡◌};
ghost use Rattle.logfile.specs.View.{view};
ghost use Rattle.commands.specs.Places.{places_of};

use channel::Channel;
use keys::Keys;
use logfile::Log;
use purse::Purse;
use roles::Role;
use settings::Settings;

// Which of the places apply, in their order, and what an accepted command takes on: whether it carries a MAC, and the role of the
// file that it names.
#[derive(Clone, Copy)]
pub struct Places {
    pub command: bool,
    pub waits: bool,
    pub length: bool,
    pub file: bool,
    pub kind: bool,
    pub grant: bool,
    pub chain: bool,
    pub seal: bool,
    pub off: bool,
    pub value: bool,
    pub range: bool,
    pub nothing: bool,
    pub maced: bool,
    pub role: Role,
}

impl Places {
    // Asks each of the INS and its data field x, as a command or as the opening of a chain.
    pub fn asked(
        opening: bool,
        settings: Settings,
        keys: Keys,
        purse: Purse,
        log: Log,
        channel: Channel,
        ins: u8,
        x: &[u8],
    ) -> Places
        ensures { result ≡ places_of opening (record { settings = settings; keys = keys; purse = purse; journal = view log; channel = channel }) ins x.now }
    {
        let stage = channel.stage;
        let chain = channel.chain;
        let named = modes::named(settings, x);
        let role = named.role;
        let file = named.file;
        let access = settings.access_by(file.rights, stage.acting(), ins);
        let sealed = modes::is_maced(access, file.maced, stage, ins);
        let maced = admission::carries(opening, sealed);
        let d = modes::plain(maced, x);
        Places {
            command: admission::unknown_command(opening, stage, ins),
            waits: admission::interrupts(stage, chain, ins),
            length: admission::wrong_length(opening, ins, d) | admission::lacks_mac(maced, x),
            file: admission::unknown_file(ins, role),
            kind: admission::other_kind_or_never(ins, role, access),
            grant: admission::not_granted(ins, access)
                | admission::part_fails(keys, channel, ins, d),
            chain: opening & sealed,
            seal: admission::is_forged(channel, maced, ins, x) | admission::used_up(stage, ins),
            off: parameters::switched_off(ins, settings.limited, log.clears),
            value: parameters::bad_parameter(ins, d),
            range: parameters::is_outside(settings.limits, purse, log.count, ins, role, d)
                | parameters::is_long_read(maced, ins, role, d),
            nothing: parameters::nothing_pending(ins, purse.moved, log.adds | log.clears),
            maced,
            role,
        }
    }
}
