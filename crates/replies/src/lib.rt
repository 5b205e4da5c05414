// What the data of an accepted command's reply is.
#![tactic(auto)]

ghost use Rattle.std.specs.Prelude.{length};
ghost use Rattle.wire.specs.Bytes.{Shows};
ghost use Rattle.replies.specs.Guarded.{value_in, shown_in};

use columns::table;
use datafiles::Files;
use logfile::Log;
use purse::Purse;
use roles::Role;
use settings::Settings;

// Lays the four bytes of a value over the front of reply, least significant first.
fn show_value(value: i32, reply: &mut [u8]) -> usize
    ensures { Shows (value_in (length reply.old) value) reply.old reply.new result }
{
    if reply.len() < 4 {
        return 0;
    }
    let bytes = wire::four_of(whole::bits(value));
    wire::lay(reply, 0, &bytes);
    4
}

// Lays what the command shows over the front of reply, and answers its length.
#[tactic(auto, unfolding(wire::specs::Bytes::laid, crate::specs::Guarded::shown_in, tables::specs::Choice::pick))]
pub fn show(
    settings: Settings,
    files: Files,
    purse: Purse,
    log: Log,
    ins: u8,
    role: Role,
    d: &[u8],
    reply: &mut [u8],
) -> usize
    ensures { Shows (shown_in (length reply.old) settings files purse log ins role d.now) reply.old reply.new result }
{
    match ins {
        table::READ_DATA => files.show(role, wire::le3_at(d, 1), wire::le3_at(d, 4), reply),
        table::GET_VALUE => show_value(purse.value, reply),
        table::READ_RECORDS => records::show(log, wire::le3_at(d, 1), wire::le3_at(d, 4), reply),
        table::GET_FILE_SETTINGS => description::show(
            settings,
            purse.allowance,
            log.count,
            role,
            reply,
        ),
        _ => 0,
    }
}
