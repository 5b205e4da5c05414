// The order of checks: the first reason that applies names the status.
#![tactic(auto)]

ghost use Rattle.std.specs.Prelude.{◌≡◌, IfOk};
ghost use Rattle.rows.specs.State.{core_of};
ghost use Rattle.rows.specs.Rows.{status_for, bytes_status};
ghost use Rattle.checks.specs.Order.{word_of, told, left_by, nameless, frame_order, in_order, checked_of, admitted_of};

use chains::Chain;
use channel::Channel;
use commands::Places;
use frames::Faults;
use keys::Keys;
use logfile::Log;
use purse::Purse;
use roles::Role;
use settings::Settings;

// The status word of an accepted event.
pub const OK: u16 = 0x9100;

// A refusal by its status word.
#[derive(Clone, Copy, PartialEq, Eq, Debug)]
pub enum Status {
    WrongLength = 0x6700,
    WrongClass = 0x6E00,
    WrongParameters = 0x6A86,
    UnknownCommand = 0x911C,
    Aborted = 0x91CA,
    DataLength = 0x917E,
    NoSuchFile = 0x91F0,
    Denied = 0x919D,
    NotGranted = 0x91AE,
    Integrity = 0x911E,
    BadParameter = 0x919E,
    Outside = 0x91BE,
    NothingPending = 0x910C,
}

impl Status {
    // The status word.
    pub fn word(self) -> u16
        ensures { result ≡ word_of self }
    {
        self as u16
    }
}

// What an accepted frame's command takes on: whether it carries a MAC, and the role of the file that it names.
#[derive(Clone, Copy)]
pub struct Admitted {
    pub maced: bool,
    pub role: Role,
}

// What the order of checks refuses with: the status, whether the refused frame's command carries a MAC, and the role of the file
// that it names.
#[derive(Clone, Copy)]
pub struct Refused {
    pub status: Status,
    pub maced: bool,
    pub role: Role,
}

// A frame that is refused at places 1 to 4 names no command and no file.
impl From<Status> for Refused {
    ghost from_gives = { λ status refused. refused ≡ nameless status };

    fn from(status: Status) -> Refused {
        Refused {
            status,
            maced: false,
            role: Role::NoFile,
        }
    }
}

// Places 1 to 4: the first that applies names the status.
fn frame_order(faults: Faults) -> Result<(), Status>
    ensures { told result ≡ frame_order faults.size faults.class faults.parameters faults.frame }
{
    reasons::first(&[
        (faults.size, Status::WrongLength),
        (faults.class, Status::WrongClass),
        (faults.parameters, Status::WrongParameters),
        (faults.frame, Status::WrongLength),
    ])
}

// Places 5 to 13.
fn command_order(places: Places) -> Result<(), Status>
    ensures { told result ≡ in_order places }
{
    reasons::first(&[
        (places.command, Status::UnknownCommand),
        (places.waits, Status::Aborted),
        (places.length, Status::DataLength),
        (places.file, Status::NoSuchFile),
        (places.kind, Status::Denied),
        (places.grant, Status::NotGranted),
        (places.chain, Status::Denied),
        (places.seal, Status::Integrity),
        (places.off, Status::Denied),
        (places.value, Status::BadParameter),
        (places.range, Status::Outside),
        (places.nothing, Status::NothingPending),
    ])
}

// A frame through the order of checks, as a command or as the opening of a chain.
pub fn check(
    opening: bool,
    settings: Settings,
    keys: Keys,
    purse: Purse,
    log: Log,
    channel: Channel,
    frame: &[u8],
) -> Result<Admitted, Refused>
    ensures checked { left_by result ≡ checked_of opening (core_of settings keys purse log channel) frame.now }
    ensures status { (left_by result).status ≡ status_for opening (core_of settings keys purse log channel) frame.now }
    ensures admitted { IfOk result (λ a. a ≡ admitted_of opening (core_of settings keys purse log channel) frame.now) }
{
    frame_order(Faults::asked(frame))?;
    let ins = wire::byte_at(frame, 1);
    let x = frames::data(frame);
    let places = Places::asked(opening, settings, keys, purse, log, channel, ins, x);
    let maced = places.maced;
    let role = places.role;
    match command_order(places) {
        Ok(_) => Ok(Admitted { maced, role }),
        Err(status) => Err(Refused {
            status,
            maced,
            role,
        }),
    }
}

// A frame of file bytes: the first of its two reasons.
pub fn check_bytes(chain: Chain, bytes: &[u8]) -> Result<(), Status>
    ensures { told result ≡ bytes_status chain bytes.now }
{
    reasons::first(&[
        (chain.left == 0, Status::UnknownCommand),
        (chain.is_wrong(bytes.len()), Status::DataLength),
    ])
}
