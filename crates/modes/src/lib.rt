// Which file a data field names, which commands carry a MAC, and the data field without it.
#![tactic(auto)]

ghost use Rattle.std.specs.Prelude.{◌≡◌, ◌-◌};
ghost use Rattle.tables.specs.Choice.{pick};
ghost use Rattle.access.specs.Rights.{is_free_only};
ghost use Rattle.channel.specs.Channel.{is_real};
ghost use Rattle.settings.specs.Settings.{named_by};
ghost use Rattle.modes.specs.Modes.{role_in, mac_size, maced_under, plain_of, mac_of};

use access::Access;
use channel::Stage;
use columns::{Row, table};
use settings::{Named, Settings};

pub const MAC_SIZE: usize = 8;

fn is_real(stage: Stage) -> bool
    ensures { result ≡ is_real stage }
{
    matches!(stage, Stage::Real(_, _))
}

fn is_free_only(access: Access) -> bool
    ensures { result ≡ is_free_only access }
{
    access == Access::FreeOnly
}

// What the data field x names; an empty one names no file.
#[tactic(auto, unfolding(crate::specs::Modes::role_in, tables::specs::Choice::pick))]
pub fn named(settings: Settings, x: &[u8]) -> Named
    ensures { result ≡ named_by settings (role_in settings x.now) }
{
    if x.len() == 0 {
        return Named::nothing();
    }
    settings.named(wire::byte_at(x, 0))
}

// Whether the command carries a MAC at this stage: access to its file was answered, and maced says that the file is in MAC mode.
#[tactic(auto, unfolding(crate::specs::Modes::maced_under, columns::specs::Row::row_of))]
pub fn is_maced(access: Access, maced: bool, stage: Stage, ins: u8) -> bool
    ensures { result ≡ maced_under access maced stage ins }
{
    if !is_real(stage) {
        return false;
    }
    let row = Row::of_command(ins);
    let free = is_free_only(access);
    row.ends | (ins == table::GET_FILE_SETTINGS) | (row.file & maced & !free)
}

// Where the MAC of a data field of n bytes begins; it is the whole of a shorter one.
fn mac_start(n: usize) -> usize
    ensures { result ≡ n - mac_size }
{
    if n < MAC_SIZE {
        return 0;
    }
    n - MAC_SIZE
}

// Where the data field without its MAC ends.
#[tactic(auto, unfolding(tables::specs::Choice::pick))]
fn plain_end(maced: bool, n: usize) -> usize
    ensures { result ≡ pick maced (n - mac_size) n }
{
    if maced {
        return mac_start(n);
    }
    n
}

// The data field without its MAC, where it has one.
#[tactic(auto, unfolding(crate::specs::Modes::plain_of, tables::specs::Choice::pick))]
pub fn plain(maced: bool, x: &[u8]) -> &[u8]
    ensures { result.now ≡ plain_of maced x.now }
{
    let e = plain_end(maced, x.len());
    &x[0..e]
}

// The MAC: the last eight bytes.
#[tactic(auto, unfolding(crate::specs::Modes::mac_of))]
pub fn mac(x: &[u8]) -> &[u8]
    ensures { result.now ≡ mac_of x.now }
{
    let a = mac_start(x.len());
    &x[a..]
}
