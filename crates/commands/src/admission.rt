// Places 5 to 9a of the order of checks, a test each: whether the card takes the command at all.
ghost use Rattle.std.specs.Prelude.{◌≡◌};
ghost use Rattle.access.specs.Rights.{is_never, is_not_granted};
ghost use Rattle.columns.specs.Table.{is_base};
ghost use Rattle.rows.specs.Rows.{unknown_command, interrupts, sent_of, wrong_length, lacks_mac, unknown_file, other_kind_or_never, not_granted, part_fails, forged, used_up, carries};

use access::Access;
use chains::Chain;
use channel::{Channel, Stage};
use columns::{Row, table};
use keys::Keys;
use roles::Role;

#[tactic(auto, unfolding(columns::specs::Row::row_of))]
fn is_base(ins: u8) -> bool
    ensures { result ≡ is_base ins }
{
    let row = Row::of_command(ins);
    row.names | row.ends
}

#[tactic(auto, unfolding(rows::specs::Rows::unknown_command))]
pub fn unknown_command(opening: bool, stage: Stage, ins: u8) -> bool
    ensures { result ≡ unknown_command opening stage ins }
{
    if opening {
        return ins != table::WRITE_DATA;
    }
    let base = is_base(ins);
    let waits = stage.is_waiting();
    !(base | (ins == table::AUTHENTICATE_FIRST) | ((ins == table::AUTHENTICATE_SECOND) & waits))
}

#[tactic(auto, unfolding(rows::specs::Rows::interrupts))]
pub fn interrupts(stage: Stage, chain: Chain, ins: u8) -> bool
    ensures { result ≡ interrupts stage chain ins }
{
    let waits = stage.is_waiting();
    (waits & (ins != table::AUTHENTICATE_SECOND)) | (chain.left != 0)
}

// How many bytes stand behind a write's length field.
#[tactic(auto, unfolding(rows::specs::Rows::sent_of))]
fn sent(opening: bool, d: &[u8]) -> u32
    ensures { result ≡ sent_of opening d.now }
{
    if opening {
        return 0;
    }
    wire::le3_at(d, 4)
}

// A row each, and the row of the command alone is asked.
#[tactic(auto, unfolding(rows::specs::Rows::length_cases))]
pub fn wrong_length(opening: bool, ins: u8, d: &[u8]) -> bool
    ensures { result ≡ wrong_length opening ins d.now }
{
    let n = d.len();
    match ins {
        table::READ_DATA | table::READ_RECORDS => n != 7,
        table::WRITE_DATA | table::WRITE_RECORD => n != sent(opening, d) as usize + 7,
        table::GET_VALUE | table::CLEAR_RECORD_FILE | table::GET_FILE_SETTINGS => n != 1,
        table::CREDIT | table::DEBIT | table::LIMITED_CREDIT => n != 5,
        table::COMMIT_TRANSACTION => 1 < n,
        table::ABORT_TRANSACTION => 0 < n,
        table::AUTHENTICATE_FIRST => (n < 2) | (n != wire::byte_at(d, 1) as usize + 2),
        table::AUTHENTICATE_SECOND => n != 32,
        _ => false,
    }
}

// Whether a command that is in MAC mode, if sealed says so, carries a MAC.
pub fn carries(opening: bool, sealed: bool) -> bool
    ensures { result ≡ carries opening sealed }
{
    if opening {
        return false;
    }
    sealed
}

#[tactic(auto, unfolding(rows::specs::Rows::lacks_mac))]
pub fn lacks_mac(maced: bool, x: &[u8]) -> bool
    ensures { result ≡ lacks_mac maced x.now }
{
    maced & (x.len() < modes::MAC_SIZE)
}

#[tactic(auto, unfolding(rows::specs::Rows::unknown_file, columns::specs::Row::row_of))]
pub fn unknown_file(ins: u8, role: Role) -> bool
    ensures { result ≡ unknown_file ins role }
{
    let row = Row::of_command(ins);
    let known = role.is_file();
    row.names & !known
}

// What the access decision's answer says of places 8 and 9.
fn is_never(access: Access) -> bool
    ensures { result ≡ is_never access }
{
    access == Access::Never
}

fn is_not_granted(access: Access) -> bool
    ensures { result ≡ is_not_granted access }
{
    access == Access::NotGranted
}

#[tactic(auto, unfolding(rows::specs::Rows::other_kind_or_never, columns::specs::Row::row_of))]
pub fn other_kind_or_never(ins: u8, role: Role, access: Access) -> bool
    ensures { result ≡ other_kind_or_never ins role access }
{
    let row = Row::of_command(ins);
    let suited = columns::suits_file(ins, role);
    let never = is_never(access);
    row.file & (!suited | never)
}

#[tactic(auto, unfolding(rows::specs::Rows::not_granted, columns::specs::Row::row_of))]
pub fn not_granted(ins: u8, access: Access) -> bool
    ensures { result ≡ not_granted ins access }
{
    let row = Row::of_command(ins);
    let refused = is_not_granted(access);
    row.file & refused
}

// Nothing of the cryptography runs but for a second part of its right length.
#[tactic(auto, unfolding(rows::specs::Rows::part_fails))]
pub fn part_fails(keys: Keys, channel: Channel, ins: u8, d: &[u8]) -> bool
    ensures { result ≡ part_fails keys channel ins d.now }
{
    if ins != table::AUTHENTICATE_SECOND {
        return false;
    }
    handshake::is_failed(keys.at(channel.stage.key()), channel.secret, d)
}

// Nor but for a command that carries a MAC.
#[tactic(auto, unfolding(rows::specs::Rows::forged))]
pub fn is_forged(channel: Channel, maced: bool, ins: u8, x: &[u8]) -> bool
    ensures { result ≡ forged channel maced ins x.now }
{
    if !maced {
        return false;
    }
    let counter = channel.stage.counter();
    let right = sealing::seal(
        channel.secret,
        ins,
        counter,
        channel.ti,
        modes::plain(maced, x),
    );
    !wire::is_same(modes::mac(x), &right)
}

#[tactic(auto, unfolding(rows::specs::Rows::used_up))]
pub fn used_up(stage: Stage, ins: u8) -> bool
    ensures { result ≡ used_up stage ins }
{
    let base = is_base(ins);
    let counter = stage.counter();
    base & (counter == 0xFFFF)
}
