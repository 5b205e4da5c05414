// Places 10 to 13 of the order of checks, a test each: what an INS with its data field d asks for, against what the card holds.
#![tactic(auto)]

ghost use Rattle.std.specs.Prelude.{◌≡◌};
ghost use Rattle.rows.specs.Rows.{switched_off, no_amount, no_key, bad_parameter, ranged, room_of, outside_amount, outside, long_read, nothing_pending};

use columns::{Row, table};
use datafiles::Files;
use limits::Limits;
use logfile::Log;
use purse::Purse;
use roles::Role;

#[tactic(auto, unfolding(rows::specs::Rows::switched_off))]
pub fn switched_off(ins: u8, limited: bool, clears: bool) -> bool
    ensures { result ≡ switched_off ins limited clears }
{
    ((ins == table::LIMITED_CREDIT) & !limited) | ((ins == table::WRITE_RECORD) & clears)
}

// Whether an amount is 0 or negative.
fn is_no_amount(d: &[u8]) -> bool
    ensures { result ≡ no_amount d.now }
{
    let amount = wire::le4_at(d, 1);
    (amount == 0) | (0x80000000 <= amount)
}

// Whether a first part names a key above 4 or sets the LRP bit.
fn is_no_key(d: &[u8]) -> bool
    ensures { result ≡ no_key d.now }
{
    let key = wire::byte_at(d, 0);
    let caps = wire::byte_at(d, 2);
    (access::LAST_KEY < key) | (caps / 2 % 2 == 1)
}

// A command's own parameter is read for that command alone: a read of four bytes with its bounds costs more than the choice.
#[tactic(auto, unfolding(rows::specs::Rows::parameter_cases))]
pub fn bad_parameter(ins: u8, d: &[u8]) -> bool
    ensures { result ≡ bad_parameter ins d.now }
{
    match ins {
        table::CREDIT | table::DEBIT | table::LIMITED_CREDIT => is_no_amount(d),
        table::WRITE_DATA | table::WRITE_RECORD => wire::le3_at(d, 4) == 0,
        table::COMMIT_TRANSACTION => wire::byte_at(d, 0) != 0,
        table::AUTHENTICATE_FIRST => is_no_key(d),
        _ => false,
    }
}

// Whether the command has an offset and a length.
#[tactic(auto, unfolding(rows::specs::Rows::ranged))]
fn has_range(ins: u8) -> bool
    ensures { result ≡ ranged ins }
{
    matches!(
        ins,
        table::READ_DATA | table::WRITE_DATA | table::READ_RECORDS | table::WRITE_RECORD
    )
}

// The room that they are held to.
#[tactic(auto, unfolding(rows::specs::Rows::room_of, tables::specs::Choice::pick))]
fn room_of(ins: u8, role: Role, entries: u8) -> usize
    ensures { result ≡ room_of ins role entries }
{
    match ins {
        table::READ_RECORDS => entries as usize,
        table::WRITE_RECORD => Log::ENTRY,
        _ => role.size(),
    }
}

// Whether an amount passes a limit or the allowance.
#[tactic(auto, unfolding(rows::specs::Rows::amount_cases))]
fn amount_is_outside(limits: Limits, purse: Purse, ins: u8, amount: u32) -> bool
    ensures { result ≡ outside_amount limits purse ins amount }
{
    match ins {
        table::DEBIT => !limits.hold_fall(purse.pending, amount),
        table::CREDIT => !limits.hold_rise(purse.pending, amount),
        table::LIMITED_CREDIT => {
            !limits.hold_rise(purse.pending, amount) | (purse.left < amount)
        }
        _ => false,
    }
}

#[tactic(auto, unfolding(rows::specs::Rows::outside, tables::specs::Choice::pick))]
pub fn is_outside(limits: Limits, purse: Purse, entries: u8, ins: u8, role: Role, d: &[u8]) -> bool
    ensures { result ≡ outside limits purse entries ins role d.now }
{
    if has_range(ins) {
        let room = room_of(ins, role, entries);
        return wire::is_outside(room, wire::le3_at(d, 1), wire::le3_at(d, 4));
    }
    amount_is_outside(limits, purse, ins, wire::le4_at(d, 1))
}

// The most bytes that a ReadData in MAC mode shows.
const MACED_READ: usize = 248;

#[tactic(auto, unfolding(rows::specs::Rows::long_read))]
pub fn is_long_read(maced: bool, ins: u8, role: Role, d: &[u8]) -> bool
    ensures { result ≡ long_read maced ins role d.now }
{
    if ins != table::READ_DATA {
        return false;
    }
    if !maced {
        return false;
    }
    let from = wire::le3_at(d, 1);
    let end = Files::end(role, from, wire::le3_at(d, 4));
    from as usize + MACED_READ < end
}

#[tactic(auto, unfolding(rows::specs::Rows::nothing_pending, columns::specs::Row::row_of))]
pub fn nothing_pending(ins: u8, value: bool, log: bool) -> bool
    ensures { result ≡ nothing_pending ins value log }
{
    let row = Row::of_command(ins);
    row.ends & !(value | log)
}
