// What a read of the log shows: committed entries, the oldest leading.
#![tactic(auto)]

ghost use Rattle.std.specs.Prelude.{◌+◌, ◌-◌, ◌<◌, ◌≤◌, ◌≡◌, eqb, length};
ghost use Rattle.tables.specs.Choice.{pick};
ghost use Rattle.wire.specs.Bytes.{laid, Shows};
ghost use Rattle.records.specs.Shown.{oldest_first, shown_in};

use logfile::Log;

// Lays number entries from entry first on over the front of reply, the oldest leading. The newest entry lies in slot place.
fn lay_entries(slots: &[u8], place: u8, first: usize, number: usize, reply: &mut [u8]) -> usize
    requires { (length slots.now ≡ 64) × (first + number ≤ 4) × (64 ≤ length reply.old) }
    ensures { (reply.new ≡ laid reply.old 0 (oldest_first slots.now place first number)) × (result ≡ length (oldest_first slots.now place first number)) }
{
    let end = first + number;
    for k in 0..number {
        let i = Log::ENTRY * ((place as usize + Log::BACK * (end - (k + 1))) % Log::ROUND);
        wire::lay(reply, Log::ENTRY * k, &slots[i..i + Log::ENTRY]);
    }
    Log::ENTRY * number
}

// The number of entries that a read of count from entry first on shows, where there are held: all of them where count is 0.
fn span(held: u8, first: u32, count: u32) -> usize
    requires { (first < held) × (first + count ≤ held) }
    ensures { (result ≡ pick (eqb count 0) (held - first) count) × (first + result ≤ held) }
{
    if count == 0 {
        return held as usize - first as usize;
    }
    count as usize
}

// Lays a read of count entries from entry first on over the front of reply, and answers its length.
pub fn show(log: Log, first: u32, count: u32, reply: &mut [u8]) -> usize
    ensures { Shows (shown_in (length reply.old) log first count) reply.old reply.new result }
{
    if reply.len() < Log::SLOTS {
        return 0;
    }
    if Log::MOST < log.count {
        return 0;
    }
    if wire::is_outside(log.count as usize, first, count) {
        return 0;
    }
    let number = span(log.count, first, count);
    lay_entries(&log.slots, log.place, first as usize, number, reply)
}
