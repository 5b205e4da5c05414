// A block of input: of a line that has not ended yet, what is kept for the next block.
#![tactic(auto)]

ghost use Rattle.std.specs.Prelude.{◌≤◌};
ghost use Rattle.wire.specs.Bytes.{Shows};
ghost use Rattle.blocks.specs.Rest.{rest_of};

// A line that is longer is answered `?` however it goes on, so that no more of it is kept.
const LONGEST_KEPT: usize = 1025;

// Moves what was not read of the first end characters to the front, LONGEST_KEPT at most, and answers how many these are.
pub fn keep_rest(buf: &mut [u8], read: usize, end: usize) -> usize
    ensures shows { Shows (rest_of buf.old read end) buf.old buf.new result }
    ensures upper_bound { result ≤ 1025 }
{
    let end = end.min(buf.len());
    let from = read.min(end);
    let n = (end - from).min(LONGEST_KEPT);
    buf.copy_within(from..from + n, 0);
    n
}
