// What a line writes, by its kind.
ghost use Rattle.std.specs.Prelude.{◌≡◌, ◌∷◌, ◌++◌, ◌+◌, ◌≤◌, length};
ghost use Rattle.wire.specs.Bytes.{part, Shows};
ghost use Rattle.text.specs.Hex.{in_digits};
ghost use Rattle.lines.specs.Frames.{longest_line};
ghost use Rattle.held.specs.Held.{noted};
ghost use Rattle.drafts.specs.Drafts.{unchanged, unread, authenticated, maced, Writes};

use super::Step;
use held::Draft;
use lines::LONGEST_LINE;

// Sixteen bytes from place at on.
fn sixteen(b: &[u8], at: usize) -> [u8; 16]
    requires { at + 16 ≤ length b.now }
    ensures { result ≡ part b.now at (at + 16) }
{
    std::array::from_fn(|i| b[at + i])
}

// The random number and the transaction identifier of an N line.
pub(crate) fn noted(mut draft: Draft, b: &[u8]) -> Draft
    requires { length b.now ≡ 20 }
    ensures { result ≡ noted draft b.now }
{
    let random = sixteen(b, 0);
    let mut identifier = [0u8; 4];
    wire::lay(&mut identifier, 0, &b[16..20]);
    draft.random = random;
    draft.identifier = identifier;
    draft
}

pub(crate) fn put_unread(draft: Draft, text: &mut [u8; LONGEST_LINE]) -> Step
    ensures { Writes (unread draft) text.old text.new result }
{
    let one = [0x3F];
    wire::lay(text, 0, &one);
    Step { draft, len: 1 }
}

pub(crate) fn put_same(draft: Draft, line: &[u8], text: &mut [u8; LONGEST_LINE]) -> Step
    requires { length line.now ≤ longest_line }
    ensures { Writes (unchanged draft line.now) text.old text.new result }
{
    wire::lay(text, 0, line);
    Step {
        draft,
        len: line.len(),
    }
}

// Two frames, a line each, but for the last LF.
fn put_two(first: [u8; 8], second: [u8; 38], text: &mut [u8]) -> usize
    requires { longest_line ≤ length text.old }
    ensures { Shows (in_digits first ++ 0x0A ∷ in_digits second) text.old text.new result }
{
    let n = text::put_digits(&first, text);
    let end = [0x0A];
    wire::lay(text, n, &end);
    let m = text::put_digits(&second, &mut text[n + 1..]);
    n + 1 + m
}

// Both parts of an authentication: b is key number, key, RndA.
pub(crate) fn put_authenticated(draft: Draft, b: &[u8], text: &mut [u8; LONGEST_LINE]) -> Step
    requires { length b.now ≡ 33 }
    ensures { Writes (authenticated draft b.now) text.old text.new result }
{
    let k = sixteen(b, 1);
    let a = sixteen(b, 17);
    let first = till::first_frame(wire::byte_at(b, 0));
    let random = draft.random;
    let second = till::second_frame(till::second_part(k, a, random));
    let len = put_two(first, second, text);
    Step {
        draft: opening::opened(draft, k, a),
        len,
    }
}

// A frame with its MAC.
pub(crate) fn put_maced(draft: Draft, frame: &[u8], text: &mut [u8; LONGEST_LINE]) -> Step
    ensures { Writes (maced draft frame.now) text.old text.new result }
{
    if !draft.held {
        return put_unread(draft, text);
    }
    let key = draft.key;
    let ti = draft.ti;
    let mut bytes = [0u8; 261];
    let n = sealed::seal_frame(key, ti, draft.counter, frame, &mut bytes);
    if n == 0 {
        return put_unread(draft, text);
    }
    let len = text::put_digits(&bytes[0..n], text);
    Step {
        draft: draft.counted(),
        len,
    }
}
