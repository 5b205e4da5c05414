// Lines of a text in lent slices.
#![tactic(auto)]

ghost use Rattle.std.specs.Prelude.{◌≡◌, ℕ, List, [], ◌∷◌, ◌++◌, true, ◌+◌, ◌-◌, ◌≤◌, length, drop};
ghost use Rattle.wire.specs.Bytes.{laid};
ghost use Rattle.text.specs.Shown.{in_room, Adds};
ghost use Rattle.lines.specs.Lines.{line_length, lines_after, Said, went, Goes};
ghost use Rattle.lines.specs.Frames.{frame_in, is_chained, tried, Found};

// The most bytes of a frame, and the most characters of a line that is read.
pub const LONGEST_FRAME: usize = 512;

pub const LONGEST_LINE: usize = 2 * LONGEST_FRAME;

// How far the lines of a text were played: the state behind them, the characters read, and the characters written.
#[derive(Clone, Copy)]
pub struct Progress<S> {
    pub state: S,
    pub read: usize,
    pub written: usize,
}

// What plays a text line by line: each line changes a state, and has an answer.
pub trait Player {
    type State: Copy;

    // The state after a line, and its answer.
    ghost said: { Self.State → List ℕ → Said Self.State };

    // Plays the whole lines of a text, as far as their answers fit out.
    fn play(&self, state: Self::State, text: &[u8], out: &mut [u8]) -> Progress<Self::State>
        ensures { Goes (went said state (lines_after [] text.now) (length out.old)) out.old out.new result.state result.read result.written };
}

// The place of the first LF from at on, or where the text ends.
pub fn line_end(text: &[u8], at: usize) -> usize
    ensures { result ≡ at + line_length (drop at text.now) }
{
    if text.len() <= at {
        return at;
    }
    // An empty line is a power-up, and there may be many: memchr takes three times as long to see one.
    if text[at] == b'\n' {
        return at;
    }
    let rest = &text[at..];
    at + memchr::memchr(b'\n', rest).unwrap_or(rest.len())
}

// Whether the line at place at begins as one of a chain and has an odd number of characters. It is no frame then, and its digits,
// which may be many, are not spelt in vain.
fn is_chained(text: &[u8], at: usize) -> bool
    ensures { result ≡ is_chained (drop at text.now) }
{
    let first = wire::byte_at(text, at);
    if (first == b'C') | (first == b'D') {
        return (line_end(text, at) - at) % 2 == 1;
    }
    false
}

// Spells the frame that stands at place at, up to its LF, into the front of bytes, and answers the number of its bytes; None
// where the line there is none.
pub fn spell_frame(text: &[u8], at: usize, bytes: &mut [u8; LONGEST_FRAME]) -> Option<usize>
    ensures frame { Found (frame_in (drop at text.now)) bytes.new result }
    ensures spelt { bytes.new ≡ laid bytes.old 0 (tried (drop at text.now)) }
{
    if text.len() <= at {
        return None;
    }
    if is_chained(text, at) {
        return None;
    }
    let size = text::spell(&text[at..], bytes);
    if (0 < size) & (wire::byte_at(text, at + 2 * size) == b'\n') {
        return Some(size);
    }
    None
}

// Puts a line and its LF from place at of out on, and answers the place behind; nothing and at where there is no room. That is no
// Option, since one law says both, and so of all that puts text (`Adds`): what was added, and that its length leads to the place.
pub fn put(line: &[u8], at: usize, out: &mut [u8]) -> usize
    ensures { Adds (in_room (length out.old - at) (line.now ++ 0x0A ∷ [])) out.old at out.new result }
{
    let len = line.len();
    if out.len().saturating_sub(at) <= len {
        return at;
    }
    wire::lay(out, at, line);
    let end = [0x0A];
    wire::lay(out, at + len, &end);
    at + len + 1
}
