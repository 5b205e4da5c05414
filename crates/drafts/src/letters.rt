// The lines that begin with a letter.
ghost use Rattle.std.specs.Prelude.{◌≡◌, true, ◌*◌, ◌≤◌, ◌<◌, length, get_or};
ghost use Rattle.wire.specs.Bytes.{part};
ghost use Rattle.lines.specs.Frames.{longest_line};
ghost use Rattle.drafts.specs.Drafts.{lettered_by, lettered, Writes};

use super::{Step, parts};
use held::Draft;
use lines::{LONGEST_FRAME, LONGEST_LINE};

// A letter with n characters behind it, and the bytes b that they spell.
fn put_spelt(
    draft: Draft,
    line: &[u8],
    letter: u8,
    n: usize,
    digits: bool,
    b: &[u8],
    text: &mut [u8; LONGEST_LINE],
) -> Step
    requires { (length line.now ≤ longest_line) × (digits ≡ true → n ≡ 2 * length b.now) }
    ensures { Writes (lettered_by draft line.now letter n digits b.now) text.old text.new result }
{
    if (letter == b'M') & digits {
        return parts::put_maced(draft, b, text);
    }
    if (letter == b'A') & (n == 66) & digits {
        return parts::put_authenticated(draft, b, text);
    }
    if (letter == b'N') & (n == 40) & digits {
        return parts::put_same(parts::noted(draft, b), line, text);
    }
    if (letter == b'C') & (2 <= n) & digits {
        return parts::put_same(draft.counted(), line, text);
    }
    if (letter == b'S') | (letter == b'P') {
        return parts::put_same(draft.over(), line, text);
    }
    parts::put_same(draft, line, text)
}

// A line of a letter and the characters behind it.
pub(crate) fn put_lettered(draft: Draft, line: &[u8], text: &mut [u8; LONGEST_LINE]) -> Step
    requires { (0 < length line.now) × (length line.now ≤ longest_line) }
    ensures { Writes (lettered draft line.now (get_or line.now 0 0) (part line.now 1 (length line.now))) text.old text.new result }
{
    let mut bytes = [0u8; LONGEST_FRAME];
    let n = line.len() - 1;
    let size = text::spell(&line[1..], &mut bytes);
    let digits = 2 * size == n;
    put_spelt(
        draft,
        line,
        wire::byte_at(line, 0),
        n,
        digits,
        &bytes[0..size],
        text,
    )
}
