// Drafts: a script with commands that lack their MAC, and authentications named by key and RndA, made into a script for the bench.
#![tactic(auto)]

mod letters;
mod parts;

ghost use Rattle.std.specs.Prelude.{[], ◌≤◌, ◌<◌, length};
ghost use Rattle.lines.specs.Frames.{longest_line};
ghost use Rattle.lines.specs.Lines.{lines_after, went, Goes};
ghost use Rattle.drafts.specs.Drafts.{drafted, Writes};

use held::Draft;
use lines::{LONGEST_FRAME, LONGEST_LINE, Progress};

// What is held after a line, and the number of characters that it writes.
#[derive(Clone, Copy)]
struct Step {
    draft: Draft,
    len: usize,
}

// What a line writes, over the front of text.
fn write_line(draft: Draft, line: &[u8], text: &mut [u8; LONGEST_LINE]) -> Step
    ensures { Writes (drafted draft line.now) text.old text.new result }
{
    let n = line.len();
    if LONGEST_LINE < n {
        return parts::put_unread(draft, text);
    }
    if n == 0 {
        return parts::put_same(draft.over(), line, text);
    }
    let mut bytes = [0u8; LONGEST_FRAME];
    let size = text::spell(line, &mut bytes);
    if 2 * size == n {
        return parts::put_same(draft.sent(&bytes[0..size]), line, text);
    }
    letters::put_lettered(draft, line, text)
}

// Writes the whole lines of a draft, as far as there is room in out. A line is passed only when what it writes was put, so that
// its place is no iterator's. The loop is not one with that of `script::run`, which would search for more ends and copy more cards.
pub fn run(mut draft: Draft, text: &[u8], out: &mut [u8]) -> Progress<Draft>
    ensures { Goes (went drafted draft (lines_after [] text.now) (length out.old)) out.old out.new result.state result.read result.written }
{
    let mut line = [0u8; LONGEST_LINE];
    let mut at = 0;
    let mut n = 0;
    while at < text.len() {
        let e = lines::line_end(text, at);
        if e == text.len() {
            return Progress {
                state: draft,
                read: at,
                written: n,
            };
        }
        let step = write_line(draft, &text[at..e], &mut line);
        let len = step.len;
        let put = lines::put(&line[0..len], n, out);
        if put == n {
            return Progress {
                state: draft,
                read: at,
                written: n,
            };
        }
        draft = step.draft;
        n = put;
        at = e + 1;
    }
    Progress {
        state: draft,
        read: at,
        written: n,
    }
}
