// Scripts: lines of text that play a card, each answered by a line.
#![tactic(auto)]

ghost use Rattle.std.specs.Prelude.{[], ◌∷◌, ◌++◌, ◌-◌, length};
ghost use Rattle.text.specs.Shown.{in_room, Adds};
ghost use Rattle.lines.specs.Lines.{lines_after, went, Goes};
ghost use Rattle.told.specs.Told.{said_of};
ghost use Rattle.script.specs.Lines.{line_said};

use books::Books;
use card::Reply;
use desk::{Desk, MOST_ROOM};
use lines::{LONGEST_FRAME, Player, Progress};
use told::Told;

// Puts what is told of a line and LF from place at of out on, and answers the place behind; nothing and at where there is no room.
fn put_told(told: Told, at: usize, out: &mut [u8]) -> usize
    ensures { Adds (in_room (length out.old - at) ((said_of told).out ++ 0x0A ∷ [])) out.old at out.new result }
{
    let card = told.desk.card;
    let books = Books {
        purse: card.purse,
        log: card.log,
        stage: card.channel.stage,
        chain: card.channel.chain,
    };
    notices::put(told.notice, books, at, out)
}

// Room for every answer to a command: two digits a byte of the largest reply buffer, and LF.
const MOST_ANSWER: usize = 2 * MOST_ROOM + 1;

// Plays the whole lines of a text, as far as their answers fit out. The card of the run is the last reply's: a card is long, and
// its way from a reply back to the desk would be one more copy of it in each turn. A desk that a command may have to leave as it
// was, for want of room, gets its card before. A line is passed only when its answer was put, and a frame's end is known by its
// digits: an iterator over lines would search for each end, and so the place goes on by hand.
pub fn run(mut desk: Desk, text: &[u8], out: &mut [u8]) -> Progress<Desk>
    ensures { Goes (went line_said desk (lines_after [] text.now) (length out.old)) out.old out.new result.state result.read result.written }
{
    let mut frame = [0u8; LONGEST_FRAME];
    let mut reply = [0u8; MOST_ROOM];
    let mut at = 0;
    let mut n = 0;
    let mut played = Reply {
        card: desk.card,
        refusal: None,
        stored: desk.stored,
        len: 0,
    };
    while at < text.len() {
        if let Some(size) = lines::spell_frame(text, at, &mut frame) {
            let lent = desk::lent_room(desk.room);
            let inputs = desk.inputs;
            if out.len() - n < MOST_ANSWER {
                desk.card = played.card;
                desk.stored = played.stored;
            }
            played = played
                .card
                .command(&frame[0..size], inputs, &mut reply[0..lent]);
            let put = answers::put_line(played.refusal, &reply[0..played.len], n, out);
            if put == n {
                return Progress {
                    state: desk,
                    read: at,
                    written: n,
                };
            }
            n = put;
            at = at + 2 * size + 1;
            continue;
        }
        desk.card = played.card;
        desk.stored = played.stored;
        let e = lines::line_end(text, at);
        if e == text.len() {
            return Progress {
                state: desk,
                read: at,
                written: n,
            };
        }
        let told = letters::say(desk, &text[at..e]);
        let put = put_told(told, n, out);
        if put == n {
            return Progress {
                state: desk,
                read: at,
                written: n,
            };
        }
        desk = told.desk;
        played = Reply {
            card: desk.card,
            refusal: None,
            stored: desk.stored,
            len: 0,
        };
        n = put;
        at = e + 1;
    }
    desk.card = played.card;
    desk.stored = played.stored;
    Progress {
        state: desk,
        read: at,
        written: n,
    }
}

// Plays a script on a desk.
pub struct Script;

impl Player for Script {
    type State = Desk;

    ghost said = { line_said };

    fn play(&self, desk: Desk, text: &[u8], out: &mut [u8]) -> Progress<Desk> {
        run(desk, text, out)
    }
}
