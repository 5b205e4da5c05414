// What is told of a line, and a chain's lines on the card of a desk: the frame that opens it, and file bytes.
#![tactic(auto)]

ghost use Rattle.std.specs.Prelude.{◌≡◌, length};
ghost use Rattle.card.specs.Outcome.{Answered};
ghost use Rattle.desk.specs.Room.{lent_room};
ghost use Rattle.told.specs.Told.{said_of, replied, framed};
ghost use Rattle.told.specs.Laws.{Brief, Tells};

use card::{Card, Reply};
use desk::{Desk, MOST_ROOM};
use notices::Notice;
use refusals::Refusal;

// A desk after a line, and the answer.
#[derive(Clone, Copy)]
pub struct Told {
    pub desk: Desk,
    pub notice: Notice,
}

// The frames of a chain: the one that opens it, and those of file bytes.
#[derive(Clone, Copy)]
pub enum Frame {
    Opening,
    FileBytes,
}

// The frame b on the card.
fn event(card: Card, frame: Frame, b: &[u8], reply: &mut [u8]) -> Reply
    ensures { Answered (framed frame card b.now (length reply.old)) reply.old reply.new result }
{
    match frame {
        Frame::Opening => card.open_chain(b, reply),
        Frame::FileBytes => card.file_frame(b, reply),
    }
}

// The answer to a reply, which is a status word or nothing.
fn answer(refusal: Option<Refusal>, reply: &[u8]) -> Notice
    requires { Brief refusal reply.now }
    ensures { Tells result refusal reply.now }
{
    if reply.len() == 0 {
        return Notice::Refusal(refusal);
    }
    Notice::Status(reply[0], reply[1])
}

// The frame b on the card of the desk.
pub fn play(mut desk: Desk, frame: Frame, b: &[u8]) -> Told
    ensures { said_of result ≡ replied desk (framed frame desk.card b.now (lent_room desk.room)) }
{
    let mut reply = [0u8; MOST_ROOM];
    let lent = desk::lent_room(desk.room);
    let played = event(desk.card, frame, b, &mut reply[0..lent]);
    desk.keep(&played);
    Told {
        desk,
        notice: answer(played.refusal, &reply[0..played.len]),
    }
}
