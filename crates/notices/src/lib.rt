// The answer to a line that is no command, in lent slices.
#![tactic(auto)]

ghost use Rattle.std.specs.Prelude.{[], ◌∷◌, ◌++◌, ◌-◌, ◌≤◌, length};
ghost use Rattle.wire.specs.Bytes.{Shows};
ghost use Rattle.answers.specs.Answers.{refusal_text};
ghost use Rattle.text.specs.Shown.{in_room, Adds};
ghost use Rattle.notices.specs.Notices.{notice_text};

use books::Books;
use refusals::Refusal;

// `?`, `!` and a bench refusal's number or 0, the same but nothing without a refusal, the two bytes of a status word in digits, a count, the books.
#[derive(Clone, Copy)]
pub enum Notice {
    Unread,
    Number(Option<Refusal>),
    Refusal(Option<Refusal>),
    Status(u8, u8),
    Count(u8),
    Books,
}

// `!` and a bench refusal's number, and nothing without one.
fn put_refusal(refusal: Option<Refusal>, answer: &mut [u8]) -> usize
    ensures { Shows (in_room (length answer.old) (refusal_text refusal)) answer.old answer.new result }
{
    match refusal {
        Some(refusal) => answers::put_number(refusal.number(), answer),
        None => 0,
    }
}

// Lays a notice over the front of text, and answers the number of its characters; the books are those given.
fn put_text(notice: Notice, books: Books, text: &mut [u8]) -> usize
    requires { 96 ≤ length text.old }
    ensures { Shows (notice_text notice books) text.old text.new result }
{
    match notice {
        Notice::Unread => {
            let one = [0x3F];
            wire::lay(text, 0, &one);
            1
        }
        Notice::Number(refusal) => answers::put_number(refusals::number_of(refusal), text),
        Notice::Refusal(refusal) => put_refusal(refusal, text),
        Notice::Status(high, low) => {
            let two = [high, low];
            text::put_digits(&two, text)
        }
        Notice::Count(n) => decimal::put_decimal(n as u32, text),
        Notice::Books => books.put(text),
    }
}

// Puts a notice and its LF from place at of out on, and answers the place behind; nothing and at where there is no room.
pub fn put(notice: Notice, books: Books, at: usize, out: &mut [u8]) -> usize
    ensures { Adds (in_room (length out.old - at) (notice_text notice books ++ 0x0A ∷ [])) out.old at out.new result }
{
    let mut text = [0u8; books::ROOM];
    let len = put_text(notice, books, &mut text);
    lines::put(&text[0..len], at, out)
}
