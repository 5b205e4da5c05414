// The characters of an answer in lent slices.
#![tactic(auto)]

ghost use Rattle.std.specs.Prelude.{◌≡◌, ◌-◌, ltb, length};
ghost use Rattle.wire.specs.Bytes.{Shows};
ghost use Rattle.text.specs.Shown.{in_room, Adds};
ghost use Rattle.answers.specs.Answers.{numbered, reply_text, reply_line, reply_size};

use refusals::Refusal;

// Lays `!` and a number over the front of answer and answers the number of characters; nothing and 0 where there is no room.
pub fn put_number(n: u8, answer: &mut [u8]) -> usize
    ensures { Shows (in_room (length answer.old) (numbered n)) answer.old answer.new result }
{
    if answer.len() < 2 {
        return 0;
    }
    let two = [0x21, 0x30 + n % 10];
    wire::lay(answer, 0, &two);
    2
}

// A reply in capital digits, or the bench refusal.
fn put_reply(refusal: Option<Refusal>, bytes: &[u8], answer: &mut [u8]) -> usize
    ensures { Shows (in_room (length answer.old) (reply_text refusal bytes.now)) answer.old answer.new result }
{
    match refusal {
        Some(refusal) => put_number(refusal.number(), answer),
        None => text::put_digits(bytes, answer),
    }
}

// Whether the answer to a reply of len bytes and its LF fit so many places.
fn fits(refusal: Option<Refusal>, len: usize, room: usize) -> bool
    ensures { result ≡ ltb (reply_size refusal len) room }
{
    match refusal {
        Some(_) => 2 < room,
        None => len < room - room / 2,
    }
}

// Puts the answer to a reply and its LF from place at of out on, and answers the place behind; nothing and at where there is no room.
pub fn put_line(refusal: Option<Refusal>, bytes: &[u8], at: usize, out: &mut [u8]) -> usize
    ensures { Adds (in_room (length out.old - at) (reply_line refusal bytes.now)) out.old at out.new result }
{
    if out.len() <= at {
        return at;
    }
    if !fits(refusal, bytes.len(), out.len() - at) {
        return at;
    }
    let len = put_reply(refusal, bytes, &mut out[at..]);
    let end = [0x0A];
    wire::lay(out, at + len, &end);
    at + len + 1
}
