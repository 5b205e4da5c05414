// The lines that begin with a letter, on the bench alone.
ghost use Rattle.std.specs.Prelude.{◌≡◌, ◌+◌, ◌*◌, ◌≤◌, length, get_or};
ghost use Rattle.card.specs.Events.{personalised, session_changed};
ghost use Rattle.orders.specs.Order.{order_in};
ghost use Rattle.kinds.specs.declared.Kind.TheVariants.{HandedIn};
ghost use Rattle.lines.specs.Frames.{longest_line};
ghost use Rattle.told.specs.Told.{said_of};
ghost use Rattle.letters.specs.Letters.{counted, lent, inputs_in, handed, lettered_by, lettered};

use card::Card;
use channel::Inputs;
use desk::{Desk, MOST_ROOM};
use kinds::Kind;
use lines::LONGEST_FRAME;
use notices::Notice;
use orders::Order;
use told::{Frame, Told};

// P: personalise.
fn personalise(mut desk: Desk, b: &[u8]) -> Told
    ensures { said_of result ≡ counted desk (personalised (order_in b.now).settings (order_in b.now).keys (order_in b.now).value) }
{
    let order = Order::read(b);
    let made = Card::personalise(order.settings, order.keys, order.value);
    desk.keep(&made);
    Told {
        desk,
        notice: Notice::Number(made.refusal),
    }
}

// S: a session change.
fn change_session(mut desk: Desk, session: Option<u8>) -> Told
    ensures { said_of result ≡ counted desk (session_changed desk.card session) }
{
    let changed = desk.card.change_session(session);
    desk.keep(&changed);
    Told {
        desk,
        notice: Notice::Number(changed.refusal),
    }
}

// R: the length of the reply buffer.
fn lend(mut desk: Desk, n: usize) -> Told
    ensures { said_of result ≡ lent desk n }
{
    if MOST_ROOM < n {
        return Told {
            desk,
            notice: Notice::Unread,
        };
    }
    desk.room = n;
    Told {
        desk,
        notice: Notice::Number(None),
    }
}

// A length in two bytes, most significant first.
fn length_in(b: &[u8]) -> usize
    ensures { result ≡ 256 * get_or b.now 0 0 + get_or b.now 1 0 }
{
    let high = wire::byte_at(b, 0);
    let low = wire::byte_at(b, 1);
    256 * (high as usize) + low as usize
}

// N: what the bench hands in.
fn hand_in(mut desk: Desk, b: &[u8]) -> Told
    requires { length b.now ≡ 20 }
    ensures { said_of result ≡ handed desk (inputs_in b.now) }
{
    let mut random = [0u8; 16];
    wire::lay(&mut random, 0, &b[0..16]);
    let mut ti = [0u8; 4];
    wire::lay(&mut ti, 0, &b[16..20]);
    desk.inputs = Inputs { random, ti };
    Told {
        desk,
        notice: Notice::Number(None),
    }
}

// What a line of this kind does, with the bytes b that its digits spell.
fn say_kind(desk: Desk, kind: Kind, b: &[u8]) -> Told
    requires { kind ≡ HandedIn → length b.now ≡ 20 }
    ensures { said_of result ≡ lettered_by desk kind b.now }
{
    match kind {
        Kind::Order => personalise(desk, b),
        Kind::NoSession => change_session(desk, None),
        Kind::Session => change_session(desk, Some(wire::byte_at(b, 0))),
        Kind::Room => lend(desk, length_in(b)),
        Kind::HandedIn => hand_in(desk, b),
        Kind::Opening => told::play(desk, Frame::Opening, b),
        Kind::FileBytes => told::play(desk, Frame::FileBytes, b),
        Kind::Books => Told {
            desk,
            notice: Notice::Books,
        },
        Kind::Count => Told {
            desk,
            notice: Notice::Count(desk.stored),
        },
        Kind::Unread => Told {
            desk,
            notice: Notice::Unread,
        },
    }
}

// A letter and the characters behind it.
pub(crate) fn say_lettered(desk: Desk, letter: u8, rest: &[u8]) -> Told
    requires { length rest.now ≤ longest_line }
    ensures { said_of result ≡ lettered desk letter rest.now }
{
    let mut bytes = [0u8; LONGEST_FRAME];
    let n = text::spell(rest, &mut bytes);
    let digits = 2 * n == rest.len();
    let kind = Kind::of_line(letter, rest.len(), digits);
    say_kind(desk, kind, &bytes[0..n])
}
