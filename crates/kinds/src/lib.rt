// What a line that begins with a letter asks for.
#![tactic(auto)]

ghost use Rattle.std.specs.Prelude.{◌≡◌};
ghost use Rattle.kinds.specs.Kinds.{kind_of};

#[derive(Clone, Copy)]
pub enum Kind {
    // P: a card by an order.
    Order,
    // S: no session, or one with a key.
    NoSession,
    Session,
    // R: the length of the reply buffer.
    Room,
    // N: what the bench hands in.
    HandedIn,
    // C and D: the frame that opens a chain, and file bytes.
    Opening,
    FileBytes,
    // B and L: the books, and the slot bytes that the last event stored.
    Books,
    Count,
    Unread,
}

impl Kind {
    // The digits of the longest order.
    const LONGEST: usize = 218;

    // By the letter, the number of characters behind it, and whether they are digits.
    #[tactic(auto, unfolding(crate::specs::Kinds::kind_of, tables::specs::Choice::pick))]
    pub fn of_line(letter: u8, n: usize, digits: bool) -> Kind
        ensures { result ≡ kind_of letter n digits }
    {
        match (letter, n, digits) {
            (b'P', 46 | 208 | Kind::LONGEST, true) => Kind::Order,
            (b'S', 0, _) => Kind::NoSession,
            (b'S', 2, true) => Kind::Session,
            (b'R', 4, true) => Kind::Room,
            (b'N', 40, true) => Kind::HandedIn,
            (b'C', 2.., true) => Kind::Opening,
            (b'D', _, true) => Kind::FileBytes,
            (b'B', 0, _) => Kind::Books,
            (b'L', 0, _) => Kind::Count,
            _ => Kind::Unread,
        }
    }
}
