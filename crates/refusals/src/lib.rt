// The bench refusals: an event that answers one leaves the card as it was.
#![tactic(auto)]

ghost use Rattle.std.specs.Prelude.{◌≡◌};
ghost use Rattle.refusals.specs.Numbers.{number, number_of};

#[derive(Clone, Copy, PartialEq, Eq, Debug)]
pub enum Refusal {
    // A rights nibble of an order is 5 to Dh.
    WrongRights = 1,
    // The lower limit is above the upper one.
    CrossedLimits = 2,
    // The starting value is outside the limits.
    ValueOutside = 3,
    // The key of a session is above 4.
    UnknownKey = 4,
    // The reply buffer is too small.
    ShortBuffer = 5,
    // The card breaks a standing rule.
    BrokenRule = 6,
    // A file's number is above 1Fh.
    NumberAbove = 7,
    // Two files have the same number.
    NumberTwice = 8,
}

impl Refusal {
    pub fn number(self) -> u8
        ensures { result ≡ number self }
    {
        self as u8
    }
}

// A refusal's number, and 0 where nothing was refused.
pub fn number_of(refusal: Option<Refusal>) -> u8
    ensures { result ≡ number_of refusal }
{
    match refusal {
        Some(refusal) => refusal.number(),
        None => 0,
    }
}
