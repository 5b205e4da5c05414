// The limits of the value file: what they hold, and what they hold after a rise or a fall.
#![tactic(auto, unfolding(crate::specs::Limits::crossed, crate::specs::Limits::within))]

ghost use Rattle.std.specs.Prelude.{◌≡◌, ◌&&◌, leb, pos, ◌+ℤ◌, ◌-ℤ◌};
ghost use Rattle.std.specs.Int.Signed.{le_z};
ghost use Rattle.whole.specs.Parts.{above};
ghost use Rattle.limits.specs.Limits.{crossed, within};

#[derive(Clone, Copy)]
pub struct Limits {
    pub lower: i32,
    pub upper: i32,
}

// Whether low and the amount come to high at most: the amount is at most the headroom from low up to high.
fn has_room(low: i32, amount: u32, high: i32) -> bool
    ensures headroom { result ≡ (le_z low high && leb amount (above (high -ℤ low))) }
    ensures sum { result ≡ le_z (low +ℤ pos amount) high }
{
    low <= high && amount <= high.abs_diff(low)
}

// Whether low and the amount come to high at least: the amount is at least what low lacks to high.
fn reaches(low: i32, amount: u32, high: i32) -> bool
    ensures headroom { result ≡ leb (above (high -ℤ low)) amount }
    ensures sum { result ≡ le_z high (low +ℤ pos amount) }
{
    high <= low || high.abs_diff(low) <= amount
}

impl Limits {
    // Whether the lower limit is above the upper.
    pub fn are_crossed(self) -> bool
        ensures { result ≡ crossed self }
    {
        self.upper < self.lower
    }

    // Whether the limits hold the value v.
    pub fn hold(self, v: i32) -> bool
        ensures { result ≡ within self v }
    {
        (self.lower <= v) & (v <= self.upper)
    }

    // The limit test of a rise: there is room for it up to the upper limit, and it comes to the lower.
    pub fn hold_rise(self, from: i32, amount: u32) -> bool
        ensures { result ≡ within self (from +ℤ pos amount) }
    {
        has_room(from, amount, self.upper) && reaches(from, amount, self.lower)
    }

    // The limit test of a fall, turned round: from the lower limit there is room for it up to `from`, and from the upper it
    // comes to `from`.
    pub fn hold_fall(self, from: i32, amount: u32) -> bool
        ensures { result ≡ within self (from -ℤ pos amount) }
    {
        has_room(self.lower, amount, from) && reaches(self.upper, amount, from)
    }
}
