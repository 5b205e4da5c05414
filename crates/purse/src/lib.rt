// The value file: a signed value between two limits, what is pending on it, and the re-booking allowance.
#![tactic(auto)]

ghost use Rattle.std.specs.Prelude.{◌≡◌};
ghost use Rattle.purse.specs.Purse.{resting, settled, dropped};
ghost use Rattle.purse.specs.Guarded.{raise_in, credit_in, debit_in, rebook_in};

use limits::Limits;

#[derive(Clone, Copy)]
pub struct Purse {
    // Committed figures.
    pub value: i32,
    pub allowance: u32,
    // The open transaction's: the pending value, what is left of the allowance, the sum of its Debits and whether it has
    // one, and whether the file is pending. No Option stands for a flag: the standing rules (`rules`) speak of a sum
    // without a Debit, and of pending figures where the file is not pending.
    pub pending: i32,
    pub left: u32,
    pub debits: u32,
    pub debited: bool,
    pub moved: bool,
}

impl Purse {
    // The largest figure of the allowance and of a sum of Debits.
    pub const LARGEST: u32 = 2147483647;

    // A purse with nothing pending.
    #[tactic(auto, unfolding(crate::specs::Purse::resting))]
    pub fn resting(value: i32, allowance: u32) -> Purse
        ensures { result ≡ resting value allowance }
    {
        Purse {
            value,
            allowance,
            pending: value,
            left: allowance,
            debits: 0,
            debited: false,
            moved: false,
        }
    }

    // What Credit and LimitedCredit share: the pending value rises, with `left` left of the allowance. The sum is formed in 64
    // bits, here and in `debit`.
    #[tactic(auto, unfolding(crate::specs::Guarded::raise_in, tables::specs::Choice::pick))]
    fn raise(self, limits: Limits, amount: u32, left: u32) -> Purse
        ensures { result ≡ raise_in limits self amount left }
    {
        if !limits.hold_rise(self.pending, amount) {
            return self;
        }
        Purse {
            pending: (self.pending as i64 + amount as i64) as i32,
            left,
            moved: true,
            ..self
        }
    }

    #[tactic(auto, unfolding(crate::specs::Guarded::credit_in, crate::specs::Guarded::raise_in, crate::specs::Purse::credited))]
    pub fn credit(self, limits: Limits, amount: u32) -> Purse
        ensures { result ≡ credit_in limits self amount }
    {
        self.raise(limits, amount, self.left)
    }

    #[tactic(auto, unfolding(crate::specs::Guarded::debit_in, tables::specs::Choice::pick))]
    pub fn debit(self, limits: Limits, amount: u32) -> Purse
        ensures { result ≡ debit_in limits self amount }
    {
        if !limits.hold_fall(self.pending, amount) {
            return self;
        }
        Purse {
            pending: (self.pending as i64 - amount as i64) as i32,
            debits: self.debits.saturating_add(amount).min(Purse::LARGEST),
            debited: true,
            moved: true,
            ..self
        }
    }

    // LimitedCredit: it uses up what is left of the allowance.
    #[tactic(auto, unfolding(crate::specs::Guarded::rebook_in, crate::specs::Guarded::raise_in, crate::specs::Purse::rebooked, tables::specs::Choice::pick))]
    pub fn rebook(self, limits: Limits, amount: u32) -> Purse
        ensures { result ≡ rebook_in limits self amount }
    {
        if self.left < amount {
            return self;
        }
        self.raise(limits, amount, 0)
    }

    // The pending figures become the committed ones; after a Debit the allowance is the sum of Debits.
    #[tactic(auto, unfolding(crate::specs::Purse::settled, tables::specs::Choice::pick))]
    pub fn commit(self) -> Purse
        ensures { result ≡ settled self }
    {
        if self.debited {
            Purse::resting(self.pending, self.debits)
        } else {
            Purse::resting(self.pending, self.left)
        }
    }

    #[tactic(auto, unfolding(crate::specs::Purse::dropped, crate::specs::Purse::resting))]
    pub fn drop_pending(self) -> Purse
        ensures { result ≡ dropped self }
    {
        Purse::resting(self.value, self.allowance)
    }
}
