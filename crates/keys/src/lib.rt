// The card's five keys, of sixteen bytes each.
#![tactic(auto)]

ghost use Rattle.std.specs.Prelude.{◌≡◌};
ghost use Rattle.keys.specs.Keys.{zeros, key_at};

// The number of the last.
const LAST: u8 = 4;

// All of them, in the order of their numbers.
#[derive(Clone, Copy)]
pub struct Keys {
    pub all: [[u8; 16]; 5],
}

impl Keys {
    #[tactic(auto, unfolding(crate::specs::Keys::zeros))]
    pub fn zeros() -> Keys
        ensures { result ≡ zeros }
    {
        Keys { all: [[0; 16]; 5] }
    }

    // The key of number n.
    #[tactic(auto, unfolding(crate::specs::Keys::key_at))]
    pub fn at(self, n: u8) -> [u8; 16]
        ensures { result ≡ key_at self n }
    {
        self.all[n.min(LAST) as usize]
    }
}
