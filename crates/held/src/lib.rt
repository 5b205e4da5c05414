// What the terminal holds between two lines of a draft.
#![tactic(auto)]

ghost use Rattle.std.specs.Prelude.{◌≡◌};
ghost use Rattle.held.specs.Held.{begun, over, counted, sent};

// The card's random number and transaction identifier that the last N line handed in, and the session, if one is held, by its
// MAC key, transaction identifier and command counter. These three are no Option beside the rest: a session that is over leaves
// them as they were (`over`, and its edit `over_counter_lost`), and the counter starts at 0 before any session (`begin_counted`).
#[derive(Clone, Copy)]
pub struct Draft {
    pub random: [u8; 16],
    pub identifier: [u8; 4],
    pub held: bool,
    pub key: [u8; 16],
    pub ti: [u8; 4],
    pub counter: u16,
}

impl Draft {
    // At the start.
    pub fn begin() -> Draft
        ensures { result ≡ begun }
    {
        Draft {
            random: [0; 16],
            identifier: [0; 4],
            held: false,
            key: [0; 16],
            ti: [0; 4],
            counter: 0,
        }
    }

    // No session is held any more.
    pub fn over(mut self) -> Draft
        ensures { result ≡ over self }
    {
        self.held = false;
        self
    }

    // The command counter up by one.
    pub fn counted(mut self) -> Draft
        ensures { result ≡ counted self }
    {
        self.counter = self.counter.saturating_add(1);
        self
    }

    // After a plain frame.
    pub fn sent(self, frame: &[u8]) -> Draft
        ensures { result ≡ sent self frame.now }
    {
        let ins = wire::byte_at(frame, 1);
        if (ins == 0x71) | (ins == 0xAF) {
            return self.over();
        }
        self.counted()
    }
}
