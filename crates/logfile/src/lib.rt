// The cyclic log: a ring of four slots of 16 bytes, and what is pending on them.
#![tactic(auto)]

ghost use Rattle.std.specs.Prelude.{[], ◌∷◌, ◌≡◌};
ghost use Rattle.logfile.specs.Journal.{pushed, resting, written, cleared, dropped};
ghost use Rattle.logfile.specs.Ring.{newer};
ghost use Rattle.logfile.specs.View.{view, put, committed, empty};

#[derive(Clone, Copy)]
pub struct Log {
    // Stored entries: count of them, the newest in slot place, each older one in the slot before, counted round. They are bytes, and
    // no array of entries: `slot_at`, `ringed` and `slots_kept` count them byte by byte.
    pub slots: [u8; Log::SLOTS],
    pub place: u8,
    pub count: u8,
    // The new entry, where one is pending; whether one is, and whether a clear is. The entry is no Option: its bytes stay where none
    // is pending, as `put` says, and `slots_kept` speaks of them.
    pub entry: [u8; Log::ENTRY],
    pub adds: bool,
    pub clears: bool,
}

// A log, and the number of slot bytes that were stored on the way to it.
#[derive(Clone, Copy)]
pub struct Stored {
    pub log: Log,
    pub stored: u8,
}

impl Log {
    // The bytes of an entry.
    pub const ENTRY: usize = 16;

    // The bytes of all slots.
    pub const SLOTS: usize = 64;

    // The most entries: one in each slot.
    pub const MOST: u8 = 4;

    // The slots of the ring, and the step from one to the slot before it, counted round.
    pub const ROUND: usize = 4;

    pub const BACK: usize = 3;

    // The slot bytes that a commit with a new entry stores.
    const STORED: u8 = 16;

    // The most entries that stay beside a new one.
    const BESIDE: u8 = 3;

    // An empty log of zero bytes.
    #[tactic(auto, unfolding(crate::specs::View::empty, crate::specs::Journal::blank))]
    pub fn empty() -> Log
        ensures { result ≡ empty }
    {
        Log {
            slots: [0; Log::SLOTS],
            place: 0,
            count: 0,
            entry: [0; Log::ENTRY],
            adds: false,
            clears: false,
        }
    }

    // WriteRecord: into the new entry, which starts as zeros.
    pub fn write(mut self, off: u32, bytes: &[u8]) -> Log
        ensures { result ≡ put self 0 (written (view self) off bytes.now) }
    {
        if !self.adds {
            self.entry = [0; Log::ENTRY];
        }
        wire::lay(&mut self.entry, off as usize, bytes);
        self.adds = true;
        self
    }

    // ClearRecordFile.
    #[tactic(auto, unfolding(crate::specs::View::put, crate::specs::Journal::dropped, crate::specs::Journal::cleared, crate::specs::Journal::resting))]
    pub fn clear(self) -> Log
        ensures { result ≡ put self 0 (cleared (view self)) }
    {
        Log {
            clears: true,
            ..self.drop_pending()
        }
    }

    // The log with no entry and nothing pending.
    #[tactic(auto, unfolding(crate::specs::View::put, crate::specs::View::view, crate::specs::Ring::ringed, crate::specs::Ring::laid_round, crate::specs::Journal::dropped, crate::specs::Journal::resting))]
    fn emptied(mut self) -> Log
        ensures { result ≡ put self 0 (resting []) }
    {
        self.count = 0;
        self.drop_pending()
    }

    // The slot behind the newest entry.
    fn next_place(self) -> u8
        ensures { result ≡ newer self.place }
    {
        self.place.wrapping_add(1) % Log::MOST
    }

    // The new entry goes into the slot behind the newest, and no other moves; a fifth takes the oldest's.
    fn push(mut self) -> Log
        ensures { result ≡ put self 16 (resting (pushed (self.entry ∷ []) (view self).entries)) }
    {
        let kept = self.count.min(Log::BESIDE);
        let place = self.next_place();
        wire::lay(&mut self.slots, Log::ENTRY * place as usize, &self.entry);
        self.place = place;
        self.count = kept + 1;
        self.drop_pending()
    }

    // The transaction's end: a pending clear empties the log; else a new entry goes in front.
    pub fn commit(self) -> Stored
        ensures { result ≡ committed self }
    {
        if self.clears {
            Stored {
                log: self.emptied(),
                stored: 0,
            }
        } else if self.adds {
            Stored {
                log: self.push(),
                stored: Log::STORED,
            }
        } else {
            Stored {
                log: self.drop_pending(),
                stored: 0,
            }
        }
    }

    // What is pending goes; the entries stay.
    pub fn drop_pending(mut self) -> Log
        ensures { result ≡ put self 0 (dropped (view self)) }
    {
        self.adds = false;
        self.clears = false;
        self
    }
}
