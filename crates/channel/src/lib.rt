// Between terminal and card: how far a session has come, and what both sides then know.
#![tactic(auto)]

ghost use Rattle.std.specs.Prelude.{◌≡◌};
ghost use Rattle.channel.specs.Named.{acts};
ghost use Rattle.channel.specs.Channel.{stage_of, acting_of, named, stage_sound, is_waiting, stage_key, counter_of, counted_up, bare, counted, chained, advanced};

use chains::Chain;

// No session; one of the bench, with its key; a first part of AuthenticateEV2First that waits for its second, with its key;
// a real session, with its key and command counter.
#[derive(Clone, Copy)]
pub enum Stage {
    Closed,
    Bench(u8),
    Waiting(u8),
    Real(u8, u16),
}

// The stage, and its bytes: RndB while a first part waits, the session MAC key in a real session; the transaction
// identifier in both; PCDcap2 while a first part waits. Bytes that a stage does not need are zero. Beside them the chain of
// file frames that is open.
#[derive(Clone, Copy)]
pub struct Channel {
    pub stage: Stage,
    pub secret: [u8; 16],
    pub ti: [u8; 4],
    pub caps: [u8; 6],
    pub chain: Chain,
}

// What the bench hands in with an event: the card's random number and transaction identifier.
#[derive(Clone, Copy)]
pub struct Inputs {
    pub random: [u8; 16],
    pub ti: [u8; 4],
}

// The stage of a session that the bench opens or ends.
impl From<Option<u8>> for Stage {
    ghost from_gives = { λ session stage. stage ≡ stage_of session };

    fn from(session: Option<u8>) -> Stage {
        match session {
            None => Stage::Closed,
            Some(key) => Stage::Bench(key),
        }
    }
}

impl Stage {
    // The session that access is decided by.
    pub fn acting(self) -> Option<u8>
        ensures { result ≡ acting_of self }
    {
        let key = self.named();
        self.acts().then_some(key)
    }

    // Whether its key, if it has one, is 0 to 4.
    pub fn is_sound(self) -> bool
        ensures { result ≡ stage_sound self }
    {
        let key = self.named();
        key <= access::LAST_KEY
    }

    // The key that it names; 0 without one. All ways to a key lie at one place, so that no table of jumps is made of them.
    fn named(self) -> u8
        ensures { result ≡ named self }
    {
        match self {
            Stage::Closed => 0,
            Stage::Bench(key) | Stage::Waiting(key) | Stage::Real(key, _) => key,
        }
    }

    // Whether access is decided by that key.
    fn acts(self) -> bool
        ensures { result ≡ acts self }
    {
        matches!(self, Stage::Bench(_) | Stage::Real(_, _))
    }

    // Whether a first part waits for its second.
    pub fn is_waiting(self) -> bool
        ensures { result ≡ is_waiting self }
    {
        matches!(self, Stage::Waiting(_))
    }

    // The key of a real session or a waiting first part; 0 without one.
    pub fn key(self) -> u8
        ensures { result ≡ stage_key self }
    {
        match self {
            Stage::Closed | Stage::Bench(_) => 0,
            Stage::Waiting(k) | Stage::Real(k, _) => k,
        }
    }

    // The command counter; 0 without one.
    pub fn counter(self) -> u16
        ensures { result ≡ counter_of self }
    {
        match self {
            Stage::Closed | Stage::Bench(_) | Stage::Waiting(_) => 0,
            Stage::Real(_, n) => n,
        }
    }

    // The stage after an accepted command: a real session's counter goes up by one.
    fn counted(self) -> Stage
        ensures { result ≡ counted_up self }
    {
        match self {
            Stage::Real(key, n) => Stage::Real(key, n.wrapping_add(1)),
            Stage::Closed | Stage::Bench(_) | Stage::Waiting(_) => self,
        }
    }
}

impl Channel {
    // A stage that needs no bytes, and no chain.
    #[tactic(auto, unfolding(crate::specs::Channel::bare))]
    pub fn bare(stage: Stage) -> Channel
        ensures { result ≡ bare stage }
    {
        Channel {
            stage,
            secret: [0; 16],
            ti: [0; 4],
            caps: [0; 6],
            chain: Chain::none(),
        }
    }

    // The channel after an accepted command.
    #[tactic(auto, unfolding(crate::specs::Channel::counted))]
    pub fn counted(self) -> Channel
        ensures { result ≡ counted self }
    {
        Channel {
            stage: self.stage.counted(),
            ..self
        }
    }

    // The channel with another chain.
    #[tactic(auto, unfolding(crate::specs::Channel::chained))]
    pub fn chained(self, chain: Chain) -> Channel
        ensures { result ≡ chained self chain }
    {
        Channel { chain, ..self }
    }

    // The channel after n bytes of the open chain.
    #[tactic(auto, unfolding(crate::specs::Channel::advanced, tables::specs::Choice::pick))]
    pub fn advanced(self, n: usize) -> Channel
        ensures { result ≡ advanced self n }
    {
        let chain = self.chain;
        let next = self.chained(chain.shortened(n));
        if chain.left as usize <= n {
            return next.counted();
        }
        next
    }
}
