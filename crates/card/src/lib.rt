// The card: personalisation, session change and power-up, and what the other events share.
#![tactic(auto)]

mod delivery;
mod exchange;
mod issue;

ghost use Rattle.std.specs.Prelude.{◌≡◌, Some, None};
ghost use Rattle.wire.specs.Bytes.{laid_in, word};
ghost use Rattle.card.specs.View.{view, put, broken, on_channel};
ghost use Rattle.card.specs.Outcome.{reply_of};
ghost use Rattle.card.specs.Laws.{reply};
ghost use Rattle.card.specs.Events.{ended, bench_refusal, session_changed, powered_up, personalised};

use channel::{Channel, Stage};
use checks::Status;
use datafiles::Files;
use keys::Keys;
use logfile::Log;
use purse::Purse;
use refusals::Refusal;
use roles::Role;
use settings::Settings;

#[derive(Clone, Copy)]
pub struct Card {
    pub settings: Settings,
    pub keys: Keys,
    pub files: Files,
    pub purse: Purse,
    pub log: Log,
    pub channel: Channel,
}

// What an event answers: the card, the bench refusal, if any, the slot bytes of the log that it stored, and the length of the
// reply.
#[derive(Clone, Copy)]
pub struct Reply {
    pub card: Card,
    pub refusal: Option<Refusal>,
    pub stored: u8,
    pub len: usize,
}

impl Reply {
    // A bench refusal, which stores and replies nothing.
    fn refused(card: Card, refusal: Refusal) -> Reply
        ensures { result ≡ reply card (Some refusal) 0 }
    {
        Reply {
            card,
            refusal: Some(refusal),
            stored: 0,
            len: 0,
        }
    }

    // A reply of len bytes to an event that stored nothing.
    fn sent(card: Card, len: usize) -> Reply
        ensures { result ≡ reply card None len }
    {
        Reply {
            card,
            refusal: None,
            stored: 0,
            len,
        }
    }
}

impl Card {
    pub const REPLY_ROOM: usize = 258;

    // The data files' sizes.
    pub const LONG: usize = Role::LONG;

    pub const SHORT: usize = Role::SHORT;

    pub const OK: u16 = checks::OK;

    pub const SECOND_PART: u16 = 0x91AF;

    pub const WRONG_LENGTH: u16 = Status::WrongLength as u16;

    pub const WRONG_CLASS: u16 = Status::WrongClass as u16;

    pub const WRONG_PARAMETERS: u16 = Status::WrongParameters as u16;

    pub const UNKNOWN_COMMAND: u16 = Status::UnknownCommand as u16;

    pub const ABORTED: u16 = Status::Aborted as u16;

    pub const DATA_LENGTH: u16 = Status::DataLength as u16;

    pub const NO_SUCH_FILE: u16 = Status::NoSuchFile as u16;

    pub const DENIED: u16 = Status::Denied as u16;

    pub const NOT_GRANTED: u16 = Status::NotGranted as u16;

    pub const INTEGRITY: u16 = Status::Integrity as u16;

    pub const BAD_PARAMETER: u16 = Status::BadParameter as u16;

    pub const OUTSIDE: u16 = Status::Outside as u16;

    pub const NOTHING_PENDING: u16 = Status::NothingPending as u16;

    // Whether the card breaks a standing rule.
    fn breaks(&self) -> bool
        ensures { result ≡ broken self.now }
    {
        let channel = &self.channel;
        standing::breaks(
            self.settings,
            self.purse,
            self.log,
            channel.stage,
            channel.chain,
        )
    }

    // The bench refusal of an event with a reply buffer of this room, if any.
    fn bench_refusal(&self, room: usize) -> Option<Refusal>
        ensures { result ≡ bench_refusal (broken self.now) room }
    {
        if room < Card::REPLY_ROOM {
            return Some(Refusal::ShortBuffer);
        }
        if self.breaks() {
            return Some(Refusal::BrokenRule);
        }
        None
    }

    // The card with its session ended, and pending work and an open chain dropped.
    fn ended(self) -> Card
        ensures { result ≡ put self 0 (ended (view self)) }
    {
        Card {
            purse: self.purse.drop_pending(),
            log: self.log.drop_pending(),
            channel: Channel::bare(Stage::Closed),
            ..self
        }
    }

    // The card with another channel.
    fn on_channel(self, channel: Channel) -> Card
        ensures { result ≡ on_channel self channel }
    {
        Card { channel, ..self }
    }

    // Lays a status alone over the front of reply, and answers its length.
    fn say(status: u16, reply: &mut [u8]) -> usize
        ensures { (reply.new ≡ laid_in reply.old 0 (word status)) × (result ≡ 2) }
    {
        let two = wire::word_of(status);
        wire::lay(reply, 0, &two);
        2
    }

    // A session change: a key 0 to 4, or none.
    pub fn change_session(self, session: Option<u8>) -> Reply
        ensures { result ≡ reply_of (session_changed self session) }
    {
        if !access::is_session_sound(session) {
            return Reply::refused(self, Refusal::UnknownKey);
        }
        if self.breaks() {
            return Reply::refused(self, Refusal::BrokenRule);
        }
        Reply::sent(self.on_channel(Channel::bare(Stage::from(session))), 0)
    }

    // A power-up ends the session and drops pending work.
    pub fn power_up(self) -> Reply
        ensures { result ≡ reply_of (powered_up self) }
    {
        if self.breaks() {
            return Reply::refused(self, Refusal::BrokenRule);
        }
        Reply::sent(self.ended(), 0)
    }

    // A new card, or a bench refusal with the blank one beside it.
    pub fn personalise(settings: Settings, keys: Keys, value: i32) -> Reply
        ensures { result ≡ reply_of (personalised settings keys value) }
    {
        match standing::refusal(settings, value) {
            Some(refusal) => Reply::refused(issue::blank(), refusal),
            None => Reply::sent(issue::issued(settings, keys, value), 0),
        }
    }
}
