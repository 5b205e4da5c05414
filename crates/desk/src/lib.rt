// A desk: a card, and how lines are played on it.
#![tactic(auto)]

ghost use Rattle.std.specs.Prelude.{◌≡◌};
ghost use Rattle.desk.specs.Room.{lent_room};
ghost use Rattle.desk.specs.Program.{program_card, program_desk};
ghost use Rattle.desk.specs.After.{after_event};

use card::{Card, Reply};
use channel::Inputs;
use keys::Keys;
use limits::Limits;
use settings::Settings;

// A card on the desk, what the bench hands in with its events, the length of the reply buffer lent to its commands, the slot bytes
// of the log that its last event stored, and whether lettered lines are taken.
#[derive(Clone, Copy)]
pub struct Desk {
    pub card: Card,
    pub inputs: Inputs,
    pub room: usize,
    pub stored: u8,
    pub bench: bool,
}

impl Desk {
    // The program's card.
    fn program_card() -> Card
        ensures { result ≡ program_card }
    {
        let limits = Limits {
            lower: 0,
            upper: 1000,
        };
        let settings = Settings::alike(0xEEEE, limits, true);
        let reply = Card::personalise(settings, Keys::zeros(), 100);
        reply.card
    }

    // The program's card; lettered lines are taken on the bench alone.
    pub fn program(bench: bool) -> Desk
        ensures { result ≡ program_desk bench }
    {
        Desk {
            card: Desk::program_card(),
            inputs: Inputs {
                random: [0; 16],
                ti: [0; 4],
            },
            room: Card::REPLY_ROOM,
            stored: 0,
            bench,
        }
    }

    // Keeps what an event left: the card, and the count of slot bytes that it stored.
    #[tactic(auto, unfolding(crate::specs::After::after_event))]
    pub fn keep(&mut self, reply: &Reply)
        ensures { self.new ≡ after_event self.old reply.now.card reply.now.stored }
    {
        self.card = reply.card;
        self.stored = reply.stored;
    }
}

// The largest reply buffer.
pub const MOST_ROOM: usize = 0x200;

// The room lent to an event, at most the largest reply buffer.
pub fn lent_room(room: usize) -> usize
    ensures { result ≡ lent_room room }
{
    if MOST_ROOM < room {
        return MOST_ROOM;
    }
    room
}
