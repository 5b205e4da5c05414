// Personalisation: the card that an order leaves, and the blank one.
ghost use Rattle.std.specs.Prelude.{◌≡◌};
ghost use Rattle.card.specs.Events.{issued, blank};

use super::Card;
use channel::{Channel, Stage};
use datafiles::Files;
use keys::Keys;
use limits::Limits;
use logfile::Log;
use purse::Purse;
use settings::Settings;

// A card with these settings, keys and this value, and nothing else on it.
pub fn issued(settings: Settings, keys: Keys, value: i32) -> Card
    ensures { result ≡ issued settings keys value }
{
    Card {
        settings,
        keys,
        files: Files::zeros(),
        purse: Purse::resting(value, 0),
        log: Log::empty(),
        channel: Channel::bare(Stage::Closed),
    }
}

// The card beside a refused personalisation.
pub fn blank() -> Card
    ensures { result ≡ blank }
{
    let limits = Limits { lower: 0, upper: 0 };
    let settings = Settings::alike(0xFFFF, limits, false);
    issued(settings, Keys::zeros(), 0)
}
