// AuthenticateEV2First on the card: what each part leaves of the channel, and the data of its reply.
#![tactic(auto)]

ghost use Rattle.std.specs.Prelude.{◌≡◌};
ghost use Rattle.authentication.specs.Authentication.{begun, first_shown};
ghost use Rattle.authentication.specs.Guarded.{opened_in, second_in};

use chains::Chain;
use channel::{Channel, Inputs, Stage};
use keys::Keys;

// The channel behind an accepted first part.
#[tactic(auto, unfolding(crate::specs::Authentication::begun))]
pub fn begin(inputs: Inputs, d: &[u8]) -> Channel
    ensures { result ≡ begun inputs d.now }
{
    let key = wire::byte_at(d, 0);
    let secret = inputs.random;
    let ti = inputs.ti;
    let caps = handshake::caps(d);
    Channel {
        stage: Stage::Waiting(key),
        secret,
        ti,
        caps,
        chain: Chain::none(),
    }
}

// The data of its reply.
#[tactic(auto, unfolding(crate::specs::Authentication::first_shown))]
pub fn show_first(keys: Keys, inputs: Inputs, d: &[u8]) -> [u8; 16]
    ensures { result ≡ first_shown keys inputs d.now }
{
    handshake::first_reply(keys.at(wire::byte_at(d, 0)), inputs.random)
}

// The channel behind a second part.
#[tactic(auto, unfolding(crate::specs::Guarded::opened_in))]
pub fn open(keys: Keys, channel: Channel, d: &[u8]) -> Channel
    ensures { result ≡ opened_in keys channel d.now }
{
    let k = channel.stage.key();
    let ti = channel.ti;
    let secret = handshake::session_key(keys.at(k), channel.secret, d);
    Channel {
        stage: Stage::Real(k, 0),
        secret,
        ti,
        caps: [0; 6],
        chain: Chain::none(),
    }
}

// The data of its reply.
#[tactic(auto, unfolding(crate::specs::Guarded::second_in))]
pub fn show_second(keys: Keys, channel: Channel, d: &[u8]) -> [u8; 32]
    ensures { result ≡ second_in keys channel d.now }
{
    handshake::second_reply(keys.at(channel.stage.key()), channel.ti, channel.caps, d)
}
