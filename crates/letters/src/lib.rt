// A line that is no command: what it does to a desk, and its answer.
#![tactic(auto)]

mod bench;

ghost use Rattle.std.specs.Prelude.{◌≡◌};
ghost use Rattle.told.specs.Told.{said_of};
ghost use Rattle.letters.specs.Letters.{powered, other_said};

use desk::Desk;
use lines::LONGEST_LINE;
use notices::Notice;
use told::Told;

// An empty line: a power-up.
fn power_up(mut desk: Desk) -> Told
    ensures { said_of result ≡ powered desk }
{
    let reply = desk.card.power_up();
    desk.keep(&reply);
    Told {
        desk,
        notice: Notice::Refusal(reply.refusal),
    }
}

// What a line that is no command does, and its answer.
pub fn say(desk: Desk, line: &[u8]) -> Told
    ensures { said_of result ≡ other_said desk line.now }
{
    let n = line.len();
    if LONGEST_LINE < n {
        return Told {
            desk,
            notice: Notice::Unread,
        };
    }
    if n == 0 {
        return power_up(desk);
    }
    if desk.bench {
        return bench::say_lettered(desk, wire::byte_at(line, 0), &line[1..]);
    }
    Told {
        desk,
        notice: Notice::Unread,
    }
}
