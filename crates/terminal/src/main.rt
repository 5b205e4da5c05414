// The terminal: a draft on standard input, the script for the bench on standard output.
#![tactic(auto)]

ghost use Rattle.drafts.specs.Drafts.{drafted};

use held::Draft;
use lines::{Player, Progress};
use std::io;

// Makes a script of a draft.
struct Terminal;

impl Player for Terminal {
    type State = Draft;

    ghost said = { drafted };

    fn play(&self, draft: Draft, text: &[u8], out: &mut [u8]) -> Progress<Draft> {
        drafts::run(draft, text, out)
    }
}

fn main(rt: HostRuntime) -> io::Result<()> {
    console::serve(&rt, &Terminal, Draft::begin())
}
