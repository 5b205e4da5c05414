// The bench program: the same, and lettered lines that personalise, change session, reply buffer and inputs, and show the books.
#![tactic(auto)]

use desk::Desk;
use script::Script;
use std::io;

fn main(rt: HostRuntime) -> io::Result<()> {
    console::serve(&rt, &Script, Desk::program(true))
}
