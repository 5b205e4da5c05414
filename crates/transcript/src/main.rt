// The transcript program: one frame a line in hexadecimal digits, an empty line a power-up.
#![tactic(auto)]

use desk::Desk;
use script::Script;
use std::io;

fn main(rt: HostRuntime) -> io::Result<()> {
    console::serve(&rt, &Script, Desk::program(false))
}
