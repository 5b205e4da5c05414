// Standard input in blocks.
#![tactic(auto)]

ghost use Rattle.std.specs.Prelude.{◌≡◌, ◌≤◌, length};
ghost use Rattle.input.specs.Block.{end_of};

use std::io::Read;

// The characters at the front of a buffer, by their number: of a block behind which there may be more input, or of the last one.
#[derive(Clone, Copy)]
pub enum Block {
    More(usize),
    Last(usize),
}

impl Block {
    // Reads a block behind the held characters; a read that fails ends the input. The last line may lack its LF, which it gets here.
    pub fn read<R: Read>(input: &mut R, held: usize, buf: &mut [u8]) -> Block
        ensures { end_of result ≤ length buf.old }
    {
        if buf.len() <= held {
            return Block::Last(buf.len());
        }
        match input.read(&mut buf[held..]).unwrap_or(0) {
            0 if held == 0 => Block::Last(0),
            0 => {
                buf[held] = b'\n';
                Block::Last(held + 1)
            }
            n => Block::More(held + n),
        }
    }

    // How many characters it has.
    pub fn end(self) -> usize
        ensures { result ≡ end_of self }
    {
        match self {
            Block::More(end) => end,
            Block::Last(end) => end,
        }
    }
}
