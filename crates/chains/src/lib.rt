// A write that comes in several frames: what its opening announced, and how much of it is still to come.
#![tactic(auto)]

ghost use Rattle.std.specs.Prelude.{◌≡◌};
ghost use Rattle.chains.specs.Chain.{unchained, announced, next_place, shortened, wrong_bytes, chain_sound};

use roles::Role;

// The file, the place of the first byte, the length that was announced, and how many bytes of it are still to come. A chain is
// open where some are; without one it names no file, and all figures are 0.
#[derive(Clone, Copy)]
pub struct Chain {
    pub file: Role,
    pub place: u32,
    pub len: u32,
    pub left: u32,
}

// The most bytes of one frame.
const MOST_BYTES: usize = 128;

impl Chain {
    // No chain.
    #[tactic(auto, unfolding(crate::specs::Chain::unchained))]
    pub fn none() -> Chain
        ensures { result ≡ unchained }
    {
        Chain {
            file: Role::NoFile,
            place: 0,
            len: 0,
            left: 0,
        }
    }

    // The chain that an opening's data field announces for the file that it names.
    #[tactic(auto, unfolding(crate::specs::Chain::announced))]
    pub fn announced(file: Role, d: &[u8]) -> Chain
        ensures { result ≡ announced file d.now }
    {
        let len = wire::le3_at(d, 4);
        Chain {
            file,
            place: wire::le3_at(d, 1),
            len,
            left: len,
        }
    }

    // Where its next byte goes.
    pub fn next_place(self) -> usize
        ensures { result ≡ next_place self }
    {
        if self.len < self.left {
            return self.place as usize;
        }
        self.place as usize + (self.len - self.left) as usize
    }

    // Whether a frame of n bytes is of another size, or past the announced length.
    #[tactic(auto, unfolding(crate::specs::Chain::wrong_bytes))]
    pub fn is_wrong(self, n: usize) -> bool
        ensures { result ≡ wrong_bytes self n }
    {
        (n == 0) | (MOST_BYTES < n) | ((self.left as usize) < n)
    }

    // What n bytes more leave of it.
    #[tactic(auto, unfolding(crate::specs::Chain::shortened, tables::specs::Choice::pick))]
    pub fn shortened(self, n: usize) -> Chain
        ensures { result ≡ shortened self n }
    {
        if self.left as usize <= n {
            return Chain::none();
        }
        Chain {
            left: self.left - n as u32,
            ..self
        }
    }

    // Whether it keeps the standing rule: without a chain it names no file and every figure is 0, and an open one has a data file
    // and a range inside it.
    #[tactic(auto, unfolding(crate::specs::Chain::chain_sound, tables::specs::Choice::pick))]
    pub fn is_sound(self) -> bool
        ensures { result ≡ chain_sound self }
    {
        let file = self.file;
        if self.left == 0 {
            let named = file.is_file();
            return !named & (self.place == 0) & (self.len == 0);
        }
        let size = file.size();
        let end = self.place as usize + self.len as usize;
        let bytes = file.is_data();
        bytes & (end <= size) & (self.left <= self.len)
    }
}
