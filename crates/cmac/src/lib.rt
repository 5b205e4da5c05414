// CMAC of NIST SP 800-38B with AES-128, and its truncation. A message is taken byte by byte, so that it may come in pieces.
#![tactic(auto)]

ghost use Rattle.std.specs.Prelude.{◌≡◌, ◌++◌, ◌/◌};
ghost use Rattle.field.specs.Field.{only_if};
ghost use Rattle.cmac.specs.Cmac.{doubled, first_subkey, second_subkey, subkey1, subkey2, cmac, truncated};
ghost use Rattle.cmac.specs.Fed.{fed, closed};

// The chain's block with the bytes of the present part added to it, and the number of these. All sixteen bytes are the chain's,
// so no shorter slice holds both.
#[derive(Clone, Copy)]
struct Held {
    block: [u8; 16],
    held: usize,
}

// What is added to the last byte of a block that is doubled, where its first byte is a.
fn carry(a: u8) -> u8
    ensures { result ≡ only_if (a / 128) 0x87 }
{
    if a < 128 { 0 } else { 0x87 }
}

fn double(l: [u8; 16]) -> [u8; 16]
    ensures { result ≡ doubled l }
{
    std::array::from_fn(|i| l[i] << 1 ^ if i < 15 { l[i + 1] >> 7 } else { carry(l[0]) })
}

// The two subkeys, for whoever compares them with published figures.
#[derive(Clone, Copy)]
pub struct Subkeys {
    pub first: [u8; 16],
    pub second: [u8; 16],
}

impl Subkeys {
    pub fn of_key(key: [u8; 16]) -> Subkeys
        ensures { (result.first ≡ subkey1 key) × (result.second ≡ subkey2 key) }
    {
        Subkeys::of_round_keys(schedule::key_expansion(key))
    }

    fn of_round_keys(w: [[u8; 16]; 11]) -> Subkeys
        ensures { (result.first ≡ first_subkey w) × (result.second ≡ second_subkey w) }
    {
        let first = double(aes::cipher(w, [0; 16]));
        let second = double(first);
        Subkeys { first, second }
    }
}

// Takes a piece of a message. A block that is full is encrypted when the next byte comes.
fn feed(w: [[u8; 16]; 11], s: Held, m: &[u8]) -> Held
    ensures { result ≡ fed w s m.now }
{
    let mut block = s.block;
    let mut held = s.held;
    for a in m {
        if held < 16 {
            block[held] ^= *a;
            held += 1;
        } else {
            let mut next = aes::cipher(w, block);
            next[0] ^= *a;
            block = next;
            held = 1;
        }
    }
    Held { block, held }
}

// Ends a message: its last part is complete, or padded.
fn close(w: [[u8; 16]; 11], s: Held) -> [u8; 16]
    ensures { result ≡ closed w s }
{
    let subkeys = Subkeys::of_round_keys(w);
    let mut block = s.block;
    let held = s.held;
    if held < 16 {
        block[held] ^= 0x80;
        return aes::cipher(w, field::add_blocks(block, subkeys.second));
    }
    aes::cipher(w, field::add_blocks(block, subkeys.first))
}

// The MAC of a message in two pieces.
pub fn tag(key: [u8; 16], head: &[u8], rest: &[u8]) -> [u8; 16]
    ensures { result ≡ cmac key (head.now ++ rest.now) }
{
    let w = schedule::key_expansion(key);
    let begun = Held {
        block: [0; 16],
        held: 0,
    };
    close(w, feed(w, feed(w, begun, head), rest))
}

// The MAC that travels: the eight bytes at the odd places.
pub fn short_tag(key: [u8; 16], head: &[u8], rest: &[u8]) -> [u8; 8]
    ensures { result ≡ truncated (cmac key (head.now ++ rest.now)) }
{
    let t = tag(key, head, rest);
    std::array::from_fn(|i| t[2 * i + 1])
}
