// CBC with AES-128 from a block of zeros, without padding, over whole blocks: what is behind the last stays as it is.
#![tactic(auto)]

ghost use Rattle.std.specs.Prelude.{◌≡◌, ◌+◌, ◌*◌, ◌/◌, ◌%◌, ◌≤◌, ◌++◌, length, take, drop};
ghost use Rattle.cbc.specs.Cbc.{encrypted, decrypted};

// The block from a place on.
fn block_at(x: &[u8], at: usize) -> [u8; 16]
    requires { at + 16 ≤ length x.now }
    ensures { result ≡ take 16 (drop at x.now) }
{
    std::array::from_fn(|i| x[at + i])
}

pub fn encrypt<const N: usize>(key: [u8; 16], x: [u8; N]) -> [u8; N]
    ensures all { result ≡ encrypted key x.entry ++ drop (16 * (N / 16)) x.entry }
    ensures whole { N % 16 ≡ 0 → result ≡ encrypted key x.entry }
{
    let w = schedule::key_expansion(key);
    let mut r = x;
    let mut last = [0; 16];
    for i in 0..N / 16 {
        let at = 16 * i;
        let block = block_at(&x, at);
        let sealed = aes::cipher(w, field::add_blocks(block, last));
        wire::lay(&mut r, at, &sealed);
        last = sealed;
    }
    r
}

pub fn decrypt<const N: usize>(key: [u8; 16], x: [u8; N]) -> [u8; N]
    ensures all { result ≡ decrypted key x.entry ++ drop (16 * (N / 16)) x.entry }
    ensures whole { N % 16 ≡ 0 → result ≡ decrypted key x.entry }
{
    let w = schedule::key_expansion(key);
    let mut r = x;
    let mut before = [0; 16];
    for i in 0..N / 16 {
        let at = 16 * i;
        let sealed = block_at(&x, at);
        let plain = field::add_blocks(aes::inv_cipher(w, sealed), before);
        wire::lay(&mut r, at, &plain);
        before = sealed;
    }
    r
}
