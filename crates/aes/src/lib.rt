// AES-128 after FIPS 197, both directions. A block is an array by value, and the round keys are an array of eleven.
#![tactic(auto)]

mod steps;

ghost use Rattle.std.specs.Prelude.{◌≡◌};
ghost use Rattle.lookup.specs.Tables.{table};
ghost use Rattle.fips197.specs.Sbox.{sbox, inv_sbox};
ghost use Rattle.fips197.specs.Cipher.{round, cipher, inv_round, inv_cipher};

fn round(t: &[u8; 256], s: [u8; 16], k: [u8; 16]) -> [u8; 16]
    requires { t.now ≡ table sbox }
    ensures { result ≡ round s k }
{
    field::add_blocks(steps::mix_columns(steps::sub_shift(t, s)), k)
}

pub fn cipher(w: [[u8; 16]; 11], b: [u8; 16]) -> [u8; 16]
    ensures { result ≡ cipher w b }
{
    let t = sbox::forward();
    let mut s = field::add_blocks(b, w[0]);
    for k in &w[1..10] {
        let next = round(&t, s, *k);
        s = next;
    }
    field::add_blocks(steps::sub_shift(&t, s), w[10])
}

// Not one function with `round`: the key is added before the columns are mixed, and figure 12 takes the round keys backwards.
fn inv_round(t: &[u8; 256], s: [u8; 16], k: [u8; 16]) -> [u8; 16]
    requires { t.now ≡ table inv_sbox }
    ensures { result ≡ inv_round s k }
{
    steps::inv_mix_columns(field::add_blocks(steps::inv_shift_sub(t, s), k))
}

pub fn inv_cipher(w: [[u8; 16]; 11], b: [u8; 16]) -> [u8; 16]
    ensures { result ≡ inv_cipher w b }
{
    let t = sbox::backward();
    let mut s = field::add_blocks(b, w[10]);
    for k in w[1..10].iter().rev() {
        let next = inv_round(&t, s, *k);
        s = next;
    }
    field::add_blocks(steps::inv_shift_sub(&t, s), w[0])
}
