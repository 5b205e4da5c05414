// The key schedule of AES-128, FIPS 197 section 5.2: eleven round keys, a block each.
#![tactic(auto)]

ghost use Rattle.std.specs.Prelude.{◌≡◌};
ghost use Rattle.lookup.specs.Tables.{table};
ghost use Rattle.fips197.specs.Sbox.{sbox};
ghost use Rattle.fips197.specs.Keys.{key_expansion};
ghost use Rattle.fips197.specs.Schedule.{next_key};

// The round key after k, where p is the first byte of Rcon.
fn next_key(t: &[u8; 256], k: [u8; 16], p: u8) -> [u8; 16]
    requires { t.now ≡ table sbox }
    ensures { result ≡ next_key p k }
{
    let first = [
        lookup::look(t, k[13]) ^ p,
        lookup::look(t, k[14]),
        lookup::look(t, k[15]),
        lookup::look(t, k[12]),
    ];
    let mut w = k;
    for i in 0..4 {
        w[i] ^= first[i];
    }
    for i in 0..12 {
        w[i + 4] ^= w[i];
    }
    w
}

pub fn key_expansion(k: [u8; 16]) -> [[u8; 16]; 11]
    ensures { result ≡ key_expansion k }
{
    let t = sbox::forward();
    let rcon = [0x01, 0x02, 0x04, 0x08, 0x10, 0x20, 0x40, 0x80, 0x1b, 0x36];
    let mut w = [k; 11];
    for i in 0..10 {
        let next = next_key(&t, w[i], rcon[i]);
        w[i + 1] = next;
    }
    w
}
