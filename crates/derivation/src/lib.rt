// The session MAC key that both sides of AuthenticateEV2First make of their key and their random numbers.
#![tactic(auto)]

ghost use Rattle.std.specs.Prelude.{◌≡◌, take};
ghost use Rattle.wire.specs.Bytes.{part};
ghost use Rattle.derivation.specs.Derivation.{xored, session_vector, mac_key};

// Bytes 2 to 7 of a and 0 to 5 of b, exclusive or.
fn mixed(a: [u8; 16], b: [u8; 16]) -> [u8; 6]
    ensures { result ≡ xored (part a 2 8) (take 6 b) }
{
    std::array::from_fn(|i| a[i + 2] ^ b[i])
}

fn session_vector(a: [u8; 16], b: [u8; 16]) -> [u8; 32]
    ensures { result ≡ session_vector a b }
{
    let six = mixed(a, b);
    let mut v = [0u8; 32];
    wire::lay(&mut v, 0, &[0x5A, 0xA5, 0x00, 0x01, 0x00, 0x80]);
    wire::lay(&mut v, 6, &a[0..2]);
    wire::lay(&mut v, 8, &six);
    wire::lay(&mut v, 14, &b[6..16]);
    wire::lay(&mut v, 24, &a[8..16]);
    v
}

// The session MAC key of K, RndA and RndB.
pub fn mac_key(k: [u8; 16], a: [u8; 16], b: [u8; 16]) -> [u8; 16]
    ensures { result ≡ mac_key k a b }
{
    let v = session_vector(a, b);
    cmac::tag(k, &v, &k[0..0])
}
