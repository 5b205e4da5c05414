// AuthenticateEV2First: what the card computes of its key, RndA, RndB, TI and PCDcap2.
#![tactic(auto)]

ghost use Rattle.std.specs.Prelude.{◌≡◌, ◌&&◌, eqb, length};
ghost use Rattle.handshake.specs.Handshake.{rotated, caps_of, first_reply, fails};
ghost use Rattle.handshake.specs.Guarded.{pair_of, brought_in, key_in, reply_in};

// The two blocks of a second part d. A longer d leaves them zeros, where copy_from_slice would ask for its length.
fn pair(d: &[u8]) -> [u8; 32]
    ensures { result ≡ pair_of d.now }
{
    let mut r = [0u8; 32];
    wire::lay(&mut r, 0, d);
    r
}

// RndA as the second part brings it.
fn brought_a(k: [u8; 16], d: &[u8]) -> [u8; 16]
    ensures { result ≡ brought_in k d.now }
{
    let x = cbc::decrypt(k, pair(d));
    std::array::from_fn(|i| x[i])
}

fn rotate(x: [u8; 16]) -> [u8; 16]
    ensures { result ≡ rotated x }
{
    let mut r = x;
    r.rotate_left(1);
    r
}

// PCDcap2 of a first part, cut or filled to six bytes.
pub fn caps(d: &[u8]) -> [u8; 6]
    ensures { result ≡ caps_of d.now }
{
    std::array::from_fn(|i| wire::byte_at(d, 2 + i))
}

// The reply to the first part.
pub fn first_reply(k: [u8; 16], b: [u8; 16]) -> [u8; 16]
    ensures { result ≡ first_reply k b }
{
    cbc::encrypt(k, b)
}

// Whether d has the length of a second part and does not bring RndB rotated.
pub fn is_failed(k: [u8; 16], b: [u8; 16], d: &[u8]) -> bool
    ensures { result ≡ (eqb (length d.now) 32 && fails k b d.now) }
{
    if d.len() != 32 {
        return false;
    }
    let x = cbc::decrypt(k, pair(d));
    let turned = rotate(b);
    !wire::is_same(&x[16..32], &turned)
}

// The session MAC key behind a second part d.
pub fn session_key(k: [u8; 16], b: [u8; 16], d: &[u8]) -> [u8; 16]
    ensures { result ≡ key_in k b d.now }
{
    derivation::mac_key(k, brought_a(k, d), b)
}

// The reply to a second part d.
pub fn second_reply(k: [u8; 16], ti: [u8; 4], caps: [u8; 6], d: &[u8]) -> [u8; 32]
    ensures { result ≡ reply_in k ti caps d.now }
{
    let turned = rotate(brought_a(k, d));
    let mut x = [0u8; 32];
    wire::lay(&mut x, 0, &ti);
    wire::lay(&mut x, 4, &turned);
    wire::lay(&mut x, 26, &caps);
    cbc::encrypt(k, x)
}
