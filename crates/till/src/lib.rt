// The terminal's side: the frames of an authentication. A plain frame with its MAC put in is of `sealed`.
#![tactic(auto)]

ghost use Rattle.std.specs.Prelude.{◌≡◌, []};
ghost use Rattle.till.specs.Till.{first_frame, second_part, second_frame};

// The first part of an authentication with this key, without PCDcap2.
pub fn first_frame(number: u8) -> [u8; 8]
    ensures { result ≡ first_frame number [] }
{
    [0x90, 0x71, 0x00, 0x00, 2, number, 0, 0x00]
}

// What the second part proves that we know: RndA, and RndB rotated.
pub fn second_part(k: [u8; 16], a: [u8; 16], b: [u8; 16]) -> [u8; 32]
    ensures { result ≡ second_part k a b }
{
    let mut x = [0u8; 32];
    wire::lay(&mut x, 0, &a);
    wire::lay(&mut x, 16, &b[1..16]);
    x[31] = b[0];
    cbc::encrypt(k, x)
}

// The second part's frame.
pub fn second_frame(d: [u8; 32]) -> [u8; 38]
    ensures { result ≡ second_frame d }
{
    let mut x = [0u8; 38];
    wire::lay(&mut x, 0, &[0x90, 0xAF, 0x00, 0x00, 0x20]);
    wire::lay(&mut x, 5, &d);
    x
}
