// The MAC of a message under a session.
#![tactic(auto)]

ghost use Rattle.std.specs.Prelude.{◌≡◌};
ghost use Rattle.sealing.specs.Sealing.{seal_of};

// Over INS, or 00h for a reply, the command counter, the transaction identifier and the data.
pub fn seal(key: [u8; 16], first: u8, counter: u16, ti: [u8; 4], x: &[u8]) -> [u8; 8]
    ensures { result ≡ seal_of key first counter ti x.now }
{
    let [low, high] = counter.to_le_bytes();
    let head = [first, low, high, ti[0], ti[1], ti[2], ti[3]];
    cmac::short_tag(key, &head, x)
}
