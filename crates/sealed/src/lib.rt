// The terminal's side of MAC mode: a plain frame with its MAC put in.
#![tactic(auto)]

ghost use Rattle.std.specs.Prelude.{[], ◌∷◌, ◌++◌, ◌+◌, ◌≤◌, length, take};
ghost use Rattle.wire.specs.Bytes.{Shows};
ghost use Rattle.till.specs.Till.{sealed_in};

// Header, Lc, data, MAC and Le, one behind the other over the front of out.
fn put_parts(frame: &[u8], d: &[u8], mac: [u8; 8], out: &mut [u8]) -> usize
    requires { (5 ≤ length frame.now) × (length d.now ≤ 247) × (length d.now + 14 ≤ length out.old) }
    ensures { Shows (take 4 frame.now ++ (length d.now + 8) ∷ d.now ++ mac ++ 0x00 ∷ []) out.old out.new result }
{
    let n = d.len();
    let lc = [n as u8 + 8];
    let le = [0x00];
    wire::lay(out, 0, &frame[0..4]);
    wire::lay(out, 4, &lc);
    wire::lay(out, 5, d);
    wire::lay(out, n + 5, &mac);
    wire::lay(out, n + 13, &le);
    n + 14
}

// Lays a plain frame with its MAC over the front of out and answers the number of bytes; nothing and 0 where it takes no MAC or there is no room.
pub fn seal_frame(key: [u8; 16], ti: [u8; 4], counter: u16, frame: &[u8], out: &mut [u8]) -> usize
    ensures { Shows (sealed_in (length out.old) key ti counter frame.now) out.old out.new result }
{
    if frame.len() < 5 {
        return 0;
    }
    if 253 < frame.len() {
        return 0;
    }
    let d = frames::data(frame);
    if out.len() < d.len() + 14 {
        return 0;
    }
    let mac = sealing::seal(key, wire::byte_at(frame, 1), counter, ti, d);
    put_parts(frame, d, mac, out)
}
