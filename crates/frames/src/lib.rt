// The frame: where its parts lie, and places 1 to 4 of the order of checks.
#![tactic(auto)]

ghost use Rattle.std.specs.Prelude.{◌≡◌};
ghost use Rattle.frames.specs.Frame.{le_of, data_of, bytes_in};
ghost use Rattle.frames.specs.Faults.{faults_of};

// The data field of a frame: from byte 5 up to Le. One part between computed ends: two returns of a part cost a command a tenth of its time.
pub fn data(frame: &[u8]) -> &[u8]
    ensures { result.now ≡ data_of frame.now }
{
    let n = frame.len();
    let start = n.min(5);
    let end = start.max(n.saturating_sub(1));
    &frame[start..end]
}

// A write's bytes in a data field: behind file, offset and length.
pub fn bytes_in(d: &[u8]) -> &[u8]
    ensures { result.now ≡ bytes_in d.now }
{
    d.get(7..).unwrap_or(&[])
}

// The last byte, or 0 where there is none.
fn last(frame: &[u8]) -> u8
    ensures { result ≡ le_of frame.now }
{
    frame.last().copied().unwrap_or(0)
}

// Which of places 1 to 4 apply, in their order.
#[derive(Clone, Copy)]
pub struct Faults {
    pub size: bool,
    pub class: bool,
    pub parameters: bool,
    pub frame: bool,
}

impl Faults {
    // Asks each of a frame.
    pub fn asked(frame: &[u8]) -> Faults
        ensures { result ≡ faults_of frame.now }
    {
        let n = frame.len();
        let cla = wire::byte_at(frame, 0);
        let p1 = wire::byte_at(frame, 2);
        let p2 = wire::byte_at(frame, 3);
        let lc = wire::byte_at(frame, 4);
        let le = last(frame);
        Faults {
            size: (n < 5) | (261 < n),
            class: cla != 0x90,
            parameters: (p1 != 0) | (p2 != 0),
            frame: ((6 <= n) & ((lc == 0) | (lc as usize + 6 != n))) | (le != 0),
        }
    }
}
