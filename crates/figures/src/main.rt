// Published figures of the terminal's side: an AuthenticateEV2First with a key of zeros, and a command in MAC mode. Each is
// made from its inputs alone and printed in digits.
#![tactic(auto)]

use std::io;

fn block(digits: &[u8]) -> [u8; 16] {
    let mut b = [0u8; 16];
    text::spell(digits, &mut b);
    b
}

// A line of at most 130 characters.
fn show<R: Print>(rt: &R, bytes: &[u8]) -> io::Result<()> {
    let mut text = [0u8; 130];
    let mut line = [0u8; 131];
    let n = text::put_digits(bytes, &mut text);
    if 130 < n {
        return Ok(());
    }
    let end = lines::put(&text[0..n], 0, &mut line);
    if 131 < end {
        return Ok(());
    }
    rt.write_all(&line[0..end])
}

fn authentication<R: Print>(rt: &R) -> io::Result<()> {
    let k = [0u8; 16];
    let a = block(b"13C5DB8A5930439FC3DEF9A4C675360F");
    let b = block(b"B9E2FC789B64BF237CCCAA20EC7E6E48");
    let first = till::first_frame(0);
    let part = till::second_part(k, a, b);
    let second = till::second_frame(part);
    let key = derivation::mac_key(k, a, b);
    show(rt, &first)?;
    show(rt, &second)?;
    show(rt, &key)
}

fn mac_mode<R: Print>(rt: &R) -> io::Result<()> {
    let key = block(b"8248134A386E86EB7FAF54A52E536CB6");
    let mut out = [0u8; 32];
    let n = sealed::seal_frame(
        key,
        [0x7A, 0x21, 0x08, 0x5E],
        0,
        &[0x90, 0xF5, 0x00, 0x00, 0x01, 0x02, 0x00],
        &mut out,
    );
    if 32 < n {
        return Ok(());
    }
    show(rt, &out[0..n])
}

fn main(rt: HostRuntime) -> io::Result<()> {
    authentication(&rt)?;
    mac_mode(&rt)
}
