// Published figures: FIPS 197, appendices A.1, B and C.1; RFC 4493, section 4; an AuthenticateEV2First and a command in MAC
// mode. Each is made from its inputs alone and printed in digits.
#![tactic(auto)]

ghost use Rattle.std.specs.Prelude.{◌≤◌, length};

use std::io;

// N bytes of their digits.
fn bytes<const N: usize>(digits: &[u8]) -> [u8; N] {
    let mut b = [0; N];
    text::spell(digits, &mut b);
    b
}

// A line of at most 64 digits.
fn show<R: Print>(rt: &R, bytes: &[u8]) -> io::Result<()> {
    let mut line = [b'\n'; 65];
    let n = text::put_digits(bytes, &mut line);
    if 64 < n {
        return Ok(());
    }
    rt.write_all(&line[0..n + 1])
}

fn key_expansion<R: Print>(rt: &R) -> io::Result<()> {
    rt.write_all(b"FIPS 197 A.1, the round keys\n")?;
    let w = schedule::key_expansion(bytes(b"2B7E151628AED2A6ABF7158809CF4F3C"));
    for k in &w {
        show(rt, k)?;
    }
    Ok(())
}

fn there_and_back<R: Print>(rt: &R, key: [u8; 16], plain: [u8; 16]) -> io::Result<()> {
    let w = schedule::key_expansion(key);
    let c = aes::cipher(w, plain);
    show(rt, &c)?;
    show(rt, &aes::inv_cipher(w, c))
}

fn ciphers<R: Print>(rt: &R) -> io::Result<()> {
    rt.write_all(b"FIPS 197 B, encrypted and decrypted\n")?;
    there_and_back(
        rt,
        bytes(b"2B7E151628AED2A6ABF7158809CF4F3C"),
        bytes(b"3243F6A8885A308D313198A2E0370734"),
    )?;
    rt.write_all(b"FIPS 197 C.1, encrypted and decrypted\n")?;
    there_and_back(
        rt,
        bytes(b"000102030405060708090A0B0C0D0E0F"),
        bytes(b"00112233445566778899AABBCCDDEEFF"),
    )
}

// The MAC of the first bytes of m, in two pieces.
fn show_mac<R: Print>(rt: &R, key: [u8; 16], m: &[u8], part: usize, end: usize) -> io::Result<()>
    requires { (part ≤ end) × (end ≤ length m.now) }
{
    show(rt, &cmac::tag(key, &m[0..part], &m[part..end]))
}

// The messages are the same bytes, 0, 16, 40 and 64 of them, parted in other places.
fn macs<R: Print>(rt: &R) -> io::Result<()> {
    let key = bytes(b"2B7E151628AED2A6ABF7158809CF4F3C");
    let mut m = [0; 64];
    text::spell(
        b"6BC1BEE22E409F96E93D7E117393172AAE2D8A571E03AC9C9EB76FAC45AF8E5130C81C46A35CE411E5FBC1191A0A52EFF69F2445DF4F9B17AD2B417BE66C3710",
        &mut m,
    );
    rt.write_all(b"RFC 4493, K1 and K2\n")?;
    let s = cmac::Subkeys::of_key(key);
    show(rt, &s.first)?;
    show(rt, &s.second)?;
    rt.write_all(b"RFC 4493, examples 1 to 4\n")?;
    show_mac(rt, key, &m, 0, 0)?;
    show_mac(rt, key, &m, 16, 16)?;
    show_mac(rt, key, &m, 7, 40)?;
    show_mac(rt, key, &m, 48, 64)
}

fn authentication<R: Print>(rt: &R) -> io::Result<()> {
    let key = [0; 16];
    rt.write_all(b"AuthenticateEV2First, RndB, the second part, the reply\n")?;
    show(
        rt,
        &cbc::encrypt(key, bytes::<16>(b"B9E2FC789B64BF237CCCAA20EC7E6E48")),
    )?;
    show(
        rt,
        &cbc::encrypt(
            key,
            bytes::<32>(b"13C5DB8A5930439FC3DEF9A4C675360FE2FC789B64BF237CCCAA20EC7E6E48B9"),
        ),
    )?;
    show(
        rt,
        &cbc::encrypt(
            key,
            bytes::<32>(b"9D00C4DFC5DB8A5930439FC3DEF9A4C675360F13000000000000000000000000"),
        ),
    )?;
    rt.write_all(b"the same, decrypted\n")?;
    show(
        rt,
        &cbc::decrypt(key, bytes::<16>(b"A04C124213C186F22399D33AC2A30215")),
    )?;
    show(
        rt,
        &cbc::decrypt(
            key,
            bytes::<32>(b"35C3E05A752E0144BAC0DE51C1F22C56B34408A23D8AEA266CAB947EA8E0118D"),
        ),
    )?;
    show(
        rt,
        &cbc::decrypt(
            key,
            bytes::<32>(b"3FA64DB5446D1F34CD6EA311167F5E4985B89690C04A05F17FA7AB2F08120663"),
        ),
    )?;
    rt.write_all(b"SesAuthMACKey\n")?;
    let vector = bytes::<32>(b"5AA50001008013C56268A548D8FBBF237CCCAA20EC7E6E48C3DEF9A4C675360F");
    show_mac(rt, key, &vector, 32, 32)
}

fn mac_mode<R: Print>(rt: &R) -> io::Result<()> {
    let key = bytes(b"8248134A386E86EB7FAF54A52E536CB6");
    let mut head = [0; 7];
    let mut rest = [0; 25];
    rt.write_all(b"MAC mode, GetFileSettings and its reply\n")?;
    text::spell(b"F500007A21085E", &mut head);
    text::spell(b"02", &mut rest);
    show(rt, &cmac::short_tag(key, &head, &rest[0..1]))?;
    text::spell(b"0001007A21085E", &mut head);
    text::spell(
        b"0040EEEE000100D1FE001F00004400004400002000006A0000",
        &mut rest,
    );
    show(rt, &cmac::short_tag(key, &head, &rest))
}

fn main(rt: HostRuntime) -> io::Result<()> {
    key_expansion(&rt)?;
    ciphers(&rt)?;
    macs(&rt)?;
    authentication(&rt)?;
    mac_mode(&rt)
}
