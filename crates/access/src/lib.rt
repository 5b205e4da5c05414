// Access rights, and the access decision under a session: none, or the number of its key.
#![tactic(auto)]

ghost use Rattle.std.specs.Prelude.{◌≡◌};
ghost use Rattle.access.specs.Rights.{read_of, write_of, read_write_of, change_of, nibble_sound, rights_sound, key_of, session_sound, sealed, granting, access_of};

// The access decision's answers; a free condition and the session's key both granting counts as the key.
#[derive(Clone, Copy, PartialEq, Eq)]
pub enum Access {
    Never,
    NotGranted,
    FreeOnly,
    ByKey,
}

// The last key's number, and the nibble that is free.
pub const LAST_KEY: u8 = 4;

const FREE: u8 = 0xE;

fn read_of(x: u16) -> u8
    ensures { result ≡ read_of x }
{
    (x / 4096 % 16) as u8
}

fn write_of(x: u16) -> u8
    ensures { result ≡ write_of x }
{
    (x / 256 % 16) as u8
}

fn read_write_of(x: u16) -> u8
    ensures { result ≡ read_write_of x }
{
    (x / 16 % 16) as u8
}

fn change_of(x: u16) -> u8
    ensures { result ≡ change_of x }
{
    (x % 16) as u8
}

fn nibble_is_sound(n: u8) -> bool
    ensures { result ≡ nibble_sound n }
{
    (n <= LAST_KEY) | (FREE <= n)
}

// Whether no nibble of a file's rights is 5 to Dh.
#[tactic(auto, unfolding(crate::specs::Rights::rights_sound))]
pub fn rights_are_sound(x: u16) -> bool
    ensures { result ≡ rights_sound x }
{
    let r = nibble_is_sound(read_of(x));
    let w = nibble_is_sound(write_of(x));
    let rw = nibble_is_sound(read_write_of(x));
    let ch = nibble_is_sound(change_of(x));
    r & w & rw & ch
}

#[tactic(auto, unfolding(crate::specs::Rights::sealed))]
fn is_sealed(x: u16, by_read: bool, by_write: bool) -> bool
    ensures { result ≡ sealed x by_read by_write }
{
    let r = read_of(x);
    let w = write_of(x);
    let rw = read_write_of(x);
    (!by_read | (r == 0xF)) & (!by_write | (w == 0xF)) & (rw == 0xF)
}

// Whether a condition that could grant the command is k.
#[tactic(auto, unfolding(crate::specs::Rights::granting))]
fn is_granting(k: u8, x: u16, by_read: bool, by_write: bool) -> bool
    ensures { result ≡ granting k x by_read by_write }
{
    let r = read_of(x);
    let w = write_of(x);
    let rw = read_write_of(x);
    (by_read & (r == k)) | (by_write & (w == k)) | (rw == k)
}

// The key that a session names, or 16, which is no nibble.
fn key_of(session: Option<u8>) -> u8
    ensures { result ≡ key_of session }
{
    session.unwrap_or(16)
}

// Whether there is no session, or one with a key 0 to 4.
pub fn is_session_sound(session: Option<u8>) -> bool
    ensures { result ≡ session_sound session }
{
    match session {
        None => true,
        Some(key) => key <= LAST_KEY,
    }
}

// Whether a command is granted on a file, and through which door: by Read if by_read, by Write if by_write, by ReadWrite, or freely.
#[tactic(auto, unfolding(crate::specs::Rights::access_of, tables::specs::Choice::pick))]
pub fn decide(x: u16, session: Option<u8>, by_read: bool, by_write: bool, freely: bool) -> Access
    ensures { result ≡ access_of x session by_read by_write freely }
{
    let sealed = is_sealed(x, by_read, by_write);
    if sealed {
        return Access::Never;
    }
    let key = is_granting(key_of(session), x, by_read, by_write);
    if key {
        return Access::ByKey;
    }
    let free = is_granting(0xE, x, by_read, by_write);
    if freely | free {
        return Access::FreeOnly;
    }
    Access::NotGranted
}
