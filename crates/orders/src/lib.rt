// A personalisation order in bytes. The files come in the order of Role: their rights, then lower limit, upper limit, starting
// value, switches, keys 0 to 4, modes, and the files' numbers. Bytes past the end count as 0: an order that ends behind the
// switches has zero keys and plain modes. One that ends before the numbers has the default ones.
#![tactic(auto)]

ghost use Rattle.std.specs.Prelude.{◌≡◌, ◌*◌};
ghost use Rattle.orders.specs.Order.{le2, signed, limits_in, sixteen, keys_in, number_in, file_in, settings_in, order_in};

use keys::Keys;
use limits::Limits;
use roles::Role;
use settings::{FileSettings, Settings};

// The settings, the starting value and the keys that an order names.
#[derive(Clone, Copy)]
pub struct Order {
    pub settings: Settings,
    pub value: i32,
    pub keys: Keys,
}

// The place of the numbers; an order of at most so many bytes has none.
const NUMBERS: usize = 104;

// Four bytes from at on, least significant first, as a signed number.
fn signed_at(b: &[u8], at: u8) -> i32
    ensures { result ≡ signed b.now at }
{
    whole::number(wire::le4_at(b, at))
}

fn limits_in(b: &[u8]) -> Limits
    ensures { result ≡ limits_in b.now }
{
    let lower = signed_at(b, 10);
    let upper = signed_at(b, 14);
    Limits { lower, upper }
}

// Sixteen bytes from at on; what lies past the end counts as 0.
fn sixteen_at(b: &[u8], at: u8) -> [u8; 16]
    ensures { result ≡ sixteen b.now at }
{
    let from = at as usize;
    let mut key = [0u8; 16];
    for i in 0..16 {
        key[i] = wire::byte_at(b, from + i);
    }
    key
}

fn keys_in(b: &[u8]) -> Keys
    ensures { result ≡ keys_in b.now }
{
    Keys {
        all: [
            sixteen_at(b, 23),
            sixteen_at(b, 39),
            sixteen_at(b, 55),
            sixteen_at(b, 71),
            sixteen_at(b, 87),
        ],
    }
}

// The rights of file i: two bytes, least significant first.
fn rights_in(b: &[u8], i: u8) -> u16
    ensures { result ≡ le2 b.now (2 * i) }
{
    let at = 2 * (i as usize);
    u16::from_le_bytes([wire::byte_at(b, at), wire::byte_at(b, at + 1)])
}

// The number of file i.
fn number_in(b: &[u8], i: u8, role: Role) -> u8
    ensures { result ≡ number_in b.now i role }
{
    if b.len() <= NUMBERS {
        return role.default_number();
    }
    wire::byte_at(b, NUMBERS + i as usize)
}

// File i, which has this role, and whose mode is bit 0 of modes.
fn file_in(b: &[u8], i: u8, role: Role, modes: u8) -> FileSettings
    ensures { result ≡ file_in b.now i role modes }
{
    let number = number_in(b, i, role);
    let rights = rights_in(b, i);
    FileSettings {
        number,
        rights,
        maced: modes % 2 == 1,
    }
}

fn settings_in(b: &[u8]) -> Settings
    ensures { result ≡ settings_in b.now }
{
    let switches = wire::byte_at(b, 22);
    let modes = wire::byte_at(b, 103);
    Settings {
        first: file_in(b, 0, Role::FirstLong, modes),
        second: file_in(b, 1, Role::SecondLong, modes / 2),
        short: file_in(b, 2, Role::ShortData, modes / 4),
        value: file_in(b, 3, Role::ValueFile, modes / 8),
        log: file_in(b, 4, Role::LogFile, modes / 16),
        limits: limits_in(b),
        limited: switches % 2 == 1,
        free: switches / 2 % 2 == 1,
    }
}

impl Order {
    pub fn read(b: &[u8]) -> Order
        ensures { result ≡ order_in b.now }
    {
        let settings = settings_in(b);
        let value = signed_at(b, 18);
        let keys = keys_in(b);
        Order {
            settings,
            value,
            keys,
        }
    }
}
