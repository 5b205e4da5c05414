// The steps of a round, FIPS 197 sections 5.1 and 5.3. A table is lent to what looks up in it.
ghost use Rattle.std.specs.Prelude.{◌≡◌, ℕ, ◌≤◌};
ghost use Rattle.field.specs.Field.{xtime};
ghost use Rattle.lookup.specs.Tables.{table};
ghost use Rattle.fips197.specs.Steps.{bytewise, shift_rows, columnwise, mixed, mix_columns, inv_shift_rows, unmixed, inv_mix_columns};
ghost use Rattle.aes.specs.Column.{taken, lifted, multiples};

// The function of the table on each byte, with the byte at place i taken from place i times far, modulo 16: SubBytes with
// ShiftRows where far is 5, and InvSubBytes with InvShiftRows where it is 13.
fn substituted(t: &[u8; 256], s: [u8; 16], far: usize) -> [u8; 16]
    requires { far ≤ 13 }
    ensures { (f : ℕ → ℕ) → t.now ≡ table f → result ≡ taken f s far }
{
    std::array::from_fn(|i| lookup::look(t, s[i * far % 16]))
}

// SubBytes, then ShiftRows.
pub fn sub_shift(t: &[u8; 256], s: [u8; 16]) -> [u8; 16]
    ensures { (f : ℕ → ℕ) → t.now ≡ table f → result ≡ shift_rows (bytewise f s) }
{
    substituted(t, s, 5)
}

// InvShiftRows, then InvSubBytes.
pub fn inv_shift_sub(t: &[u8; 256], s: [u8; 16]) -> [u8; 16]
    ensures { (f : ℕ → ℕ) → t.now ≡ table f → result ≡ bytewise f (inv_shift_rows s) }
{
    substituted(t, s, 13)
}

pub fn xtime(a: u8) -> u8
    ensures { result ≡ xtime a }
{
    if a < 128 { a << 1 } else { a << 1 ^ 0x1b }
}

// Each byte gives way to the one below it in its column; the first stands below the last.
fn lifted(s: [u8; 16]) -> [u8; 16]
    ensures { result ≡ lifted s }
{
    std::array::from_fn(|i| s[i / 4 * 4 + (i + 1) % 4])
}

// A function of a byte and the three below it in its column, on each byte of a block.
fn columnwise<F: Fn(u8, u8, u8, u8) -> u8>(f: F, a: [u8; 16]) -> [u8; 16]
    requires { F.IsAlwaysCallable f }
    ensures { (h : ℕ → ℕ → ℕ → ℕ → ℕ) → ((a b c d r : ℕ) → F.post f a b c d r → r ≡ h a b c d) → result ≡ columnwise h a }
{
    let b = lifted(a);
    let c = lifted(b);
    let d = lifted(c);
    std::array::from_fn(|i| f(a[i], b[i], c[i], d[i]))
}

// A byte of MixColumns: 02h a + 03h b is 02h (a + b) + b.
fn mix(a: u8, b: u8, c: u8, d: u8) -> u8
    ensures { result ≡ mixed a b c d }
{
    xtime(a ^ b) ^ b ^ c ^ d
}

pub fn mix_columns(s: [u8; 16]) -> [u8; 16]
    ensures { result ≡ mix_columns s }
{
    columnwise(mix, s)
}

// A byte times x, x^2 and x^3.
fn doubled(a: u8) -> [u8; 3]
    ensures { result ≡ multiples a }
{
    let x = xtime(a);
    let y = xtime(x);
    let z = xtime(y);
    [x, y, z]
}

// A byte of InvMixColumns.
fn unmix(a: u8, b: u8, c: u8, d: u8) -> u8
    ensures { result ≡ unmixed a b c d }
{
    let p = doubled(a);
    let q = doubled(b);
    let u = doubled(c);
    let v = doubled(d);
    (p[0] ^ p[1] ^ p[2]) ^ (b ^ q[0] ^ q[2]) ^ (c ^ u[1] ^ u[2]) ^ (d ^ v[2])
}

pub fn inv_mix_columns(s: [u8; 16]) -> [u8; 16]
    ensures { result ≡ inv_mix_columns s }
{
    columnwise(unmix, s)
}
