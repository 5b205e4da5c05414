// Signed numbers of 32 bits and their bits, which are the number modulo 2^32.
#![tactic(auto)]

ghost use Rattle.std.specs.Prelude.{◌≡◌};
ghost use Rattle.std.specs.Int.{w32};
ghost use Rattle.std.proofs.Common.{of_z, to_z};

// The bits of x.
pub fn bits(x: i32) -> u32
    ensures { result ≡ of_z w32 x }
{
    x.cast_unsigned()
}

// The number whose bits are u.
pub fn number(u: u32) -> i32
    ensures { result ≡ to_z w32 u }
{
    u.cast_signed()
}
