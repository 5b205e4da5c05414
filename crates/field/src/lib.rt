// The field of 256 elements and lists of its elements, which are bytes: definitions and laws in specs/, and the sum of two blocks.
#![tactic(auto)]

ghost use Rattle.std.specs.Prelude.{◌≡◌};
ghost use Rattle.field.specs.Bytes.{◌⊞◌};

// The sum of two blocks, which is AddRoundKey.
pub fn add_blocks(a: [u8; 16], b: [u8; 16]) -> [u8; 16]
    ensures { result ≡ a ⊞ b }
{
    std::array::from_fn(|i| a[i] ^ b[i])
}
