// The S-box and its inverse, as tables.
#![tactic(auto)]

mod figure14;
mod figure7;

ghost use Rattle.std.specs.Prelude.{◌≡◌};
ghost use Rattle.lookup.specs.Tables.{table};
ghost use Rattle.fips197.specs.Sbox.{sbox, inv_sbox};

pub fn forward() -> [u8; 256]
    ensures { result ≡ table sbox }
{
    figure7::SBOX
}

pub fn backward() -> [u8; 256]
    ensures { result ≡ table inv_sbox }
{
    figure14::INV_SBOX
}
