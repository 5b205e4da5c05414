// Definitions and laws alone, in specs/: AES-128 as FIPS 197 has it, and that decryption undoes encryption.
#![tactic(auto)]
