//! The AES block cipher (FIPS 197) with keys of 16, 24 and 32 bytes.
//!
//! Four blocks are encrypted together in a vector of 64 bytes. No memory address depends on the key or on a block: the
//! S-box is computed by look-ups of half bytes within vectors (Hamburg, "Accelerating AES with vector permute
//! instructions", 2009).
#![tactic(auto)]

ghost use Rattle.std.specs.Prelude.{◌≡◌};
ghost use Rattle.aes_block.specs.Aes.{aes};
ghost use Rattle.aes_block.specs.Vectors.{example_block, example_key, example_128, example_192, example_256};

mod expansion;
mod key;
mod lanes;
mod rounds;
mod substitution;

pub use key::{AesKey, BadKeyLength};

/// The definition `aes` gives the example vectors of FIPS 197, appendix C.
pub fn standard_vectors()
    ensures aes_128 { aes (example_key 16) example_block ≡ example_128 }
    ensures aes_192 { aes (example_key 24) example_block ≡ example_192 }
    ensures aes_256 { aes (example_key 32) example_block ≡ example_256 }
{}
