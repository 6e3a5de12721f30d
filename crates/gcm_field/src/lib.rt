//! Multiplication in GF(2^128) for GHASH (SP 800-38D, section 6.3). A hash key holds the products of its block with each
//! value of each half byte, so that a multiplication is 32 table look-ups, which are not constant-time. A slow bit-by-bit
//! multiplication is provided for comparison.
#![tactic(auto)]

mod bitwise;
mod hash_key;

pub use bitwise::plain_product;
pub use hash_key::HashKey;
