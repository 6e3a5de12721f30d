//! Tests of aes_block, gcm_field, gcm_seal, crypto_module, module_aad and key_rights. They are in a crate of their own so
//! that none of those crates is proved a second time with its tests.
#![tactic(auto)]

#[cfg(test)]
mod associated_data;
#[cfg(test)]
mod block_cipher;
mod drawing_maker;
#[cfg(test)]
mod keys;
#[cfg(test)]
mod modules;
#[cfg(test)]
mod pieces;
#[cfg(test)]
mod products;
#[cfg(test)]
mod sealing;

pub use drawing_maker::DrawingMaker;
