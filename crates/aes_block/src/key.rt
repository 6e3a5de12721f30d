// AES keys with their key schedules.
ghost use Rattle.std.specs.Prelude.{◌≡◌, ◌↔◌, ◌<◌, ℕ, length, IsOk, IfOk};
ghost use Rattle.aes_block.specs.Aes.{aes, IsKeyLength};
ghost use Rattle.aes_block.specs.FourBlocks.{lane_block};

use crate::expansion::expand;
use crate::lanes::spread;
use crate::rounds::{encrypt, inner_keys};
use std::marker::Model;
use std::simd::prelude::*;
use thiserror::Error;

/// The error for a key whose length is not 16, 24 or 32 bytes.
#[derive(Clone, Copy, Debug, PartialEq, Eq, Drop, Error)]
#[error("BadKeyLength")]
pub struct BadKeyLength;

/// An AES key. Contracts see it as the list of its bytes.
#[derive(Drop)]
pub struct AesKey {
    key_length: usize,
    // The key schedule, whose first bytes are the key itself.
    round_keys: [u8; 240],
    // The round keys over the basis in which all rounds but the last are computed.
    inner_keys: [u8; 240],
}

impl Model for AesKey {
    ghost use Rattle.std.specs.Prelude.{ℕ, List, take};

    ghost Value = { List ℕ };

    ghost use Rattle.aes_block.specs.KeyInside.{IsExpanded};

    ghost view = { λ k. take k.key_length k.round_keys };

    ghost invariant = { IsExpanded };
}

impl AesKey {
    /// Expands a key of 16, 24 or 32 bytes (FIPS 197, section 5). Any other length gives BadKeyLength.
    pub fn new(bytes: &[u8]) -> Result<AesKey, BadKeyLength>
        ensures accepted { IsOk result ↔ IsKeyLength (length bytes.now) }
        ensures key { IfOk result (λ key. key ≡ bytes.now) }
    {
        if !matches!(bytes.len(), 16 | 24 | 32) {
            return Err(BadKeyLength);
        }
        let round_keys = expand(bytes);
        let inner_keys = inner_keys(&round_keys);
        Ok(AesKey {
            key_length: bytes.len(),
            round_keys,
            inner_keys,
        })
    }

    /// The key's bytes.
    pub fn bytes(&self) -> &[u8]
        ensures bytes { result.now ≡ self.now }
        ensures long { IsKeyLength (length self.now) }
    {
        &self.round_keys[..self.key_length]
    }

    /// A copy of the key with its schedule, which is not computed again.
    pub fn copy(&self) -> AesKey
        ensures { result ≡ self.now }
    {
        AesKey {
            key_length: self.key_length,
            round_keys: self.round_keys,
            inner_keys: self.inner_keys,
        }
    }

    /// Encrypts one block (FIPS 197, section 5.1). This takes as long as encrypting four blocks.
    pub fn encrypt_block(&self, block: [u8; 16]) -> [u8; 16]
        ensures { result ≡ aes self.now block }
    {
        let blocks = self.encrypt_four(spread(u8x16::from_array(block)));
        blocks.extract::<0, 16>().to_array()
    }

    /// Encrypts four blocks at once. Lanes 0 to 15 are the first block.
    #[inline(always)]
    pub fn encrypt_four(&self, blocks: u8x64) -> u8x64
        ensures { (b : ℕ) → b < 4 → lane_block result b ≡ aes self.now (lane_block blocks b) }
    {
        encrypt(
            &self.round_keys,
            &self.inner_keys,
            self.key_length / 4 + 5,
            blocks,
        )
    }
}
