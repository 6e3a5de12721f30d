// Keys with the part of a file that they may decrypt, as types.
ghost use Rattle.std.specs.Prelude.{◌≡◌};

use aes_block::AesKey;
use std::marker::Model;

/// A key that decrypts or signs the footer of a file. Contracts see it as the list of its bytes.
#[derive(Drop)]
pub struct FooterKey {
    key: AesKey,
}

impl Model for FooterKey {
    ghost use Rattle.std.specs.Prelude.{ℕ, List};

    ghost Value = { List ℕ };

    ghost view = { λ k. k.key };
}

impl FooterKey {
    /// Marks a key as one for footers.
    pub fn new(key: AesKey) -> FooterKey
        ensures { result ≡ key }
    {
        FooterKey { key }
    }

    /// The key itself.
    pub fn key(&self) -> &AesKey
        ensures { result.now ≡ self.now }
    {
        &self.key
    }
}

/// A key that decrypts the metadata and pages of a column. Contracts see it as the list of its bytes.
#[derive(Drop)]
pub struct ColumnKey {
    key: AesKey,
}

impl Model for ColumnKey {
    ghost use Rattle.std.specs.Prelude.{ℕ, List};

    ghost Value = { List ℕ };

    ghost view = { λ k. k.key };
}

impl ColumnKey {
    /// Marks a key as one for a column.
    pub fn new(key: AesKey) -> ColumnKey
        ensures { result ≡ key }
    {
        ColumnKey { key }
    }

    /// The key itself.
    pub fn key(&self) -> &AesKey
        ensures { result.now ≡ self.now }
    {
        &self.key
    }
}
