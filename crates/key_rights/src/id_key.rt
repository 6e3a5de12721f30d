// A key with its id.
use aes_block::AesKey;
use pme_base::Bytes;

/// A key with its id.
#[derive(Drop)]
pub struct IdKey {
    /// The id: the bytes of UTF-8 text.
    pub id: Bytes,
    pub key: AesKey,
}
