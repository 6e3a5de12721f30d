// Authenticated encryption and decryption (SP 800-38D, sections 7.1 and 7.2).
ghost use Rattle.std.specs.Prelude.{◌≡◌, ◌↔◌, ◌≤◌, length, IsOk, OnOk, OnErr, IfErr};
ghost use Rattle.gcm_seal.specs.Gcm.{gctr, tag_of, seal};

use crate::counter_mode::{encrypt_short, gctr_in_place};
use crate::hasher::Hasher;
use aes_block::AesKey;

// The first counter of a text. Counter 1 is used for the tag.
const FIRST_COUNTER: u32 = 2;

/// Longest text that one call takes, in bytes.
pub const TEXT_LIMIT: usize = 268_435_456;

/// The stored tag is not the tag of the ciphertext.
#[derive(Clone, Copy, Debug, PartialEq, Eq, Drop)]
pub struct BadTag {
    /// The tag that was computed from the ciphertext.
    pub expected: [u8; 16],
    /// The stored tag.
    pub stored: [u8; 16],
}

/// The tag of a ciphertext of at most 268,435,456 bytes and associated data of at most 4,096 bytes.
pub fn tag(key: &AesKey, nonce: &[u8; 12], aad: &[u8], ciphertext: &[u8]) -> [u8; 16]
    requires short_aad { length aad.now ≤ 4096 }
    requires short_text { length ciphertext.now ≤ TEXT_LIMIT }
    ensures { result ≡ tag_of key.now nonce.now aad.now ciphertext.now }
{
    let mut hasher = Hasher::new(key, nonce, aad);
    hasher.update(ciphertext);
    hasher.finish()
}

/// Decrypts the ciphertext in the buffer in place if `stored` is its tag. Otherwise the buffer is unchanged, and the error
/// holds both tags. The buffer has at most 268,435,456 bytes, the associated data at most 4,096 bytes.
pub fn open_in_place(
    key: &AesKey,
    nonce: &[u8; 12],
    aad: &[u8],
    buffer: &mut [u8],
    stored: &[u8; 16],
) -> Result<(), BadTag>
    requires short_aad { length aad.now ≤ 4096 }
    requires short_text { length buffer.old ≤ TEXT_LIMIT }
    ensures accepted { IsOk result ↔ (tag_of key.now nonce.now aad.now buffer.old ≡ stored.now) }
    ensures opened { OnOk result (buffer.new ≡ gctr key.now nonce.now 2 buffer.old) }
    ensures unchanged { OnErr result (buffer.new ≡ buffer.old) }
    ensures expected { IfErr result
        (λ e. e.expected ≡ tag_of key.now nonce.now aad.now buffer.old) }
    ensures stored { IfErr result (λ e. e.stored ≡ stored.now) }
{
    let expected = tag(key, nonce, aad, buffer);
    if expected != *stored {
        return Err(BadTag {
            expected,
            stored: *stored,
        });
    }
    gctr_in_place(key, nonce, FIRST_COUNTER, buffer);
    Ok(())
}

/// Encrypts the plaintext in the buffer in place and gives the tag. The buffer has at most 268,435,456 bytes, the
/// associated data at most 4,096 bytes.
pub fn seal_in_place(key: &AesKey, nonce: &[u8; 12], aad: &[u8], buffer: &mut [u8]) -> [u8; 16]
    requires short_aad { length aad.now ≤ 4096 }
    requires short_text { length buffer.old ≤ TEXT_LIMIT }
    ensures { (buffer.new, result) ≡ seal key.now nonce.now aad.now buffer.old }
{
    gctr_in_place(key, nonce, FIRST_COUNTER, buffer);
    tag(key, nonce, aad, buffer)
}

/// The tag that `seal_in_place` would give, without the ciphertext. The plaintext has at most 268,435,456 bytes, the
/// associated data at most 4,096 bytes.
pub fn sign(key: &AesKey, nonce: &[u8; 12], aad: &[u8], plain: &[u8]) -> [u8; 16]
    requires short_aad { length aad.now ≤ 4096 }
    requires short_text { length plain.now ≤ TEXT_LIMIT }
    ensures { result ≡ tag_of key.now nonce.now aad.now (gctr key.now nonce.now 2 plain.now) }
{
    let mut hasher = Hasher::new(key, nonce, aad);
    for i in 0..(plain.len() + 63) / 64 {
        let piece = &plain[64 * i..plain.len().min(64 * i + 64)];
        let ciphertext = encrypt_short(key, nonce, FIRST_COUNTER + 4 * i as u32, piece);
        hasher.update(&ciphertext[..piece.len()]);
    }
    hasher.finish()
}

/// Encrypts or decrypts the buffer, of at most 268,435,456 bytes, in place in counter mode from counter 1. There is no tag.
pub fn ctr_in_place(key: &AesKey, nonce: &[u8; 12], buffer: &mut [u8])
    requires { length buffer.old ≤ TEXT_LIMIT }
    ensures { buffer.new ≡ gctr key.now nonce.now 1 buffer.old }
{
    gctr_in_place(key, nonce, 1, buffer);
}
