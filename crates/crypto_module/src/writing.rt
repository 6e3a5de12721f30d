// Writing of modules to the end of a byte list. The plaintext is copied there once and then encrypted in place.
ghost use Rattle.std.specs.Prelude.{◌≡◌, ◌+◌, ◌≤◌, ◌<◌, ◌↔◌, ◌++◌, length, take, drop, OnOk, OnErr, IsErrOf};
ghost use Rattle.gcm_seal.specs.Gcm.{gctr, tag_of};
ghost use Rattle.crypto_module.specs.Modules as modules;

use aes_block::AesKey;
use gcm_seal::{ctr_in_place, seal_in_place};
use pme_base::{Bytes, MODULE_LIMIT};
use std::alloc::AllocError;
use thiserror::Error;

/// Why a module was not written.
#[derive(Clone, Copy, Debug, PartialEq, Eq, Drop, Error)]
pub enum ModuleRefusal {
    /// The plaintext is longer than the limit.
    #[error("TooLarge")]
    TooLarge,
    /// Memory was refused.
    #[error("OutOfMemory")]
    OutOfMemory,
}

/// Encrypts `plain` with AES-GCM (SP 800-38D, section 7.1) and appends its module with this nonce to `into`. `limit` is
/// the size limit of the plaintext in bytes; `aad` has at most 4,096 bytes. An error leaves `into` unchanged.
pub fn write_gcm(
    key: &AesKey,
    aad: &[u8],
    nonce: &[u8; 12],
    limit: u32,
    plain: &[u8],
    into: &mut Bytes,
) -> Result<(), ModuleRefusal>
    requires short_aad { length aad.now ≤ 4096 }
    requires small_limit { limit ≤ MODULE_LIMIT }
    ensures too_large { IsErrOf result ModuleRefusal.TooLarge ↔ (limit < length plain.now) }
    ensures appended { OnOk result (into.new ≡ into.old ++
        modules.sealed_gcm key.now aad.now nonce.now plain.now) }
    ensures sealed { OnOk result (modules.IsGcm key.now aad.now plain.now limit
        (drop (length into.old) into.new)) }
    ensures unchanged { OnErr result (into.new ≡ into.old) }
{
    let start = into.len();
    append_parts(nonce, limit, plain, &[0; 16], into)?;
    let mut bytes = into.take();
    seal_module(key, aad, nonce, bytes.slice_mut(start..));
    *into = Bytes::from_vec(bytes);
    Ok(())
}

/// Encrypts `plain` in counter mode from counter 1 and appends its CTR module with this nonce to `into`. `limit` is the
/// size limit of the plaintext in bytes. An error leaves `into` unchanged.
pub fn write_ctr(
    key: &AesKey,
    nonce: &[u8; 12],
    limit: u32,
    plain: &[u8],
    into: &mut Bytes,
) -> Result<(), ModuleRefusal>
    requires small_limit { limit ≤ MODULE_LIMIT }
    ensures too_large { IsErrOf result ModuleRefusal.TooLarge ↔ (limit < length plain.now) }
    ensures appended { OnOk result (into.new ≡ into.old ++
        modules.sealed_ctr key.now nonce.now plain.now) }
    ensures sealed { OnOk result (modules.IsCtr key.now plain.now limit
        (drop (length into.old) into.new)) }
    ensures unchanged { OnErr result (into.new ≡ into.old) }
{
    append_parts(nonce, limit, plain, &[], into)?;
    let mut bytes = into.take();
    let start = bytes.len() - plain.len();
    ctr_in_place(key, nonce, bytes.slice_mut(start..));
    *into = Bytes::from_vec(bytes);
    Ok(())
}

/// Appends the parts of a module before encryption: the length field, the nonce, the plaintext, and a placeholder for
/// the tag.
fn append_parts(
    nonce: &[u8; 12],
    limit: u32,
    plain: &[u8],
    tag: &[u8],
    into: &mut Bytes,
) -> Result<(), ModuleRefusal>
    requires small_limit { limit ≤ MODULE_LIMIT }
    requires short_tag { length tag.now ≤ 16 }
    ensures too_large { IsErrOf result ModuleRefusal.TooLarge ↔ (limit < length plain.now) }
    ensures within { OnOk result (length plain.now ≤ limit) }
    ensures appended { OnOk result (into.new ≡ into.old ++
        modules.parts nonce.now plain.now tag.now) }
    ensures unchanged { OnErr result (into.new ≡ into.old) }
{
    if plain.len() > limit as usize {
        return Err(ModuleRefusal::TooLarge);
    }
    let mut bytes = into.take();
    let appended = extend_by_parts(nonce, plain, tag, &mut bytes);
    *into = Bytes::from_vec(bytes);
    match appended {
        Ok(()) => Ok(()),
        Err(_) => Err(ModuleRefusal::OutOfMemory),
    }
}

/// `append_parts` after the check of the limit. Only the first call can fail, because it reserves all the memory.
fn extend_by_parts(
    nonce: &[u8; 12],
    plain: &[u8],
    tag: &[u8],
    into: &mut Vec<u8>,
) -> Result<(), AllocError>
    requires short_text { length plain.now ≤ MODULE_LIMIT }
    requires short_tag { length tag.now ≤ 16 }
    ensures appended { OnOk result (into.new.items ≡ into.old.items ++
        modules.parts nonce.now plain.now tag.now) }
    ensures unchanged { OnErr result (into.new.items ≡ into.old.items) }
{
    let counted = 12 + plain.len() + tag.len();
    into.reserve(4 + counted)?;
    into.extend_from_slice(&(counted as u32).to_le_bytes())?;
    into.extend_from_slice(nonce)?;
    into.extend_from_slice(plain)?;
    into.extend_from_slice(tag)
}

/// Encrypts the plaintext of a GCM module in place, and writes the tag after it.
fn seal_module(key: &AesKey, aad: &[u8], nonce: &[u8; 12], buffer: &mut [u8])
    requires short_aad { length aad.now ≤ 4096 }
    requires whole { 32 ≤ length buffer.old }
    requires short_text { length buffer.old ≤ MODULE_LIMIT + 32 }
    ensures { buffer.new ≡ take 16 buffer.old ++
        (gctr key.now nonce.now 2 (modules.cipher_of buffer.old) ++ tag_of key.now nonce.now aad.now (gctr key.now nonce.now 2 (modules.cipher_of buffer.old))) }
{
    let end = buffer.len() - 16;
    let tag = seal_in_place(key, nonce, aad, &mut buffer[16..end]);
    buffer[end..].copy_from_slice(&tag);
}
