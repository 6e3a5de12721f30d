// Writing the end of a file: the footer area, its length and the last magic.
ghost use Rattle.std.specs.Prelude.{◌≡◌, ◌+◌, ◌≤◌, ◌↔◌, ◌++◌, ◌||◌, true, nat_lt, length, take, codes, OnOk, OnErr, IsErrOf};
ghost use Rattle.std.specs.Int.{w32, to_le_bytes};
ghost use Rattle.footer_modes.specs.Written as defined;

use aes_block::AesKey;
use crypto_module::{ModuleRefusal, write_gcm};
use gcm_seal::sign;
use module_aad::FileAad;
use pme_base::{Bytes, FOOTER_AREA_LIMIT, FOOTER_LIMIT, Place};
use std::alloc::{AllocError, Global};

/// Bytes of a module beside its plaintext: a length field of 4, a nonce of 12 and a tag of 16.
const MODULE_OVERHEAD: usize = 32;

/// Bytes of a signature: a nonce of 12 and a tag of 16.
const SIGNATURE: usize = 28;

/// Appends to `into` all that follows the data of a file with an encrypted footer: the bytes `crypto` of its
/// FileCryptoMetaData, the footer's bytes as a sealed module, the length of both, and `PARE`.
///
/// A footer over `FOOTER_LIMIT` bytes, or an area with `crypto` over `FOOTER_AREA_LIMIT` bytes, is refused as TooLarge. A
/// refusal leaves `into` unchanged. The module is sealed in `into` itself, so `_alloc` is not used.
#[tactic(auto, using(crate::proofs::Lengths::too_large_encrypted))]
pub fn write_encrypted_tail(
    _alloc: Global,
    key: &AesKey,
    aad: &FileAad,
    nonce: &[u8; 12],
    crypto: &[u8],
    footer: &[u8],
    into: &mut Bytes,
) -> Result<(), ModuleRefusal>
    ensures too_large { IsErrOf result ModuleRefusal.TooLarge ↔ (defined.is_too_large footer.now
        (defined.encrypted_area key.now aad.now nonce.now crypto.now footer.now) ≡ true) }
    ensures appended { OnOk result (into.new
        ≡ into.old ++ defined.encrypted_tail key.now aad.now nonce.now crypto.now footer.now) }
    ensures unchanged { OnErr result (into.new ≡ into.old) }
{
    if is_too_large(footer, crypto.len() + MODULE_OVERHEAD) {
        return Err(ModuleRefusal::TooLarge);
    }
    let before = into.len();
    match extend_by_encrypted(key, aad, nonce, crypto, footer, into) {
        Ok(()) => Ok(()),
        Err(refusal) => {
            into.truncate(before);
            Err(refusal)
        }
    }
}

/// Appends to `into` all that follows the data of a file with a signed footer: the footer's bytes, the nonce and the tag
/// of sealing them, the length of these three, and `PAR1`.
///
/// A footer over `FOOTER_LIMIT` bytes is refused as TooLarge. A refusal leaves `into` unchanged.
pub fn write_signed_tail(
    key: &AesKey,
    aad: &FileAad,
    nonce: &[u8; 12],
    footer: &[u8],
    into: &mut Bytes,
) -> Result<(), ModuleRefusal>
    ensures too_large { IsErrOf result ModuleRefusal.TooLarge ↔ (defined.is_too_large footer.now
        (defined.signed_area key.now aad.now nonce.now footer.now) ≡ true) }
    ensures appended { OnOk result (into.new
        ≡ into.old ++ defined.signed_tail key.now aad.now nonce.now footer.now) }
    ensures unchanged { OnErr result (into.new ≡ into.old) }
{
    if is_too_large(footer, SIGNATURE) {
        return Err(ModuleRefusal::TooLarge);
    }
    let tag = footer_tag(key, aad, nonce, footer);
    let mut bytes = into.take();
    let extended = extend_by_signed(nonce, footer, &tag, &mut bytes);
    *into = Bytes::from_vec(bytes);
    match extended {
        Ok(()) => Ok(()),
        Err(_) => Err(ModuleRefusal::OutOfMemory),
    }
}

/// Whether a footer is over its limit, or the footer area that holds it and `more` other bytes is over its own.
fn is_too_large(footer: &[u8], more: usize) -> bool
    ensures { result ≡ (nat_lt FOOTER_LIMIT (length footer.now)
        || nat_lt FOOTER_AREA_LIMIT (length footer.now + more)) }
{
    footer.len() > FOOTER_LIMIT as usize || more > FOOTER_AREA_LIMIT as usize - footer.len()
}

/// Appends an encrypted footer area, its length and `PARE`. After a refusal `into` still begins with its old bytes.
fn extend_by_encrypted(
    key: &AesKey,
    aad: &FileAad,
    nonce: &[u8; 12],
    crypto: &[u8],
    footer: &[u8],
    into: &mut Bytes,
) -> Result<(), ModuleRefusal>
    requires short { length footer.now ≤ FOOTER_LIMIT }
    requires small { length crypto.now ≤ 16842720 }
    ensures free { IsErrOf result ModuleRefusal.TooLarge → ⊥ }
    ensures appended { OnOk result (into.new
        ≡ into.old ++ defined.encrypted_tail key.now aad.now nonce.now crypto.now footer.now) }
    ensures kept { OnErr result (take (length into.old) into.new ≡ into.old) }
{
    append(crypto, into)?;
    write_footer(key, aad, nonce, footer, into)?;
    let length = (crypto.len() + MODULE_OVERHEAD + footer.len()) as u32;
    append(&length.to_le_bytes(), into)?;
    append(b"PARE", into)
}

/// Appends a footer as a sealed module.
fn write_footer(
    key: &AesKey,
    aad: &FileAad,
    nonce: &[u8; 12],
    footer: &[u8],
    into: &mut Bytes,
) -> Result<(), ModuleRefusal>
    requires short { length footer.now ≤ FOOTER_LIMIT }
    ensures free { IsErrOf result ModuleRefusal.TooLarge → ⊥ }
    ensures appended { OnOk result (into.new
        ≡ defined.encrypted_area key.now aad.now nonce.now into.old footer.now) }
    ensures unchanged { OnErr result (into.new ≡ into.old) }
{
    let mut associated = [0; 1095];
    let count = aad.write_aad(&Place::footer(), &mut associated);
    write_gcm(key, &associated[..count], nonce, FOOTER_LIMIT, footer, into)
}

/// Appends `more`.
fn append(more: &[u8], into: &mut Bytes) -> Result<(), ModuleRefusal>
    ensures free { IsErrOf result ModuleRefusal.TooLarge → ⊥ }
    ensures appended { OnOk result (into.new ≡ into.old ++ more.now) }
    ensures unchanged { OnErr result (into.new ≡ into.old) }
{
    match into.extend(more) {
        Ok(()) => Ok(()),
        Err(_) => Err(ModuleRefusal::OutOfMemory),
    }
}

/// The tag of sealing a footer.
fn footer_tag(key: &AesKey, aad: &FileAad, nonce: &[u8; 12], footer: &[u8]) -> [u8; 16]
    requires short { length footer.now ≤ FOOTER_LIMIT }
    ensures { result ≡ defined.footer_tag key.now aad.now nonce.now footer.now }
{
    let mut associated = [0; 1095];
    let count = aad.write_aad(&Place::footer(), &mut associated);
    sign(key, nonce, &associated[..count], footer)
}

/// Appends a footer, its signature, the length of the area and `PAR1`. Memory for all of it is reserved first.
fn extend_by_signed(
    nonce: &[u8; 12],
    footer: &[u8],
    tag: &[u8; 16],
    into: &mut Vec<u8>,
) -> Result<(), AllocError>
    requires short { length footer.now ≤ FOOTER_LIMIT }
    ensures appended { OnOk result (into.new.items ≡ into.old.items ++ (footer.now ++ (nonce.now
        ++ (tag.now ++ (to_le_bytes w32 (length footer.now + 28) ++ codes "PAR1"))))) }
    ensures unchanged { OnErr result (into.new.items ≡ into.old.items) }
{
    let area = footer.len() + SIGNATURE;
    into.reserve(area + 8)?;
    into.extend_from_slice(footer)?;
    into.extend_from_slice(nonce)?;
    into.extend_from_slice(tag)?;
    into.extend_from_slice(&(area as u32).to_le_bytes())?;
    into.extend_from_slice(b"PAR1")
}
