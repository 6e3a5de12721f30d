// Base64 and hex.
ghost use Rattle.std.specs.Prelude.{◌≡◌, ◌+◌, ◌*◌, ◌/◌, ◌≤◌, Some, length, IsUtf8, IfOk, IfSome};
ghost use Rattle.json_text.specs.Codings as defined;

use base64::DecodeAllocError;
use base64::engine::general_purpose::STANDARD;
use hex::FromHexError;
use pme_base::{Bytes, OutOfMemory};
use std::alloc::Global;

/// Encodes bytes as base64 with the standard alphabet and padding (RFC 4648, section 4). Each group of three bytes, also
/// an incomplete last one, gives four characters.
#[tactic(auto, unfolding(crate::specs::Codings::base64_text, crate::specs::Codings::bytes_of_base64, base64::specs::GeneralPurpose::decoded_of))]
pub fn base64_text(alloc: Global, bytes: &[u8]) -> Result<Bytes, OutOfMemory>
    ensures text { IfOk result (λ text. text ≡ defined.base64_text bytes.now) }
    ensures read_back { IfOk result (λ text. defined.bytes_of_base64 text ≡ Some bytes.now) }
    ensures utf8 { IfOk result (λ text. IsUtf8 text) }
    ensures long { IfOk result (λ text. length text ≡ 4 * ((length bytes.now + 2) / 3)) }
{
    let text = STANDARD.encode(alloc, bytes)?;
    Ok(Bytes::from_vec(text.into_bytes()))
}

/// Decodes base64 text; None if it is invalid. Padding is required, and the unused bits of the last character must be 0.
/// The result is never longer than the text.
#[tactic(auto, unfolding(crate::specs::Codings::bytes_of_base64, base64::specs::GeneralPurpose::decoded_of))]
pub fn bytes_of_base64(alloc: Global, text: &[u8]) -> Result<Option<Bytes>, OutOfMemory>
    ensures bytes { IfOk result (λ bytes. bytes ≡ defined.bytes_of_base64 text.now) }
    ensures shorter { IfOk result (λ bytes. IfSome bytes
        (λ decoded. length decoded ≤ length text.now)) }
{
    match STANDARD.decode(alloc, text) {
        Ok(bytes) => Ok(Some(Bytes::from_vec(bytes))),
        Err(DecodeAllocError::OutOfMemory) => Err(OutOfMemory),
        Err(_) => Ok(None),
    }
}

/// Encodes bytes as hex (RFC 4648, section 8), with two lower-case digits for each byte.
#[tactic(auto, unfolding(crate::specs::Codings::hex_text, crate::specs::Codings::bytes_of_hex))]
pub fn hex_text(alloc: Global, bytes: &[u8]) -> Result<Bytes, OutOfMemory>
    ensures text { IfOk result (λ text. text ≡ defined.hex_text bytes.now) }
    ensures read_back { IfOk result (λ text. defined.bytes_of_hex text ≡ Some bytes.now) }
    ensures utf8 { IfOk result (λ text. IsUtf8 text) }
{
    let text = hex::encode(alloc, bytes)?;
    Ok(Bytes::from_vec(text.into_bytes()))
}

/// Decodes hex text of either case; None if it isn't an even number of hex digits.
#[tactic(auto, unfolding(crate::specs::Codings::bytes_of_hex))]
pub fn bytes_of_hex(alloc: Global, text: &[u8]) -> Result<Option<Bytes>, OutOfMemory>
    ensures { IfOk result (λ bytes. bytes ≡ defined.bytes_of_hex text.now) }
{
    match hex::decode(alloc, text) {
        Ok(bytes) => Ok(Some(Bytes::from_vec(bytes))),
        Err(FromHexError::OutOfMemory) => Err(OutOfMemory),
        Err(_) => Ok(None),
    }
}
