// Parsers for the values of options.
ghost use Rattle.std.specs.Prelude.{◌≡◌, IfOk};
ghost use Rattle.command_line.specs.Values as defined;

use crate::aad_prefix::AadPrefix;
use crate::associated_data::AssociatedData;
use aes_block::AesKey;
use hex::FromHexError;
use pme_base::{Bytes, OutOfMemory};
use std::alloc::Global;

/// Decodes hex text of either case; None if it is invalid.
pub fn bytes_of_hex(alloc: Global, text: &str) -> Result<Option<Bytes>, OutOfMemory>
    ensures { IfOk result (λ bytes. bytes ≡ defined.bytes_of_hex text.now) }
{
    match hex::decode(alloc, text) {
        Ok(bytes) => Ok(Some(Bytes::from_vec(bytes))),
        Err(FromHexError::OutOfMemory) => Err(OutOfMemory),
        Err(_) => Ok(None),
    }
}

/// Parses an AES key: 16, 24 or 32 bytes in hex.
pub fn key_of_hex(alloc: Global, text: &str) -> Result<Option<AesKey>, OutOfMemory>
    ensures { IfOk result (λ key. key ≡ defined.key_of_hex text.now) }
{
    match bytes_of_hex(alloc, text)? {
        None => Ok(None),
        Some(bytes) => match AesKey::new(bytes.as_slice()) {
            Ok(key) => Ok(Some(key)),
            Err(_) => Ok(None),
        },
    }
}

/// Parses associated data: at most 4,096 bytes in hex.
pub fn associated_data_of_hex(
    alloc: Global,
    text: &str,
) -> Result<Option<AssociatedData>, OutOfMemory>
    ensures { IfOk result (λ bytes. bytes ≡ defined.associated_data_of_hex text.now) }
{
    match bytes_of_hex(alloc, text)? {
        None => Ok(None),
        Some(bytes) => Ok(AssociatedData::new(bytes)),
    }
}

/// Parses an AAD prefix: at most 1,024 bytes in hex.
pub fn prefix_of_hex(alloc: Global, text: &str) -> Result<Option<AadPrefix>, OutOfMemory>
    ensures { IfOk result (λ bytes. bytes ≡ defined.prefix_of_hex text.now) }
{
    match bytes_of_hex(alloc, text)? {
        None => Ok(None),
        Some(bytes) => Ok(AadPrefix::new(bytes)),
    }
}
