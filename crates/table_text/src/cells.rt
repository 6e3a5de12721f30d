// Parsers for the values in the fields of a record.
ghost use Rattle.std.specs.Prelude.{◌≡◌, IfOk, option_map};
ghost use Rattle.std.specs.List.{list_all, list_any};
ghost use Rattle.std.specs.Char.{is_ascii, is_ascii_uppercase};
ghost use Rattle.std.specs.Str.{is_utf8 as utf8_test};
ghost use Rattle.table_text.specs.Cells as cells;

use pme_base::OutOfMemory;
use std::str;

/// Parses `true` or `false`.
#[tactic(auto, unfolding(crate::specs::Cells::truth_read))]
pub fn truth_read(field: &[u8]) -> Option<bool>
    ensures { result ≡ cells.truth_read field.now }
{
    if field == b"true".as_slice() {
        Some(true)
    } else if field == b"false".as_slice() {
        Some(false)
    } else {
        None
    }
}

/// Decodes lower-case hex into `scratch`, replacing its contents. None if `field` isn't valid lower-case hex.
#[tactic(auto, using(crate::proofs::CellLemmas::sized_whole), unfolding(crate::specs::Cells::hex_read))]
pub fn hex_read<'a>(field: &[u8], scratch: &'a mut Vec<u8>) -> Result<Option<&'a [u8]>, OutOfMemory>
    ensures { IfOk result (λ o. option_map (λ s. s.now) o ≡ cells.hex_read field.now) }
{
    if has_uppercase(field) {
        return Ok(None);
    }
    scratch.resize(field.len() / 2, 0)?;
    if hex::decode_to_slice(field, scratch.as_mut_slice()).is_err() {
        return Ok(None);
    }
    Ok(Some(scratch.as_slice()))
}

/// Decodes exactly `size` bytes of lower-case hex into `scratch`, replacing its contents. None if `field` is anything else.
#[tactic(auto, unfolding(crate::specs::Cells::hex_of_size_read))]
pub fn hex_of_size_read<'a>(
    size: usize,
    field: &[u8],
    scratch: &'a mut Vec<u8>,
) -> Result<Option<&'a [u8]>, OutOfMemory>
    ensures { IfOk result (λ o. option_map (λ s. s.now) o ≡ cells.hex_of_size_read size field.now) }
{
    match hex_read(field, scratch)? {
        Some(bytes) => Ok(of_size(size, bytes)),
        None => Ok(None),
    }
}

/// `bytes`, if there are exactly `size`.
fn of_size<'a>(size: usize, bytes: &'a [u8]) -> Option<&'a [u8]>
    ensures { option_map (λ s. s.now) result ≡ cells.of_size size bytes.now }
{
    if bytes.len() == size {
        Some(bytes)
    } else {
        None
    }
}

/// Parses text, which must be UTF-8. A leading backslash is written twice, so one of the two is dropped; a single
/// leading backslash gives None.
#[tactic(auto, unfolding(crate::specs::Cells::text_read))]
pub fn text_read<'a>(field: &'a [u8]) -> Option<&'a [u8]>
    ensures { option_map (λ s. s.now) result ≡ cells.text_read field.now }
{
    if !is_utf8(field) {
        return None;
    }
    if field.is_empty() || field[0] != b'\\' {
        return Some(field);
    }
    if field.len() > 1 && field[1] == b'\\' {
        return Some(&field[1..]);
    }
    None
}

/// Whether these bytes are UTF-8 text.
#[tactic(auto, using(crate::proofs::CellLemmas::ascii_text))]
pub fn is_utf8(bytes: &[u8]) -> bool
    ensures { result ≡ utf8_test bytes.now }
{
    // Most cells are short and ASCII; checking that is faster than a call of `from_utf8`.
    if bytes.len() < 8 && are_ascii(bytes) {
        return true;
    }
    is_decoded(bytes)
}

// Not inlined, so that the code for short cells stays small.
#[inline(never)]
fn is_decoded(bytes: &[u8]) -> bool
    ensures { result ≡ utf8_test bytes.now }
{
    match str::from_utf8(bytes) {
        Ok(_) => true,
        Err(_) => false,
    }
}

fn are_ascii(bytes: &[u8]) -> bool
    ensures { result ≡ list_all is_ascii bytes.now }
{
    bytes.iter().all(|byte| byte.is_ascii())
}

fn has_uppercase(field: &[u8]) -> bool
    ensures { result ≡ list_any is_ascii_uppercase field.now }
{
    field.iter().any(|byte| byte.is_ascii_uppercase())
}
