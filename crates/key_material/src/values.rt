// The values of a policy's names.
ghost use Rattle.std.specs.Prelude.{◌≡◌, is_some, option_map, IfOk};
ghost use Rattle.std.specs.List.{list_all};
ghost use Rattle.json_text.specs.View.{view};
ghost use Rattle.json_text.specs.Hex.{is_hex_digit};
ghost use Rattle.key_material.specs.PolicyValues as kind;

use json_text::{Value, bytes_of_hex};
use pme_base::{Bytes, OutOfMemory};
use std::alloc::Global;

/// Largest number of rows of a row group or a page.
const MOST_ROWS: u64 = 16_777_216;

/// Size limit of a prefix in bytes.
const MOST_PREFIX: usize = 1_024;

/// Whether the text is a valid key id.
#[tactic(auto, unfolding(crate::specs::PolicyValues::is_id))]
pub(crate) fn is_id(text: &str) -> bool
    ensures { result ≡ kind.is_id text.now }
{
    !text.is_empty() && text.len() <= 256 && !has_divider(text.as_bytes())
}

fn has_divider(text: &[u8]) -> bool
    ensures { result ≡ kind.has_divider text.now }
{
    text.iter().any(|b| *b == b':' || *b == b';' || *b == b',')
}

/// The key id that the value holds; None if it holds none.
#[tactic(auto, unfolding(crate::specs::PolicyValues::id_in))]
pub(crate) fn id_in(value: &Value) -> Option<&str>
    ensures { option_map (λ id. id.now) result ≡ kind.id_in (view value.now) }
{
    match value.as_str() {
        Some(id) if is_id(id) => Some(id),
        _ => None,
    }
}

/// Whether the value names AES_GCM_CTR_V1; None if it names no algorithm.
#[tactic(auto, unfolding(crate::specs::PolicyValues::ctr_in))]
pub(crate) fn ctr_in(value: &Value) -> Option<bool>
    ensures { result ≡ kind.ctr_in (view value.now) }
{
    let name = value.as_str()?;
    if name == "AES_GCM_V1" {
        Some(false)
    } else if name == "AES_GCM_CTR_V1" {
        Some(true)
    } else {
        None
    }
}

/// The length of data keys in bits that the value holds; None if it holds none.
#[tactic(auto, unfolding(crate::specs::PolicyValues::bits_in))]
pub(crate) fn bits_in(value: &Value) -> Option<u32>
    ensures { result ≡ kind.bits_in (view value.now) }
{
    let bits = value.as_u64()?;
    if bits == 128 || bits == 192 || bits == 256 {
        Some(bits as u32)
    } else {
        None
    }
}

/// The number of rows that the value holds; None if it holds none.
#[tactic(auto, unfolding(crate::specs::PolicyValues::rows_in))]
pub(crate) fn rows_in(value: &Value) -> Option<u32>
    ensures { result ≡ kind.rows_in (view value.now) }
{
    let rows = value.as_u64()?;
    if 1 <= rows && rows <= MOST_ROWS {
        Some(rows as u32)
    } else {
        None
    }
}

/// Whether the value is a prefix in hex.
#[tactic(auto, using(crate::proofs::PrefixTexts::prefix_texts), unfolding(crate::specs::PolicyValues::prefix_in))]
pub(crate) fn has_prefix(value: &Value) -> bool
    ensures { result ≡ is_some (kind.prefix_in (view value.now)) }
{
    match value.as_str() {
        Some(text) => is_prefix_text(text.as_bytes()),
        None => false,
    }
}

fn is_prefix_text(text: &[u8]) -> bool
    ensures { result ≡ kind.is_prefix_text text.now }
{
    let size = text.len();
    2 <= size && size <= 2 * MOST_PREFIX && size % 2 == 0 && has_digits(text)
}

fn has_digits(text: &[u8]) -> bool
    ensures { result ≡ list_all is_hex_digit text.now }
{
    text.iter().all(u8::is_ascii_hexdigit)
}

/// The prefix that the value holds in hex; None if it holds none.
#[tactic(auto, unfolding(crate::specs::PolicyValues::prefix_in, crate::specs::PolicyValues::prefix_of))]
pub(crate) fn prefix_in(alloc: Global, value: &Value) -> Result<Option<Bytes>, OutOfMemory>
    ensures { IfOk result (λ prefix. prefix ≡ kind.prefix_in (view value.now)) }
{
    let Some(text) = value.as_str() else {
        return Ok(None);
    };
    let Some(prefix) = bytes_of_hex(alloc, text.as_bytes())? else {
        return Ok(None);
    };
    if 1 <= prefix.len() && prefix.len() <= MOST_PREFIX {
        Ok(Some(prefix))
    } else {
        Ok(None)
    }
}
