//! Appends the texts of values to a list of bytes: truth values, numbers in decimal, and bytes in hex.
#![tactic(auto)]

ghost use Rattle.std.specs.Prelude.{◌≡◌, ◌++◌, OnOk, OnErr, codes, if◌then◌else◌};
ghost use Rattle.std.specs.Fmt.{decimal, signed_decimal};
ghost use Rattle.hex.specs.Hex.{encode_lower};

use itoa::Buffer;
use pme_base::{Bytes, OutOfMemory};
use std::alloc::Global;

/// Appends a text. On OutOfMemory the list is unchanged.
pub fn push_text(into: &mut Bytes, text: &str) -> Result<(), OutOfMemory>
    ensures ok { OnOk result (into.new ≡ into.old ++ text.now) }
    ensures unchanged { OnErr result (into.new ≡ into.old) }
{
    into.extend(text.as_bytes())
}

/// Appends `true` or `false`. On OutOfMemory the list is unchanged.
pub fn push_truth(into: &mut Bytes, truth: bool) -> Result<(), OutOfMemory>
    ensures ok { OnOk result
        (into.new ≡ into.old ++ (if truth then codes "true" else codes "false")) }
    ensures unchanged { OnErr result (into.new ≡ into.old) }
{
    if truth {
        into.extend(b"true")
    } else {
        into.extend(b"false")
    }
}

/// Appends a number in decimal. On OutOfMemory the list is unchanged.
pub fn push_decimal(into: &mut Bytes, number: u64) -> Result<(), OutOfMemory>
    ensures ok { OnOk result (into.new ≡ into.old ++ decimal number) }
    ensures unchanged { OnErr result (into.new ≡ into.old) }
{
    let mut buffer = Buffer::new();
    into.extend(buffer.format(number).as_bytes())
}

/// Appends a number in decimal, with `-` if it is negative. On OutOfMemory the list is unchanged.
pub fn push_signed(into: &mut Bytes, number: i64) -> Result<(), OutOfMemory>
    ensures ok { OnOk result (into.new ≡ into.old ++ signed_decimal number) }
    ensures unchanged { OnErr result (into.new ≡ into.old) }
{
    let mut buffer = Buffer::new();
    into.extend(buffer.format(number).as_bytes())
}

/// Appends bytes as lower-case hex, two digits for each byte. On OutOfMemory the list is unchanged.
pub fn push_hex(into: &mut Bytes, bytes: &[u8]) -> Result<(), OutOfMemory>
    ensures ok { OnOk result (into.new ≡ into.old ++ encode_lower bytes.now) }
    ensures unchanged { OnErr result (into.new ≡ into.old) }
{
    let text = hex::encode(allocator_of(into), bytes)?;
    into.extend(text.as_bytes())
}

/// The allocator of a list of bytes.
pub fn allocator_of(bytes: &mut Bytes) -> Global
    ensures { bytes.new ≡ bytes.old }
{
    let items = bytes.take();
    let alloc = *items.allocator();
    *bytes = Bytes::from_vec(items);
    alloc
}
