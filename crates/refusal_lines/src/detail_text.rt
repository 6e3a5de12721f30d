// The text of a refusal's detail.
ghost use Rattle.std.specs.Prelude.{◌≡◌, ◌++◌, OnOk, codes};
ghost use Rattle.std.specs.Fmt.{decimal, signed_decimal};
ghost use Rattle.hex.specs.Hex.{encode_lower};
ghost use Rattle.refusal_lines.specs.DetailText as defined;

use crate::pieces::{
    push_spaced_bytes, push_spaced_decimal, push_spaced_hex, push_spaced_signed, push_spaced_text,
};
use crate::words::{fault_word, item_word, part_word, struct_word};
use byte_texts::{push_signed, push_text};
use pme_base::{Bytes, Detail, OutOfMemory, StructName};

/// Appends the values of a refusal's detail, each after a space; nothing if there are none. An empty name counts as a
/// value, so that its space is appended.
pub fn push_detail(line: &mut Bytes, detail: &Detail) -> Result<(), OutOfMemory>
    ensures { OnOk result (line.new ≡ line.old ++ defined.detail_text detail.now) }
{
    match detail {
        Detail::Nothing => Ok(()),
        Detail::Pair(first, second) => push_two_decimals(line, *first, *second),
        Detail::Signed(found, wanted) => push_two_signed(line, *found, *wanted),
        Detail::Tags(expected, stored) => push_two_hexes(line, expected, stored),
        Detail::Field(name, number) => push_field(line, *name, *number),
        Detail::Thrift(fault) => push_spaced_text(line, fault_word(*fault)),
        Detail::Part(part, number) => {
            push_spaced_text(line, part_word(*part))?;
            push_spaced_decimal(line, *number)
        }
        Detail::Nonce(nonce) => push_spaced_hex(line, nonce),
        Detail::Name(name) => push_spaced_bytes(line, name.as_slice()),
        Detail::Names(first, second) => {
            push_spaced_bytes(line, first.as_slice())?;
            push_spaced_bytes(line, second.as_slice())
        }
        Detail::Hexes(first, second) => {
            push_two_hexes(line, first.as_slice(), second.as_slice())
        }
        Detail::Item(entry, word) => {
            push_spaced_decimal(line, *entry)?;
            push_spaced_text(line, item_word(*word))
        }
        Detail::Entry(row, field) => push_two_decimals(line, *row, *field),
    }
}

/// Appends two numbers in decimal, each after a space.
fn push_two_decimals(line: &mut Bytes, first: u64, second: u64) -> Result<(), OutOfMemory>
    ensures { OnOk result (line.new ≡ line.old ++ defined.spaced_pair (decimal first)
        (decimal second)) }
{
    push_spaced_decimal(line, first)?;
    push_spaced_decimal(line, second)
}

/// Appends two signed numbers in decimal, each after a space.
fn push_two_signed(line: &mut Bytes, found: i64, wanted: i64) -> Result<(), OutOfMemory>
    ensures { OnOk result (line.new ≡ line.old ++ defined.spaced_pair (signed_decimal found)
        (signed_decimal wanted)) }
{
    push_spaced_signed(line, found)?;
    push_spaced_signed(line, wanted)
}

/// Appends two byte strings as lower-case hex, each after a space.
fn push_two_hexes(line: &mut Bytes, first: &[u8], second: &[u8]) -> Result<(), OutOfMemory>
    ensures { OnOk result (line.new ≡ line.old ++ defined.spaced_pair (encode_lower first.now)
        (encode_lower second.now)) }
{
    push_spaced_hex(line, first)?;
    push_spaced_hex(line, second)
}

/// Appends a space and a field of a Thrift struct, as `STRUCT.NUMBER`.
fn push_field(line: &mut Bytes, name: StructName, number: i16) -> Result<(), OutOfMemory>
    ensures { OnOk result (line.new ≡ line.old ++ defined.spaced
        (defined.struct_word name ++ codes "." ++ signed_decimal number)) }
{
    push_spaced_text(line, struct_word(name))?;
    push_text(line, ".")?;
    push_signed(line, i64::from(number))
}
