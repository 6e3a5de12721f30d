// Appending varints, integers, and the heads of lists and fields.
ghost use Rattle.std.specs.Prelude.{◌≡◌, ◌≤◌, ◌∷◌, ◌++◌, [], OnOk, OnErr, IfSome};
ghost use Rattle.thrift_compact.specs.Spelling.{varint_of, zigzag_of, number_of, byte_of, list_head_of, field_head_of, short_distance_of, Extends};

use crate::kind::TKind;
use pme_base::{Bytes, OutOfMemory};

/// Appends the shortest varint of `n`: seven bits per byte, least significant first.
pub(crate) fn put_varint(into: &mut Bytes, n: u64) -> Result<(), OutOfMemory>
    ensures ok { OnOk result (into.new ≡ into.old ++ varint_of n) }
    ensures kept { OnErr result (Extends into.old into.new) }
{
    let mut rest = n;
    while rest >= 128 {
        into.push(128 + (rest % 128) as u8)?;
        rest /= 128;
    }
    into.push(rest as u8)
}

/// Encodes an integer as a zigzag number: 0, -1, 1, -2 become 0, 1, 2, 3.
pub(crate) fn zigzag_encode(z: i64) -> u64
    ensures { result ≡ zigzag_of z }
{
    if z < 0 {
        2 * (-(z + 1)) as u64 + 1
    } else {
        2 * z as u64
    }
}

/// Appends an integer as a zigzag varint.
pub(crate) fn put_number(into: &mut Bytes, z: i64) -> Result<(), OutOfMemory>
    ensures ok { OnOk result (into.new ≡ into.old ++ number_of z) }
    ensures kept { OnErr result (Extends into.old into.new) }
{
    put_varint(into, zigzag_encode(z))
}

/// Appends an 8-bit integer, one byte in two's complement.
pub(crate) fn put_int8(into: &mut Bytes, z: i8) -> Result<(), OutOfMemory>
    ensures ok { OnOk result (into.new ≡ into.old ++ byte_of z ∷ []) }
    ensures kept { OnErr result (Extends into.old into.new) }
{
    let byte = if z < 0 {
        255 - (-(z + 1)) as u8
    } else {
        z as u8
    };
    into.push(byte)
}

/// Appends the head of a list or a set of `count` elements.
pub(crate) fn put_list_head(into: &mut Bytes, kind: TKind, count: u64) -> Result<(), OutOfMemory>
    ensures ok { OnOk result (into.new ≡ into.old ++ list_head_of kind count) }
    ensures kept { OnErr result (Extends into.old into.new) }
{
    if count < 15 {
        into.push(16 * count as u8 + kind.code())
    } else {
        into.push(240 + kind.code())?;
        put_varint(into, count)
    }
}

/// The distance from `before` to `id` where it is 1 to 15, so that the first byte of a field's head can hold it.
fn short_distance(before: i16, id: i16) -> Option<u8>
    ensures value { result ≡ short_distance_of before id }
    ensures small { IfSome result (λ d. d ≤ 15) }
{
    let distance = i32::from(id) - i32::from(before);
    if distance >= 1 && distance <= 15 {
        Some(distance as u8)
    } else {
        None
    }
}

/// Appends the head of a field. `before` is the id of the previous field, or 0 for the first.
pub(crate) fn put_field_head(
    into: &mut Bytes,
    before: i16,
    id: i16,
    kind: TKind,
) -> Result<(), OutOfMemory>
    ensures ok { OnOk result (into.new ≡ into.old ++ field_head_of before id kind) }
    ensures kept { OnErr result (Extends into.old into.new) }
{
    match short_distance(before, id) {
        Some(distance) => into.push(16 * distance + kind.code()),
        None => {
            into.push(kind.code())?;
            put_number(into, i64::from(id))
        }
    }
}
