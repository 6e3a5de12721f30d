// The PLAIN encoding (parquet-format, Encodings.md): single values and the places of a list of values.
ghost use Rattle.std.specs.Prelude.{◌≡◌, ◌+◌, ◌*◌, ◌^◌, ◌<◌, ◌≤◌, nat_le, if◌then◌else◌, drop, take, length, Some, None, IfOk};
ghost use Rattle.std.specs.Option.{option_copied};
ghost use Rattle.plain_pages.specs.Cells.{cell_of, bytes as bytes_cell, null as null_cell};
ghost use Rattle.plain_pages.specs.PlacesInside.{stepped};
ghost use Rattle.plain_pages.specs.Plain as plain;
ghost use Rattle.parquet_types.specs.declared.column.ColumnKind.TheVariants as kind_of;

use crate::cell_ref::CellRef;
use crate::places::Places;
use parquet_types::ColumnKind;
use pme_base::OutOfMemory;
use std::alloc::Global;

/// The value that begins at a place of `body`, or null if `body` doesn't hold it completely. A place is a bit position
/// for BOOLEAN and a byte offset for every other type.
pub fn cell_at<'a>(kind: ColumnKind, place: usize, body: &'a [u8]) -> CellRef<'a>
    ensures { cell_of result ≡ plain.cell_at kind place body.now }
{
    match kind {
        ColumnKind::Boolean => bool_at(place, body),
        ColumnKind::Int32 => int32_at(place, body),
        ColumnKind::Int64 => int64_at(place, body),
        ColumnKind::Int96 => raw_at(12, place, body),
        ColumnKind::Float => raw_at(4, place, body),
        ColumnKind::Double => raw_at(8, place, body),
        ColumnKind::ByteArray => array_at(place, body),
        ColumnKind::Fixed(size) => raw_at(size as usize, place, body),
    }
}

fn bool_at<'a>(place: usize, body: &'a [u8]) -> CellRef<'a>
    ensures { cell_of result ≡ plain.cell_at kind_of.Boolean place body.now }
{
    if place / 8 >= body.len() {
        return CellRef::Null;
    }
    CellRef::Bool((body[place / 8] >> (place % 8)) % 2 == 1)
}

fn int32_at<'a>(place: usize, body: &'a [u8]) -> CellRef<'a>
    ensures { cell_of result ≡ plain.cell_at kind_of.Int32 place body.now }
{
    match rest_from(place, body).first_chunk::<4>() {
        Some(bytes) => CellRef::Int32(i32::from_le_bytes(*bytes)),
        None => CellRef::Null,
    }
}

fn int64_at<'a>(place: usize, body: &'a [u8]) -> CellRef<'a>
    ensures { cell_of result ≡ plain.cell_at kind_of.Int64 place body.now }
{
    match rest_from(place, body).first_chunk::<8>() {
        Some(bytes) => CellRef::Int64(i64::from_le_bytes(*bytes)),
        None => CellRef::Null,
    }
}

fn raw_at<'a>(size: usize, place: usize, body: &'a [u8]) -> CellRef<'a>
    ensures { cell_of result ≡ (if nat_le (place + size) (length body.now)
        then bytes_cell (take size (drop place body.now)) else null_cell) }
{
    if place > body.len() || size > body.len() - place {
        return CellRef::Null;
    }
    CellRef::Bytes(&body[place..place + size])
}

fn array_at<'a>(place: usize, body: &'a [u8]) -> CellRef<'a>
    ensures { cell_of result ≡ plain.cell_at kind_of.ByteArray place body.now }
{
    let Some((length, rest)) = rest_from(place, body).split_first_chunk::<4>() else {
        return CellRef::Null;
    };
    let length = u32::from_le_bytes(*length) as usize;
    if length > rest.len() {
        return CellRef::Null;
    }
    CellRef::Bytes(&rest[..length])
}

/// The bytes from offset `place` on; none if it is past the end.
pub fn rest_from(place: usize, body: &[u8]) -> &[u8]
    ensures { result.now ≡ drop place body.now }
{
    &body[place.min(body.len())..]
}

/// The places of the first `count` values from byte `start` on, up to the first value that `body` doesn't hold
/// completely.
pub fn plain_places(
    alloc: Global,
    kind: ColumnKind,
    count: usize,
    start: usize,
    body: &[u8],
) -> Result<Places, OutOfMemory>
    requires start { start ≤ length body.now }
    requires near { start < 2 ^ 33 }
    requires few { count < 2 ^ 33 }
    ensures { IfOk result (λ found. found ≡ plain.places kind count
        (plain.place_of_byte kind start) body.now) }
{
    match fixed_size(kind) {
        Some(size) => Ok(fixed_size_places(kind, size, count, start, body.len())),
        None => array_places(alloc, count, start, body),
    }
}

/// The size of each value of a type (bits for BOOLEAN, otherwise bytes); None for byte arrays.
pub fn fixed_size(kind: ColumnKind) -> Option<usize>
    ensures { result ≡ plain.fixed_size kind }
{
    match kind {
        ColumnKind::Boolean => Some(1),
        ColumnKind::Int32 | ColumnKind::Float => Some(4),
        ColumnKind::Int64 | ColumnKind::Double => Some(8),
        ColumnKind::Int96 => Some(12),
        ColumnKind::Fixed(size) => Some(size as usize),
        ColumnKind::ByteArray => None,
    }
}

/// The places of values of a fixed size, from byte `start` of a body of `length` bytes on.
fn fixed_size_places(
    kind: ColumnKind,
    size: usize,
    count: usize,
    start: usize,
    length: usize,
) -> Places
    requires start { start ≤ length }
    requires near { start < 2 ^ 33 }
    requires few { count < 2 ^ 33 }
    requires size { Some size ≡ plain.fixed_size kind }
    ensures { result ≡ stepped size (plain.place_of_byte kind length) count
        (plain.place_of_byte kind start) }
{
    match kind {
        // `count` booleans need at most `count` bytes; this limit keeps the bit positions within 64 bits.
        ColumnKind::Boolean => {
            stepped_places(size, 8 * length.min(start + count), count, 8 * start)
        }
        _ => stepped_places(size, length, count, start),
    }
}

/// The places of up to `count` values of `size` each, the first at `first`, which end at or before `end`.
fn stepped_places(size: usize, end: usize, count: usize, first: usize) -> Places
    requires first { first ≤ end }
    ensures { result ≡ stepped size end count first }
{
    if size == 0 {
        return Places::even(first, 0, count);
    }
    Places::even(first, size, count.min((end - first) / size))
}

/// The places of byte arrays: each begins where the previous one ends. The list takes four bytes for each array, or
/// eight in a body of 4 GiB or more.
fn array_places(
    alloc: Global,
    count: usize,
    start: usize,
    body: &[u8],
) -> Result<Places, OutOfMemory>
    requires { start ≤ length body.now }
    ensures { IfOk result (λ found. found ≡ plain.places kind_of.ByteArray count start body.now) }
{
    if body.len() < 4_294_967_296 {
        near_arrays(alloc, count, start, body)
    } else {
        far_arrays(alloc, count, start, body)
    }
}

fn near_arrays(
    alloc: Global,
    count: usize,
    start: usize,
    body: &[u8],
) -> Result<Places, OutOfMemory>
    requires start { start ≤ length body.now }
    requires small { length body.now < 2 ^ 32 }
    ensures { IfOk result (λ found. found ≡ plain.places kind_of.ByteArray count start body.now) }
{
    let mut places = Vec::new(alloc);
    let mut place = start;
    for _ in 0..count {
        let Some(next) = array_end(place, body) else {
            return Ok(Places::listed(places));
        };
        places.push(place as u32)?;
        place = next;
    }
    Ok(Places::listed(places))
}

fn far_arrays(alloc: Global, count: usize, start: usize, body: &[u8]) -> Result<Places, OutOfMemory>
    requires { start ≤ length body.now }
    ensures { IfOk result (λ found. found ≡ plain.places kind_of.ByteArray count start body.now) }
{
    let mut places = Vec::new(alloc);
    let mut place = start;
    for _ in 0..count {
        let Some(next) = array_end(place, body) else {
            return Ok(Places::wide(places));
        };
        places.push(place)?;
        place = next;
    }
    Ok(Places::wide(places))
}

/// The end of the byte array at a place, or None if `body` doesn't hold it completely.
fn array_end(place: usize, body: &[u8]) -> Option<usize>
    requires { place ≤ length body.now }
    ensures { result ≡ (if nat_le (plain.next_place kind_of.ByteArray place body.now)
        (length body.now) then Some (plain.next_place kind_of.ByteArray place body.now) else None) }
{
    let (length, rest) = body[place..].split_first_chunk::<4>()?;
    let length = u32::from_le_bytes(*length) as usize;
    if length > rest.len() {
        return None;
    }
    Some(place + 4 + length)
}
