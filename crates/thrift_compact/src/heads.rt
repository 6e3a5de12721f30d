// Reading the heads of lists, sets, maps and fields: element types, counts and field ids.
ghost use Rattle.std.specs.Prelude.{◌≡◌, ◌<◌, ◌≤◌, length, [], ◌∷◌, ◌++◌, OnOk};
ghost use Rattle.thrift_compact.specs.Answers.{Gives, Answer, Adds};
ghost use Rattle.thrift_compact.specs.Kinds.{of_code};
ghost use Rattle.thrift_compact.specs.Reading.{known_kind, list_size as list_size_at, list_head as list_head_at, map_kinds as map_kinds_at, id_at, new_id, field_head as field_head_at};

use crate::cursor::{Cursor, Stop};
use crate::ids::Ids;
use crate::kind::TKind;
use pme_base::ThriftFault;

/// Returns the kind with this type code, or WrongType. `left` is the number of bytes from the code's byte to the end.
#[inline]
fn kind_of_code(left: usize, code: u8) -> Result<TKind, Stop>
    ensures { Answer (λ kind. kind) result (known_kind left (of_code code)) }
{
    match TKind::of_code(code) {
        Some(kind) => Ok(kind),
        None => Err(Stop::Fault(ThriftFault::WrongType, left)),
    }
}

/// Reads the number of elements of a list: `high`, the high half of its first byte, or a varint where `high` is 15.
fn list_size(cursor: &mut Cursor<'_>, high: u8) -> Result<u32, Stop>
    ensures value { Gives (λ n. n) result cursor.new (list_size_at high cursor.old) }
    ensures shorter { OnOk result (length cursor.new ≤ length cursor.old) }
{
    if high == 15 {
        cursor.size()
    } else {
        Ok(high as u32)
    }
}

/// Reads the head of a list or a set: the kind of its elements and their number.
pub(crate) fn list_head(cursor: &mut Cursor<'_>) -> Result<(TKind, u32), Stop>
    ensures value { Gives (λ head. head) result cursor.new (list_head_at cursor.old) }
    ensures shorter { OnOk result (length cursor.new < length cursor.old) }
{
    let start = cursor.left();
    let byte = cursor.byte()?;
    let kind = kind_of_code(start, byte % 16)?;
    let count = list_size(cursor, byte / 16)?;
    Ok((kind, count))
}

/// Reads the byte with the kinds of a map's keys and values.
pub(crate) fn map_kinds(cursor: &mut Cursor<'_>) -> Result<(TKind, TKind), Stop>
    ensures value { Gives (λ kinds. kinds) result cursor.new (map_kinds_at cursor.old) }
    ensures shorter { OnOk result (length cursor.new < length cursor.old) }
{
    let start = cursor.left();
    let byte = cursor.byte()?;
    let key = kind_of_code(start, byte / 16)?;
    let value = kind_of_code(start, byte % 16)?;
    Ok((key, value))
}

/// Reads the id of a field: the previous id plus `delta`, or where `delta` is 0 a zigzag varint. `before` is the previous
/// id, and `left` the number of bytes from the field's first byte to the end.
#[inline]
fn field_id(cursor: &mut Cursor<'_>, before: i16, left: usize, delta: u8) -> Result<i16, Stop>
    ensures value { Gives (λ id. id) result cursor.new (id_at before left delta cursor.old) }
    ensures shorter { OnOk result (length cursor.new ≤ length cursor.old) }
{
    if delta == 0 {
        return cursor.int16();
    }
    let id = before as i32 + delta as i32;
    if id <= 32_767 {
        Ok(id as i16)
    } else {
        Err(Stop::Fault(ThriftFault::Range, left))
    }
}

/// Appends `id` to the struct's ids, or refuses it as Repeated if they contain it. `left` is the number of bytes from the
/// field's first byte to the end.
#[inline]
fn append_new_id(ids: &mut Ids, id: i16, left: usize) -> Result<(), Stop>
    ensures value { Answer (λ _. id) result (new_id left id ids.old) }
    ensures taken { OnOk result (ids.new ≡ ids.old ++ id ∷ []) }
{
    if ids.has(id) {
        return Err(Stop::Fault(ThriftFault::Repeated, left));
    }
    ids.push(id)?;
    Ok(())
}

/// Reads the head of a struct's next field and appends its id to `ids`. At the stop byte the answer is None.
pub(crate) fn field_head(
    cursor: &mut Cursor<'_>,
    ids: &mut Ids,
) -> Result<Option<(i16, TKind)>, Stop>
    ensures value { Gives (λ head. head) result cursor.new (field_head_at ids.old cursor.old) }
    ensures shorter { OnOk result (length cursor.new < length cursor.old) }
    ensures taken { Adds result ids.old ids.new }
{
    let start = cursor.left();
    let byte = cursor.byte()?;
    if byte == 0 {
        return Ok(None);
    }
    let kind = kind_of_code(start, byte % 16)?;
    let id = field_id(cursor, ids.last(), start, byte / 16)?;
    append_new_id(ids, id, start)?;
    Ok(Some((id, kind)))
}
