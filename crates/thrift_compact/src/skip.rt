// Skipping a value of a given kind without building it.
ghost use Rattle.std.specs.Prelude.{◌≡◌, ◌<◌, ◌≤◌, length, OnOk};
ghost use Rattle.thrift_compact.specs.Answers.{Gives, skipped};
ghost use Rattle.thrift_compact.specs.Reading.{element, nest, value as value_at};

use crate::cursor::{Cursor, Stop};
use crate::heads::{field_head, list_head, map_kinds};
use crate::ids::Ids;
use crate::kind::TKind;
use std::alloc::Global;

/// Skips the value of a field. `depth_left` is the number of levels of structs, lists, sets and maps that may still be
/// opened.
#[cycle(skip)]
pub(crate) fn skip_value(
    alloc: Global,
    cursor: &mut Cursor<'_>,
    depth_left: u32,
    kind: TKind,
) -> Result<(), Stop>
    ensures value { Gives (λ u. u) result cursor.new
        (skipped (value_at depth_left kind cursor.old)) }
    ensures shorter { OnOk result (length cursor.new ≤ length cursor.old) }
{
    match kind {
        TKind::True => {}
        TKind::False => {}
        TKind::I8 => {
            cursor.int8()?;
        }
        TKind::I16 => {
            cursor.int16()?;
        }
        TKind::I32 => {
            cursor.int32()?;
        }
        TKind::I64 => {
            cursor.int64()?;
        }
        TKind::Double => {
            cursor.double()?;
        }
        TKind::Binary => {
            cursor.binary()?;
        }
        TKind::List => skip_list(alloc, cursor, depth_left)?,
        TKind::Set => skip_list(alloc, cursor, depth_left)?,
        TKind::Map => skip_map(alloc, cursor, depth_left)?,
        TKind::Struct => skip_fields(alloc, cursor, depth_left)?,
    }
    Ok(())
}

/// Skips an element of a list or set, or a key or value of a map. A boolean takes one byte there.
#[cycle(skip)]
pub(crate) fn skip_element(
    alloc: Global,
    cursor: &mut Cursor<'_>,
    depth_left: u32,
    kind: TKind,
) -> Result<(), Stop>
    ensures value { Gives (λ u. u) result cursor.new
        (skipped (element (value_at depth_left) kind cursor.old)) }
    ensures shorter { OnOk result (length cursor.new ≤ length cursor.old) }
{
    match kind {
        TKind::True => {
            cursor.truth()?;
            Ok(())
        }
        TKind::False => {
            cursor.truth()?;
            Ok(())
        }
        _ => skip_value(alloc, cursor, depth_left, kind),
    }
}

/// Skips a list or a set.
#[cycle(skip)]
fn skip_list(alloc: Global, cursor: &mut Cursor<'_>, depth_left: u32) -> Result<(), Stop>
    ensures value { Gives (λ u. u) result cursor.new
        (skipped ((nest depth_left).trees cursor.old)) }
    ensures shorter { OnOk result (length cursor.new ≤ length cursor.old) }
{
    let inner = cursor.enter(depth_left)?;
    let (kind, count) = list_head(cursor)?;
    for _turn in 0..count {
        skip_element(alloc, cursor, inner, kind)?;
    }
    Ok(())
}

#[cycle(skip)]
fn skip_map(alloc: Global, cursor: &mut Cursor<'_>, depth_left: u32) -> Result<(), Stop>
    ensures value { Gives (λ u. u) result cursor.new
        (skipped ((nest depth_left).pairs cursor.old)) }
    ensures shorter { OnOk result (length cursor.new ≤ length cursor.old) }
{
    let inner = cursor.enter(depth_left)?;
    let count = cursor.size()?;
    if count == 0 {
        return Ok(());
    }
    let (key_kind, value_kind) = map_kinds(cursor)?;
    for _turn in 0..count {
        skip_element(alloc, cursor, inner, key_kind)?;
        skip_element(alloc, cursor, inner, value_kind)?;
    }
    Ok(())
}

/// Skips the fields of a struct and its stop byte.
#[cycle(skip)]
fn skip_fields(alloc: Global, cursor: &mut Cursor<'_>, depth_left: u32) -> Result<(), Stop>
    ensures value { Gives (λ u. u) result cursor.new
        (skipped ((nest depth_left).fields cursor.old)) }
    ensures shorter { OnOk result (length cursor.new ≤ length cursor.old) }
{
    let inner = cursor.enter(depth_left)?;
    let mut ids = Ids::new(alloc);
    while let Some((_id, kind)) = field_head(cursor, &mut ids)? {
        skip_value(alloc, cursor, inner, kind)?;
    }
    Ok(())
}
