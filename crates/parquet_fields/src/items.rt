// Reads lists. The first item that is refused or has the wrong type decides for the whole list.
ghost use Rattle.std.specs.Prelude.{◌≡◌, ◌≤◌, length, OnOk};
ghost use Rattle.parquet_fields.specs.Fields.{binary_of, list_of, items_of};
ghost use Rattle.parquet_fields.specs.Reads.{ReadsValue, ReadsItem, Adds};
ghost use Rattle.parquet_fields.specs.declared.field_state.FieldState.{FieldState};
ghost use Rattle.thrift_compact.specs.Answers.{mapped, skipped};
ghost use Rattle.thrift_compact.specs.Reading.{value as value_at, element, elements};
ghost use Rattle.thrift_compact.specs.Standing.{depth_left, GivesAt};
ghost use Rattle.thrift_compact.specs.Tree.{Tree};

use crate::field_state::FieldState;
use crate::values::binary_field;
use pme_base::{Bytes, Sequence};
use std::alloc::Global;
use thrift_compact::{Reader, TKind, ThriftRefusal};

/// A type of list items.
pub(crate) trait Item: Drop {
    ghost item: { Tree → FieldState Self };

    fn read_item(
        alloc: Global,
        reader: &mut Reader<'_>,
        kind: TKind,
    ) -> Result<FieldState<Self>, ThriftRefusal>
        ensures value { ReadsItem item kind reader.old reader.new result }
        ensures shorter { OnOk result (length reader.new.rest ≤ length reader.old.rest) };
}

impl Item for Bytes {
    ghost item = { binary_of };

    fn read_item(
        alloc: Global,
        reader: &mut Reader<'_>,
        kind: TKind,
    ) -> Result<FieldState<Bytes>, ThriftRefusal> {
        match kind {
            TKind::Binary => binary_field(alloc, reader, kind),
            _ => {
                reader.skip_element(kind)?;
                Ok(FieldState::WrongType)
            }
        }
    }
}

/// Reads a field that should hold a list of `I`. A value of another type is skipped.
pub(crate) fn list_field<I: Item>(
    alloc: Global,
    reader: &mut Reader<'_>,
    kind: TKind,
) -> Result<FieldState<Sequence<I>>, ThriftRefusal>
    ensures value { ReadsValue (list_of I.item) kind reader.old reader.new result }
    ensures shorter { OnOk result (length reader.new.rest ≤ length reader.old.rest) }
{
    match kind {
        TKind::List => read_list(alloc, reader),
        _ => {
            reader.skip(kind)?;
            Ok(FieldState::WrongType)
        }
    }
}

/// Reads a field that should hold a list of names.
pub(crate) fn names_field(
    alloc: Global,
    reader: &mut Reader<'_>,
    kind: TKind,
) -> Result<FieldState<Sequence<Bytes>>, ThriftRefusal>
    ensures value { ReadsValue (list_of binary_of) kind reader.old reader.new result }
    ensures shorter { OnOk result (length reader.new.rest ≤ length reader.old.rest) }
{
    list_field::<Bytes>(alloc, reader, kind)
}

fn read_list<I: Item>(
    alloc: Global,
    reader: &mut Reader<'_>,
) -> Result<FieldState<Sequence<I>>, ThriftRefusal>
    ensures value { ReadsValue (list_of I.item) TKind.List reader.old reader.new result }
    ensures shorter { OnOk result (length reader.new.rest ≤ length reader.old.rest) }
{
    let (kind, count) = reader.list_begin()?;
    let items = read_items(alloc, reader, kind, count)?;
    reader.list_end();
    Ok(items)
}

// Reads `count` items. The items after a bad one are skipped without a check of their types.
fn read_items<I: Item>(
    alloc: Global,
    reader: &mut Reader<'_>,
    kind: TKind,
    count: u32,
) -> Result<FieldState<Sequence<I>>, ThriftRefusal>
    ensures value { GivesAt (λ read. read) reader.old reader.new result
        (mapped (items_of I.item)
        (elements (element (value_at (depth_left reader.old)) kind) count reader.old.rest)) }
    ensures shorter { OnOk result (length reader.new.rest ≤ length reader.old.rest) }
{
    let mut items = Sequence::new(alloc);
    for turn in 0..count {
        match I::read_item(alloc, reader, kind)? {
            FieldState::Value(item) => append(&mut items, item)?,
            bad => {
                skip_items(reader, kind, count - turn - 1)?;
                return Ok(bad.as_items());
            }
        }
    }
    Ok(FieldState::Value(items))
}

fn append<I: Drop>(items: &mut Sequence<I>, item: I) -> Result<(), ThriftRefusal>
    ensures { Adds items.old item items.new result }
{
    match items.push(item) {
        Ok(()) => Ok(()),
        Err(_) => Err(ThriftRefusal::OutOfMemory),
    }
}

fn skip_items(reader: &mut Reader<'_>, kind: TKind, count: u32) -> Result<(), ThriftRefusal>
    ensures value { GivesAt (λ u. u) reader.old reader.new result
        (skipped (elements (element (value_at (depth_left reader.old)) kind) count reader.old.rest)) }
    ensures shorter { OnOk result (length reader.new.rest ≤ length reader.old.rest) }
{
    for _turn in 0..count {
        reader.skip_element(kind)?;
    }
    Ok(())
}
