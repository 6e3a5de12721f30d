// Reads the value of a field that should have a given type. A value of another type is skipped.
ghost use Rattle.std.specs.Prelude.{◌≡◌, ◌≤◌, length, OnOk};
ghost use Rattle.parquet_fields.specs.Fields.{binary_of, truth_of, int16_of, int32_of, int64_of};
ghost use Rattle.parquet_fields.specs.Reads.{ReadsValue, Copies};

use crate::field_state::FieldState;
use pme_base::Bytes;
use std::alloc::Global;
use thrift_compact::{Reader, TKind, ThriftRefusal};

pub(crate) fn binary_field(
    alloc: Global,
    reader: &mut Reader<'_>,
    kind: TKind,
) -> Result<FieldState<Bytes>, ThriftRefusal>
    ensures value { ReadsValue binary_of kind reader.old reader.new result }
    ensures shorter { OnOk result (length reader.new.rest ≤ length reader.old.rest) }
{
    match kind {
        TKind::Binary => {
            let bytes = reader.binary()?;
            copy_of(alloc, bytes)
        }
        _ => {
            reader.skip(kind)?;
            Ok(FieldState::WrongType)
        }
    }
}

pub(crate) fn truth_field(
    reader: &mut Reader<'_>,
    kind: TKind,
) -> Result<FieldState<bool>, ThriftRefusal>
    ensures value { ReadsValue truth_of kind reader.old reader.new result }
    ensures shorter { OnOk result (length reader.new.rest ≤ length reader.old.rest) }
{
    reader.skip(kind)?;
    Ok(match kind {
        TKind::True => FieldState::Value(true),
        TKind::False => FieldState::Value(false),
        _ => FieldState::WrongType,
    })
}

pub(crate) fn int16_field(
    reader: &mut Reader<'_>,
    kind: TKind,
) -> Result<FieldState<i16>, ThriftRefusal>
    ensures value { ReadsValue int16_of kind reader.old reader.new result }
    ensures shorter { OnOk result (length reader.new.rest ≤ length reader.old.rest) }
{
    match kind {
        TKind::I16 => {
            let number = reader.whole(kind)?;
            Ok(FieldState::Value(number as i16))
        }
        _ => {
            reader.skip(kind)?;
            Ok(FieldState::WrongType)
        }
    }
}

pub(crate) fn int32_field(
    reader: &mut Reader<'_>,
    kind: TKind,
) -> Result<FieldState<i32>, ThriftRefusal>
    ensures value { ReadsValue int32_of kind reader.old reader.new result }
    ensures shorter { OnOk result (length reader.new.rest ≤ length reader.old.rest) }
{
    match kind {
        TKind::I32 => {
            let number = reader.whole(kind)?;
            Ok(FieldState::Value(number as i32))
        }
        _ => {
            reader.skip(kind)?;
            Ok(FieldState::WrongType)
        }
    }
}

pub(crate) fn int64_field(
    reader: &mut Reader<'_>,
    kind: TKind,
) -> Result<FieldState<i64>, ThriftRefusal>
    ensures value { ReadsValue int64_of kind reader.old reader.new result }
    ensures shorter { OnOk result (length reader.new.rest ≤ length reader.old.rest) }
{
    match kind {
        TKind::I64 => Ok(FieldState::Value(reader.whole(kind)?)),
        _ => {
            reader.skip(kind)?;
            Ok(FieldState::WrongType)
        }
    }
}

// A copy of the bytes as the value of a field.
fn copy_of(alloc: Global, bytes: &[u8]) -> Result<FieldState<Bytes>, ThriftRefusal>
    ensures { Copies bytes.now result }
{
    match Bytes::copy_of(alloc, bytes) {
        Ok(copy) => Ok(FieldState::Value(copy)),
        Err(_) => Err(ThriftRefusal::OutOfMemory),
    }
}
