// Parsing of one field of a record into a cell, which is appended to its column.
ghost use Rattle.std.specs.Prelude.{◌≡◌, ◌≤◌, length, Some, None, true, false, IfOk, OnOk, IsErrOf, option_map};
ghost use Rattle.parquet_types.specs.declared.column.ColumnKind.TheVariants as kind_of;
ghost use Rattle.plain_pages.specs.Cells as cell;
ghost use Rattle.table_text.specs.Cells as cells;
ghost use Rattle.std.specs.Int.{w32, w64};
ghost use Rattle.table_text.specs.Numbers as numbers;
ghost use Rattle.table_text.specs.Tables as tables;

use crate::cells::{hex_of_size_read, hex_read, text_read, truth_read};
use crate::numbers::{int32_read, int64_read};
use crate::refusals::FieldRefusal;
use parquet_types::ColumnKind;
use plain_pages::{CellRef, TableColumn};

/// Parses a field by the type of its column and appends the cell. `scratch` holds decoded hex during the call; a
/// caller passes the same one for every cell, so that memory is seldom allocated.
#[tactic(auto, unfolding(crate::specs::Cells::cell_read))]
pub fn push_field(
    column: &mut TableColumn,
    field: &[u8],
    scratch: &mut Vec<u8>,
) -> Result<(), FieldRefusal>
    requires { length field.now ≤ 268435456 }
    ensures pushed { OnOk result (tables.cell_added column.old field.now ≡ Some column.new) }
    ensures bad { IsErrOf result FieldRefusal.Bad → tables.cell_added column.old field.now ≡ None }
{
    if field == b"\\N".as_slice() {
        return push_null(column);
    }
    push_value(column, field, scratch)
}

/// Appends a null, which only an OPTIONAL column accepts.
fn push_null(column: &mut TableColumn) -> Result<(), FieldRefusal>
    ensures pushed { OnOk result ((column.old.spec.optional ≡ true) ×
        (column.new ≡ tables.with_cell column.old cell.null)) }
    ensures bad { IsErrOf result FieldRefusal.Bad → column.old.spec.optional ≡ false }
{
    if !column.spec().optional {
        return Err(FieldRefusal::Bad);
    }
    column.push(CellRef::Null)?;
    Ok(())
}

/// Parses a field that isn't `\N` and appends its value.
fn push_value(
    column: &mut TableColumn,
    field: &[u8],
    scratch: &mut Vec<u8>,
) -> Result<(), FieldRefusal>
    requires { length field.now ≤ 268435456 }
    ensures pushed { OnOk result (option_map (tables.with_cell column.old)
        (cells.value_of_kind column.old.spec.kind column.old.spec.text field.now) ≡
        Some column.new) }
    ensures bad { IsErrOf result FieldRefusal.Bad →
        cells.value_of_kind column.old.spec.kind column.old.spec.text field.now ≡ None }
{
    match column.spec().kind {
        ColumnKind::Boolean => push_truth(column, field),
        ColumnKind::Int32 => push_int32(column, field),
        ColumnKind::Int64 => push_int64(column, field),
        ColumnKind::Int96 => push_hex_of_size(column, 12, field, scratch),
        ColumnKind::Float => push_hex_of_size(column, 4, field, scratch),
        ColumnKind::Double => push_hex_of_size(column, 8, field, scratch),
        ColumnKind::ByteArray => {
            if column.spec().text {
                push_text(column, field)
            } else {
                push_hex(column, field, scratch)
            }
        }
        ColumnKind::Fixed(size) => push_hex_of_size(column, size as usize, field, scratch),
    }
}

fn push_truth(column: &mut TableColumn, field: &[u8]) -> Result<(), FieldRefusal>
    requires { column.old.spec.kind ≡ kind_of.Boolean }
    ensures pushed { OnOk result (option_map (λ b. tables.with_cell column.old (cell.bool b))
        (cells.truth_read field.now) ≡ Some column.new) }
    ensures bad { IsErrOf result FieldRefusal.Bad → cells.truth_read field.now ≡ None }
{
    let Some(value) = truth_read(field) else {
        return Err(FieldRefusal::Bad);
    };
    column.push(CellRef::Bool(value))?;
    Ok(())
}

fn push_int32(column: &mut TableColumn, field: &[u8]) -> Result<(), FieldRefusal>
    requires { column.old.spec.kind ≡ kind_of.Int32 }
    ensures pushed { OnOk result (option_map (λ n. tables.with_cell column.old (cell.int32 n))
        (numbers.number_read w32 field.now) ≡ Some column.new) }
    ensures bad { IsErrOf result FieldRefusal.Bad → numbers.number_read w32 field.now ≡ None }
{
    let Some(value) = int32_read(field) else {
        return Err(FieldRefusal::Bad);
    };
    column.push(CellRef::Int32(value))?;
    Ok(())
}

fn push_int64(column: &mut TableColumn, field: &[u8]) -> Result<(), FieldRefusal>
    requires { column.old.spec.kind ≡ kind_of.Int64 }
    ensures pushed { OnOk result (option_map (λ n. tables.with_cell column.old (cell.int64 n))
        (numbers.number_read w64 field.now) ≡ Some column.new) }
    ensures bad { IsErrOf result FieldRefusal.Bad → numbers.number_read w64 field.now ≡ None }
{
    let Some(value) = int64_read(field) else {
        return Err(FieldRefusal::Bad);
    };
    column.push(CellRef::Int64(value))?;
    Ok(())
}

fn push_text(column: &mut TableColumn, field: &[u8]) -> Result<(), FieldRefusal>
    requires kind { column.old.spec.kind ≡ kind_of.ByteArray }
    requires size { length field.now ≤ 268435456 }
    ensures pushed { OnOk result (option_map (λ b. tables.with_cell column.old (cell.bytes b))
        (cells.text_read field.now) ≡ Some column.new) }
    ensures bad { IsErrOf result FieldRefusal.Bad → cells.text_read field.now ≡ None }
{
    let Some(text) = text_read(field) else {
        return Err(FieldRefusal::Bad);
    };
    column.push(CellRef::Bytes(text))?;
    Ok(())
}

fn push_hex(
    column: &mut TableColumn,
    field: &[u8],
    scratch: &mut Vec<u8>,
) -> Result<(), FieldRefusal>
    requires kind { column.old.spec.kind ≡ kind_of.ByteArray }
    requires size { length field.now ≤ 268435456 }
    ensures pushed { OnOk result (option_map (λ b. tables.with_cell column.old (cell.bytes b))
        (cells.hex_read field.now) ≡ Some column.new) }
    ensures bad { IsErrOf result FieldRefusal.Bad → cells.hex_read field.now ≡ None }
{
    // A fast path for empty cells.
    if field.is_empty() {
        column.push(CellRef::Bytes(field))?;
        return Ok(());
    }
    let Some(bytes) = hex_read(field, scratch)? else {
        return Err(FieldRefusal::Bad);
    };
    column.push(CellRef::Bytes(bytes))?;
    Ok(())
}

/// Parses a value of a type whose values have `size` bytes, and appends it.
fn push_hex_of_size(
    column: &mut TableColumn,
    size: usize,
    field: &[u8],
    scratch: &mut Vec<u8>,
) -> Result<(), FieldRefusal>
    requires { cells.IsOfSize size column.old.spec.kind }
    ensures pushed { OnOk result (option_map (λ b. tables.with_cell column.old (cell.bytes b))
        (cells.hex_of_size_read size field.now) ≡ Some column.new) }
    ensures bad { IsErrOf result FieldRefusal.Bad → cells.hex_of_size_read size field.now ≡ None }
{
    let Some(bytes) = hex_of_size_read(size, field, scratch)? else {
        return Err(FieldRefusal::Bad);
    };
    column.push(CellRef::Bytes(bytes))?;
    Ok(())
}
