// Parsing of a table's header into columns without cells.
ghost use Rattle.std.specs.Prelude.{◌≡◌, ◌<◌, ◌≤◌, ◌==◌, length, IfSome, if◌then◌else◌, Some, None, true, false, Ok, IfOk, IfErr, option_map};
ghost use Rattle.std.specs.FinSet.{empty};
ghost use Rattle.csv.specs.Records.{fields_of};
ghost use Rattle.plain_pages.specs.ColumnSpecs.{IsColumnSpec};
ghost use Rattle.table_text.specs.Headers as headers;
ghost use Rattle.table_text.specs.Records.{AreShort};
ghost use Rattle.table_text.specs.Tables.{IsRecordRefusalOf};

use crate::cells::is_utf8;
use crate::column_type::{ColumnType, type_read};
use crate::records::field_of;
use crate::refusals::RecordRefusal;
use csv::ByteRecord;
use parquet_types::ColumnSpec;
use plain_pages::TableColumn;
use pme_base::{Bytes, NameSet, OutOfMemory};
use std::alloc::Global;

/// The position of the last colon in a field.
#[tactic(auto, using(crate::proofs::HeaderLemmas::colon_step))]
fn last_colon(field: &[u8]) -> Option<usize>
    ensures { result ≡ headers.last_colon field.now }
{
    let mut last = None;
    for i in 0..field.len() {
        last = last_colon_after(field[i], i, last);
    }
    last
}

/// The position of the last colon in a field, with the guarantee that it lies inside the field.
#[tactic(auto, using(crate::proofs::HeaderLemmas::colon_inside))]
fn colon_place(field: &[u8]) -> Option<usize>
    ensures value { result ≡ headers.last_colon field.now }
    ensures inside { IfSome result (λ place. place < length field.now) }
{
    last_colon(field)
}

/// The position of the last colon up to and including `place`, where `last` is the last one before `place`.
fn last_colon_after(byte: u8, place: usize, last: Option<usize>) -> Option<usize>
    ensures { result ≡ (if byte == 58 then Some place else last) }
{
    if byte == b':' { Some(place) } else { last }
}

/// Parses a field of the header, `name:type`, into the name and the type.
#[tactic(auto, unfolding(crate::specs::Headers::heading_read))]
fn heading_read<'a>(field: &'a [u8]) -> Option<(&'a [u8], ColumnType)>
    ensures { option_map (λ h. (h.0.now, h.1)) result ≡ headers.heading_read field.now }
{
    match colon_place(field) {
        Some(colon) => heading(&field[..colon], type_read(&field[colon + 1..])),
        None => None,
    }
}

/// The name and the type of a column, if both are valid.
fn heading<'a>(name: &'a [u8], column_type: Option<ColumnType>) -> Option<(&'a [u8], ColumnType)>
    ensures { option_map (λ h. (h.0.now, h.1)) result ≡ headers.heading name.now column_type }
{
    match column_type {
        Some(named) => {
            if is_name(name) {
                Some((name, named))
            } else {
                None
            }
        }
        None => None,
    }
}

/// Whether a column may have this name: UTF-8 text that isn't empty.
#[tactic(auto, unfolding(crate::specs::Headers::is_name))]
fn is_name(name: &[u8]) -> bool
    ensures { result ≡ headers.is_name name.now }
{
    !name.is_empty() && is_utf8(name)
}

/// A column without cells.
fn empty_column(
    alloc: Global,
    name: &[u8],
    column_type: ColumnType,
) -> Result<TableColumn, OutOfMemory>
    requires { IsColumnSpec (headers.spec_of name.now column_type) }
    ensures { IfOk result (λ column. column ≡ headers.empty_column name.now column_type) }
{
    let spec = ColumnSpec {
        name: Bytes::copy_of(alloc, name)?,
        kind: column_type.kind,
        optional: column_type.optional,
        text: column_type.text,
    };
    Ok(TableColumn::new(alloc, spec))
}

/// Parses a field of the header and appends its column. The result is false if the field is malformed or repeats
/// the name of an earlier column.
fn add_column(
    alloc: Global,
    columns: &mut Vec<TableColumn>,
    earlier: &mut NameSet,
    field: &[u8],
) -> Result<bool, OutOfMemory>
    requires { length field.now ≤ 268435456 }
    ensures added { IfOk result (λ good. good ≡ true →
        option_map (headers.with_heading columns.old.items earlier.old)
        (headers.new_heading earlier.old field.now) ≡ Some (columns.new.items, earlier.new)) }
    ensures bad { IfOk result (λ good. good ≡ false →
        headers.new_heading earlier.old field.now ≡ None) }
{
    let Some((name, column_type)) = heading_read(field) else {
        return Ok(false);
    };
    let new = earlier.add(name)?;
    if !new {
        return Ok(false);
    }
    let column = empty_column(alloc, name, column_type)?;
    match columns.push(column) {
        Ok(()) => Ok(true),
        Err(_) => Err(OutOfMemory),
    }
}

/// Parses a header into columns without cells. BadField reports the first field that is malformed or repeats a name.
#[tactic(auto, using(crate::proofs::HeaderLemmas::column_step, crate::proofs::HeaderLemmas::column_bad))]
pub fn read_header(alloc: Global, names: &ByteRecord) -> Result<Vec<TableColumn>, RecordRefusal>
    requires { AreShort (fields_of names.now) }
    ensures ok { IfOk result (λ columns. headers.columns_read 0 empty (fields_of names.now) ≡
        Ok columns.items) }
    ensures err { IfErr result
        (λ e. IsRecordRefusalOf (headers.columns_read 0 empty (fields_of names.now)) e) }
{
    let mut columns = Vec::new(alloc);
    let mut earlier = NameSet::new(alloc);
    for i in 0..names.len() {
        let field = field_of(names, i);
        let Ok(good) = add_column(alloc, &mut columns, &mut earlier, field) else {
            return Err(RecordRefusal::OutOfMemory);
        };
        if !good {
            return Err(RecordRefusal::BadField(i as u64));
        }
    }
    Ok(columns)
}
