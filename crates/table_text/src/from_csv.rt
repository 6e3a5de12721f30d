// Parsing of CSV text into a table.
ghost use Rattle.std.specs.Prelude.{◌≡◌, ◌≤◌, length, Ok, OnOk, IfOk, IfErr};
ghost use Rattle.csv.specs.Records.{fields_of};
ghost use Rattle.table_text.specs.Records as records;
ghost use Rattle.table_text.specs.Tables as tables;

use crate::fields::push_field;
use crate::header::read_header;
use crate::records::{field_of, open, read_next};
use crate::refusals::{FieldRefusal, RecordRefusal};
use csv::{ByteRecord, Reader};
use plain_pages::{Table, TableColumn};
use std::alloc::Global;

/// Why a text isn't a valid table.
#[derive(Clone, Copy, Debug, PartialEq, Eq, Drop)]
pub enum TableRefusal {
    /// The number of the first bad record, where 0 is the header, and the number of its first bad field. A record with
    /// too few or too many fields is reported at the field after the last column.
    Bad { entry: u64, field: u64 },
    /// Memory was refused.
    OutOfMemory,
}

/// Parses CSV text of at most 268,435,456 bytes into a table. The first record names the columns, each as `name:type`
/// or, if it may hold nulls, `name:type?`. A byte order mark at the start is skipped.
pub fn table_from_csv(alloc: Global, bytes: &[u8]) -> Result<Table, TableRefusal>
    requires { length bytes.now ≤ 268435456 }
    ensures ok { IfOk result (λ table. tables.table bytes.now ≡ Ok table) }
    ensures err { IfErr result (λ e. tables.IsRefusalOf (tables.table bytes.now) e) }
{
    let mut reader = open(alloc, bytes);
    let mut record = ByteRecord::new(alloc);
    let Ok(found) = read_next(&mut reader, &mut record) else {
        return Err(TableRefusal::OutOfMemory);
    };
    if !found {
        return Err(TableRefusal::Bad { entry: 0, field: 0 });
    }
    let mut columns = match read_header(alloc, &record) {
        Ok(columns) => columns,
        Err(error) => return Err(in_record(error, 0)),
    };
    let mut scratch = Vec::new(alloc);
    if let Err(error) = read_rows(&mut reader, &mut record, &mut columns, &mut scratch) {
        return Err(error);
    }
    Ok(Table::from_columns(columns))
}

/// Parses all remaining records and appends their cells to the columns. The first of them has number 1.
#[tactic(auto, using(crate::proofs::TableLemmas::rows_step, crate::proofs::TableLemmas::rows_refused))]
fn read_rows(
    reader: &mut Reader<&[u8]>,
    record: &mut ByteRecord,
    columns: &mut Vec<TableColumn>,
    scratch: &mut Vec<u8>,
) -> Result<(), TableRefusal>
    requires { records.IsReading reader.old }
    ensures ok { OnOk result (tables.rows_added 1 columns.old.items (records.to_come reader.old) ≡
        Ok columns.new.items) }
    ensures err { IfErr result (λ e. tables.IsRefusalOf
        (tables.rows_added 1 columns.old.items (records.to_come reader.old)) e) }
{
    for entry in 1..u64::MAX {
        let Ok(found) = read_next(reader, record) else {
            return Err(TableRefusal::OutOfMemory);
        };
        if !found {
            return Ok(());
        }
        if let Err(error) = read_row(columns, record, entry, scratch) {
            return Err(error);
        }
    }
    Err(TableRefusal::OutOfMemory)
}

/// Parses record number `entry` and appends its cells to the columns.
fn read_row(
    columns: &mut Vec<TableColumn>,
    record: &ByteRecord,
    entry: u64,
    scratch: &mut Vec<u8>,
) -> Result<(), TableRefusal>
    requires { records.AreShort (fields_of record.now) }
    ensures ok { OnOk result (tables.row_read entry columns.old.items (fields_of record.now) ≡
        Ok columns.new.items) }
    ensures err { IfErr result (λ e. tables.IsRefusalOf
        (tables.row_read entry columns.old.items (fields_of record.now)) e) }
{
    if record.len() != columns.len() {
        return Err(TableRefusal::Bad {
            entry,
            field: columns.len() as u64,
        });
    }
    match add_record(columns, record, scratch) {
        Ok(()) => Ok(()),
        Err(error) => Err(in_record(error, entry)),
    }
}

/// The refusal of a table for an error in record number `entry`.
fn in_record(error: RecordRefusal, entry: u64) -> TableRefusal
    ensures { result ≡ tables.in_record error entry }
{
    match error {
        RecordRefusal::BadField(field) => TableRefusal::Bad { entry, field },
        RecordRefusal::OutOfMemory => TableRefusal::OutOfMemory,
    }
}

/// Parses a record with one field for each column, and appends its cells to the columns.
fn add_record(
    columns: &mut Vec<TableColumn>,
    record: &ByteRecord,
    scratch: &mut Vec<u8>,
) -> Result<(), RecordRefusal>
    requires long { length (fields_of record.now) ≡ length columns.old.items }
    requires short { records.AreShort (fields_of record.now) }
    ensures ok { OnOk result (tables.row_added 0 columns.old.items (fields_of record.now) ≡
        Ok columns.new.items) }
    ensures err { IfErr result (λ e. tables.IsRecordRefusalOf
        (tables.row_added 0 columns.old.items (fields_of record.now)) e) }
{
    for i in 0..columns.len() {
        let field = field_of(record, i);
        match push_field(&mut columns[i], field, scratch) {
            Ok(()) => {}
            Err(error) => return Err(at_field(error, i as u64)),
        }
    }
    Ok(())
}

/// The refusal of a record for an error in field number `field`.
fn at_field(error: FieldRefusal, field: u64) -> RecordRefusal
    ensures { result ≡ tables.at_field error field }
{
    match error {
        FieldRefusal::Bad => RecordRefusal::BadField(field),
        FieldRefusal::OutOfMemory => RecordRefusal::OutOfMemory,
    }
}
