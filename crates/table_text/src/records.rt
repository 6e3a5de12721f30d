// Reading of CSV text record by record, with the `csv` crate.
ghost use Rattle.std.specs.Prelude.{◌≡◌, ◌<◌, ◌≤◌, ◌∷◌, Some, [], length, true, false, IfOk};
ghost use Rattle.csv.specs.Records.{field_at, fields_of};
ghost use Rattle.table_text.specs.Records as records;

use csv::{ByteRecord, ErrorKind, Reader, ReaderBuilder};
use pme_base::OutOfMemory;
use std::alloc::Global;

/// A reader of the records of a text. It skips a byte order mark at the start.
pub fn open<'a>(alloc: Global, text: &'a [u8]) -> Reader<&'a [u8]>
    requires { length text.now ≤ 268435456 }
    ensures reading { records.IsReading result }
    ensures all { records.to_come result ≡ records.records_of text.now }
{
    ReaderBuilder::new()
        .has_headers(false)
        .flexible(true)
        .from_reader(alloc, text)
}

/// Reads the next record into `record`; false at the end of the text.
pub fn read_next(reader: &mut Reader<&[u8]>, record: &mut ByteRecord) -> Result<bool, OutOfMemory>
    requires { records.IsReading reader.old }
    ensures found { IfOk result (λ found. found ≡ true → records.to_come reader.old ≡
        fields_of record.new ∷ records.to_come reader.new) }
    ensures end { IfOk result (λ found. found ≡ false → records.to_come reader.old ≡ []) }
    ensures reading { IfOk result (λ found. found ≡ true → records.IsReading reader.new) }
    ensures short { IfOk result (λ found. found ≡ true → records.AreShort (fields_of record.new)) }
{
    match reader.read_byte_record(record) {
        Ok(found) => Ok(found),
        Err(error) => Err(cause_of(error.kind())),
    }
}

/// The error of a read from a slice, which is always OutOfMemory. By its contract `csv` may also report an error of the
/// underlying reader; a slice has none, so that case gives OutOfMemory too. Records of different lengths are no error.
fn cause_of(kind: &ErrorKind) -> OutOfMemory
    requires { records.IsOutside kind.now }
{
    match kind {
        ErrorKind::Io(_) => OutOfMemory,
        ErrorKind::OutOfMemory => OutOfMemory,
        ErrorKind::Utf8 { .. } => unreachable!(),
        ErrorKind::UnequalLengths { .. } => unreachable!(),
        ErrorKind::Serialize(_) => unreachable!(),
        ErrorKind::Deserialize { .. } => unreachable!(),
    }
}

/// Field number `i` of a record.
pub fn field_of<'a>(record: &'a ByteRecord, i: usize) -> &'a [u8]
    requires { i < length (fields_of record.now) }
    ensures { field_at (fields_of record.now) i ≡ Some result.now }
{
    match record.get(i) {
        Some(field) => field,
        None => unreachable!(),
    }
}
