// Writing of cells, records and headers as CSV text.
ghost use Rattle.std.specs.Prelude.{◌≡◌, ◌<◌, ◌++◌, length, map, slice_get, codes, if◌then◌else◌, IfOk, OnOk, OnErr};
ghost use Rattle.std.specs.List.{AllByRecursion};
ghost use Rattle.csv.specs.Writing.{default_writer, row_text as record_text};
ghost use Rattle.std.specs.Fmt.{decimal, signed_decimal};
ghost use Rattle.hex.specs.Hex.{encode_lower};
ghost use Rattle.plain_pages.specs.Cells.{cell_of};
ghost use Rattle.plain_pages.specs.Columns.{IsCellOf};
ghost use Rattle.table_text.specs.Texts as texts;

use byte_texts::{allocator_of, push_decimal, push_hex, push_signed, push_truth};
use csv::WriterBuilder;
use parquet_types::{ColumnKind, ColumnSpec, FlatSchema};
use plain_pages::CellRef;
use pme_base::{Bytes, OutOfMemory, Sequence};
use std::alloc::Global;

/// The chosen columns, as column numbers.
pub type Choice = Sequence<usize>;

/// The texts of the cells of one record.
pub type CellTexts = Sequence<Bytes>;

/// Appends the text of a cell to `into`: `true` or `false`, a number in decimal, text with a leading backslash doubled,
/// other bytes as lower-case hex, and `\N` for a null. An error leaves `into` unchanged.
pub fn cell_text(spec: &ColumnSpec, cell: CellRef<'_>, into: &mut Bytes) -> Result<(), OutOfMemory>
    requires { IsCellOf spec.now (cell_of cell) }
    ensures written { OnOk result (into.new ≡ into.old ++ texts.cell_text spec.now
        (cell_of cell.entry)) }
    ensures unchanged { OnErr result (into.new ≡ into.old) }
{
    match cell {
        CellRef::Null => into.extend(b"\\N"),
        CellRef::Bool(value) => push_truth(into, value),
        CellRef::Int32(number) => push_signed(into, i64::from(number)),
        CellRef::Int64(number) => push_signed(into, number),
        CellRef::Bytes(bytes) => push_bytes(spec.kind, spec.text, bytes, into),
    }
}

/// Appends a byte array: text for a text column, hex for every other one.
fn push_bytes(
    kind: ColumnKind,
    text: bool,
    bytes: &[u8],
    into: &mut Bytes,
) -> Result<(), OutOfMemory>
    ensures written { OnOk result (into.new ≡ into.old ++ texts.bytes_text kind text bytes.now) }
    ensures unchanged { OnErr result (into.new ≡ into.old) }
{
    match kind {
        ColumnKind::ByteArray => {
            if text {
                push_escaped(bytes, into)
            } else {
                push_hex(into, bytes)
            }
        }
        _ => push_hex(into, bytes),
    }
}

/// Appends text, with a leading backslash doubled.
fn push_escaped(text: &[u8], into: &mut Bytes) -> Result<(), OutOfMemory>
    ensures written { OnOk result (into.new ≡ into.old ++ texts.escaped text.now) }
    ensures unchanged { OnErr result (into.new ≡ into.old) }
{
    if text.is_empty() || text[0] != b'\\' {
        return into.extend(text);
    }
    let mut escaped = Bytes::new(allocator_of(into));
    escaped.push(b'\\')?;
    escaped.extend(text)?;
    into.extend(escaped.as_slice())
}

/// Appends a record to `into`: its cells, at least one, separated by commas and quoted where necessary, then a line
/// feed. An error leaves `into` unchanged.
pub fn row_text(alloc: Global, cells: &CellTexts, into: &mut Bytes) -> Result<(), OutOfMemory>
    requires { 0 < length cells.now }
    ensures written { OnOk result (into.new ≡ into.old ++ record_text default_writer cells.now) }
    ensures unchanged { OnErr result (into.new ≡ into.old) }
{
    let fields = fields_of(alloc, cells)?;
    let mut writer = WriterBuilder::new().from_writer(Vec::new(alloc));
    if writer.write_fields(fields.as_slice()).is_err() || writer.flush().is_err() {
        return Err(OutOfMemory);
    }
    into.extend(writer.get_ref().as_slice())
}

/// The cells' texts as a list of slices.
fn fields_of<'a>(alloc: Global, cells: &'a CellTexts) -> Result<Vec<&'a [u8]>, OutOfMemory>
    ensures { IfOk result (λ fields. map (λ field. field.now) fields.items ≡ cells.now) }
{
    let mut fields = Vec::new(alloc);
    for cell in cells.as_slice() {
        fields.push(cell.as_slice())?;
    }
    Ok(fields)
}

/// Appends the header record of the chosen columns to `into`: each as `name:type`, followed by `?` if it is OPTIONAL.
/// `chosen` has at least one number, each of a column in `schema`. An error leaves `into` unchanged.
pub fn header_text(
    alloc: Global,
    schema: &FlatSchema,
    chosen: &Choice,
    into: &mut Bytes,
) -> Result<(), OutOfMemory>
    requires some { 0 < length chosen.now }
    requires inside { AllByRecursion (λ column. column < length schema.now) chosen.now }
    ensures written { OnOk result (into.new ≡ into.old ++ record_text default_writer
        (texts.headings schema.now chosen.now)) }
    ensures unchanged { OnErr result (into.new ≡ into.old) }
{
    let headings = headings_of(alloc, schema, chosen)?;
    row_text(alloc, &headings, into)
}

fn headings_of(
    alloc: Global,
    schema: &FlatSchema,
    chosen: &Choice,
) -> Result<CellTexts, OutOfMemory>
    ensures { IfOk result (λ headings. headings ≡ texts.headings schema.now chosen.now) }
{
    let mut headings = CellTexts::new(alloc);
    for column in chosen.as_slice() {
        headings.push(heading_of(alloc, schema, *column)?)?;
    }
    Ok(headings)
}

fn heading_of(alloc: Global, schema: &FlatSchema, column: usize) -> Result<Bytes, OutOfMemory>
    ensures { IfOk result (λ heading. heading ≡ texts.heading_of (slice_get schema.now column)) }
{
    match schema.get(column) {
        Some(spec) => heading_text(alloc, spec),
        None => Ok(Bytes::new(alloc)),
    }
}

/// The header field of a column: `name:type`, followed by `?` if it is OPTIONAL.
pub fn heading_text(alloc: Global, spec: &ColumnSpec) -> Result<Bytes, OutOfMemory>
    ensures { IfOk result (λ heading. heading ≡ texts.heading_text spec.now) }
{
    let mut heading = Bytes::copy_of(alloc, spec.name.as_slice())?;
    heading.push(b':')?;
    push_kind(spec.kind, spec.text, &mut heading)?;
    if spec.optional {
        heading.push(b'?')?;
    }
    Ok(heading)
}

/// Appends the name of a type.
fn push_kind(kind: ColumnKind, text: bool, into: &mut Bytes) -> Result<(), OutOfMemory>
    ensures { OnOk result (into.new ≡ into.old ++ texts.kind_text kind text) }
{
    match kind {
        ColumnKind::Boolean => into.extend(b"bool"),
        ColumnKind::Int32 => into.extend(b"int32"),
        ColumnKind::Int64 => into.extend(b"int64"),
        ColumnKind::Int96 => into.extend(b"int96"),
        ColumnKind::Float => into.extend(b"float"),
        ColumnKind::Double => into.extend(b"double"),
        ColumnKind::ByteArray => {
            if text {
                into.extend(b"text")
            } else {
                into.extend(b"bytes")
            }
        }
        ColumnKind::Fixed(size) => push_fixed(size, into),
    }
}

fn push_fixed(size: u32, into: &mut Bytes) -> Result<(), OutOfMemory>
    ensures { OnOk result (into.new ≡ into.old ++ (codes "fixed(" ++ decimal size ++ codes ")")) }
{
    into.extend(b"fixed(")?;
    push_decimal(into, u64::from(size))?;
    into.extend(b")")
}
