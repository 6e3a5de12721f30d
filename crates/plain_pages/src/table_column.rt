// A column of a table, which keeps its cells as definition levels and encoded values.
ghost use Rattle.std.specs.Prelude.{◌≡◌, ◌+◌, ◌<◌, ◌≤◌, ◌-◌, ◌∷◌, ◌++◌, [], true, false, length, take, drop, slice_get, Some, OnOk, OnErr};
ghost use Rattle.std.specs.Prelude.{slice_index, ◌%◌, ◌*◌, IsOk, vec_len, vec_capacity};
ghost use Rattle.std.specs.Int.{w32, to_le_bytes};
ghost use Rattle.plain_pages.specs.Cells.{cell_of, bytes as bytes_cell};
ghost use Rattle.plain_pages.specs.Columns as columns;
ghost use Rattle.plain_pages.specs.ColumnSpecs.{IsColumnSpec};
ghost use Rattle.plain_pages.specs.Plain as plain;
ghost use Rattle.parquet_types.specs.declared.column.ColumnKind.TheVariants as kind_of;

use crate::cell_ref::CellRef;
use crate::page_writing::append_page;
use crate::plain::{cell_at, fixed_size, rest_from};
use parquet_types::{ColumnKind, ColumnSpec};
use pme_base::{Bytes, OutOfMemory};
use std::alloc::Global;
use std::marker::Model;

/// A column of a table. In addition to the bytes of its values it needs half a byte for each cell, and another byte if
/// it is OPTIONAL.
#[derive(Debug, Drop)]
pub struct TableColumn {
    spec: ColumnSpec,
    count: usize,
    // The definition levels of an OPTIONAL column: 0 for a null and 1 for a value. Empty for a REQUIRED column.
    levels: Vec<u8>,
    // The offset in `values` of every sixteenth cell.
    marks: Vec<usize>,
    // The values one after another in the PLAIN encoding, except that a boolean takes a byte of 0 or 1.
    values: Vec<u8>,
}

impl Model for TableColumn {
    ghost use Rattle.std.specs.Prelude.{vec_capacity};
    ghost use Rattle.plain_pages.specs.Columns.{Column, IsKept, cells_kept, levels_in};

    ghost Value = { Column };

    ghost view = { λ c. record { spec = c.spec; cells = cells_kept c.spec.kind (levels_in c.spec.optional c.count c.levels.items) c.values.items } };

    ghost invariant = { λ c. IsKept c.spec (cells_kept c.spec.kind (levels_in c.spec.optional c.count c.levels.items) c.values.items) c.count c.levels.items c.marks.items c.values.items (vec_capacity c.levels) };
}

impl TableColumn {
    /// A column without cells; it allocates nothing. A table's header must be able to name it: its name is UTF-8 text
    /// of 1 to 268,435,456 bytes, only byte arrays are text, and a fixed size is 1 to 65,536 bytes.
    pub fn new(alloc: Global, spec: ColumnSpec) -> TableColumn
        requires { IsColumnSpec spec }
        ensures { result ≡ record { spec = spec; cells = [] } }
    {
        TableColumn {
            spec,
            count: 0,
            levels: Vec::new(alloc),
            marks: Vec::new(alloc),
            values: Vec::new(alloc),
        }
    }

    /// The number of cells.
    pub fn len(&self) -> usize
        ensures { result ≡ length self.now.cells }
    {
        self.count
    }

    /// The name, type and optionality of the column.
    pub fn spec(&self) -> &ColumnSpec
        ensures spec { result.now ≡ self.now.spec }
        ensures named { IsColumnSpec result.now }
    {
        &self.spec
    }

    /// Appends a cell. The column must be able to hold it: a value of its physical type with at most 268,435,456
    /// bytes, or null if it is OPTIONAL. An error leaves the column unchanged.
    // Inlined together with `put_value`, so that a caller runs only the code for its own kind of cell.
    #[inline(always)]
    pub fn push(&mut self, cell: CellRef<'_>) -> Result<(), OutOfMemory>
        requires { columns.IsCellOf self.old.spec (cell_of cell) }
        ensures pushed { OnOk result
            (self.new ≡ record self.old { cells = self.old.cells ++ cell_of cell.entry ∷ [] }) }
        ensures unchanged { OnErr result (self.new ≡ self.old) }
    {
        put_mark(
            self.spec.optional,
            self.count,
            self.values.len(),
            &mut self.levels,
            &mut self.marks,
        )?;
        put_value(&self.spec, cell, &mut self.values)?;
        put_level(
            self.spec.optional,
            self.count,
            level_of(cell),
            &mut self.levels,
        );
        self.count += 1;
        Ok(())
    }

    /// The cell of a row, borrowed without a copy.
    pub(crate) fn cell(&self, row: usize) -> CellRef<'_>
        requires { row < length self.now.cells }
        ensures cell { slice_get self.now.cells row ≡ Some (cell_of result) }
        ensures of_spec { columns.IsCellOf self.now.spec (cell_of result) }
    {
        let level = level_at(self.spec.optional, self.count, &self.levels, row);
        if level == 0 {
            return CellRef::Null;
        }
        value_at(self.spec.kind, self.start_of(row), self.values.as_slice())
    }

    /// Appends the page body of rows `from` (included) to `to` (excluded) to `into`. An error leaves `into` unchanged.
    pub(crate) fn write_rows(
        &self,
        from: usize,
        to: usize,
        into: &mut Bytes,
    ) -> Result<(), OutOfMemory>
        requires order { from ≤ to }
        requires inside { to ≤ length self.now.cells }
        requires few { to - from ≤ 16777216 }
        ensures written { OnOk result (into.new ≡ into.old ++ columns.page_text self.now.spec
            (columns.rows_between from to self.now.cells)) }
        ensures read_back { OnOk result (columns.IsPageOf self.now.spec
            (columns.rows_between from to self.now.cells) (drop (length into.old) into.new)) }
        ensures unchanged { OnErr result (into.new ≡ into.old) }
    {
        let mut bytes = into.take();
        let length = bytes.len();
        let written = self.append_rows(from, to, &mut bytes);
        if written.is_err() {
            bytes.truncate(length);
        }
        *into = Bytes::from_vec(bytes);
        written
    }

    /// Appends the page body of a range of rows. An error may leave part of the page after the previous bytes.
    fn append_rows(&self, from: usize, to: usize, bytes: &mut Vec<u8>) -> Result<(), OutOfMemory>
        requires order { from ≤ to }
        requires inside { to ≤ length self.now.cells }
        requires few { to - from ≤ 16777216 }
        ensures appended { OnOk result (bytes.new.items ≡ bytes.old.items ++
            columns.page_text self.now.spec (columns.rows_between from to self.now.cells)) }
        ensures kept { OnErr result (take (length bytes.old.items) bytes.new.items ≡
            bytes.old.items) }
        ensures page { columns.IsPageOf self.now.spec (columns.rows_between from to self.now.cells)
            (columns.page_text self.now.spec (columns.rows_between from to self.now.cells)) }
    {
        append_page(
            &self.spec,
            self.levels_between(from, to),
            self.values_between(from, to),
            bytes,
        )
    }

    /// The definition levels of a range of rows in an OPTIONAL column; empty for a REQUIRED column.
    fn levels_between(&self, from: usize, to: usize) -> &[u8]
        requires order { from ≤ to }
        requires inside { to ≤ length self.now.cells }
        ensures levels { self.now.spec.optional ≡ true → result.now ≡
            columns.levels_of (columns.rows_between from to self.now.cells) }
        ensures few { length result.now ≤ to - from }
    {
        let levels = self.levels.as_slice();
        if self.spec.optional {
            part(levels, from, to)
        } else {
            part(levels, 0, 0)
        }
    }

    /// The stored values of a range of rows.
    fn values_between(&self, from: usize, to: usize) -> &[u8]
        requires order { from ≤ to }
        requires inside { to ≤ length self.now.cells }
        ensures { result.now ≡ columns.values_text self.now.spec.kind
            (columns.rows_between from to self.now.cells) }
    {
        let start = self.start_of(from);
        let end = self.start_of(to);
        part(self.values.as_slice(), start, end)
    }

    /// The offset in `values` at which a row's value begins; for the row after the last, the end of `values`.
    fn start_of(&self, row: usize) -> usize
        requires { row ≤ length self.now.cells }
        ensures { result ≡ columns.start_of self.now.spec.kind self.now.cells row }
    {
        let mut start = match self.marks.get(row / 16) {
            Some(mark) => *mark,
            None => return self.values.len(),
        };
        for i in row / 16 * 16..row {
            let level = level_at(self.spec.optional, self.count, &self.levels, i);
            start += size_at(self.spec.kind, level, start, self.values.as_slice());
        }
        start
    }
}

/// The number of bytes that a cell with this definition level takes from `start` on.
fn size_at(kind: ColumnKind, level: u8, start: usize, values: &[u8]) -> usize
    ensures { start + columns.size_kept kind level (drop start values.now) ≤ length values.now →
        result ≡ columns.size_kept kind level (drop start values.now) }
{
    if level == 0 {
        return 0;
    }
    match fixed_size(kind) {
        Some(size) => size,
        None => array_size(start, values),
    }
}

/// The number of bytes of the byte array at `start`, with its four-byte length.
fn array_size(start: usize, values: &[u8]) -> usize
    ensures { start + plain.value_size kind_of.ByteArray (drop start values.now) ≤
        length values.now → result ≡ plain.value_size kind_of.ByteArray (drop start values.now) }
{
    match rest_from(start, values).first_chunk::<4>() {
        Some(length) => 4 + u32::from_le_bytes(*length) as usize,
        None => 0,
    }
}

fn part(bytes: &[u8], start: usize, end: usize) -> &[u8]
    requires order { start ≤ end }
    requires inside { end ≤ length bytes.now }
    ensures { result.now ≡ take (end - start) (drop start bytes.now) }
{
    &bytes[start..end]
}

/// Appends the next cell's offset to `marks` if its number is a multiple of 16. For an OPTIONAL column it then also
/// reserves capacity for the levels of the next 16 cells.
#[inline(always)]
fn put_mark(
    optional: bool,
    count: usize,
    place: usize,
    levels: &mut Vec<u8>,
    marks: &mut Vec<usize>,
) -> Result<(), OutOfMemory>
    requires counted { optional ≡ true → length levels.old.items ≡ count }
    requires capacity { optional ≡ true → 16 * length marks.old.items ≤ vec_capacity levels.old }
    ensures marked { OnOk result (marks.new.items ≡ columns.marked count place marks.old.items) }
    ensures unchanged { OnErr result (marks.new.items ≡ marks.old.items) }
    ensures levels { levels.new.items ≡ levels.old.items }
    ensures capacity { optional ≡ true → 16 * length marks.new.items ≤ vec_capacity levels.new }
{
    if count / 16 == marks.len() {
        add_mark(optional, place, levels, marks)?;
    }
    Ok(())
}

// Called for one cell in sixteen, and not inlined so that `push` stays small.
#[cold]
#[inline(never)]
fn add_mark(
    optional: bool,
    place: usize,
    levels: &mut Vec<u8>,
    marks: &mut Vec<usize>,
) -> Result<(), OutOfMemory>
    requires capacity { optional ≡ true → 16 * length marks.old.items ≤ vec_capacity levels.old }
    requires due { optional ≡ true → 16 * length marks.old.items ≤ length levels.old.items }
    ensures marked { OnOk result (marks.new.items ≡ marks.old.items ++ place ∷ []) }
    ensures unchanged { OnErr result (marks.new.items ≡ marks.old.items) }
    ensures levels { levels.new.items ≡ levels.old.items }
    ensures capacity { optional ≡ true → 16 * length marks.new.items ≤ vec_capacity levels.new }
{
    if optional {
        make_room(16, levels)?;
    }
    make_room(1, marks)?;
    marks.push_reserved(place);
    Ok(())
}

/// Appends the definition level of cell number `count`, if the column is OPTIONAL.
#[inline(always)]
fn put_level(optional: bool, count: usize, level: u8, levels: &mut Vec<u8>)
    requires counted { optional ≡ true → length levels.old.items ≡ count }
    requires capacity { optional ≡ true → vec_len levels.old < vec_capacity levels.old }
    requires required { optional ≡ false → level ≡ 1 }
    ensures levels { columns.levels_in optional (count + 1) levels.new.items ≡
        columns.levels_in optional count levels.old.items ++ level ∷ [] }
    ensures capacity { vec_capacity levels.new ≡ vec_capacity levels.old }
{
    if optional {
        levels.push_reserved(level);
    }
}

/// The definition level of a row of a column with `count` cells.
fn level_at(optional: bool, count: usize, levels: &Vec<u8>, row: usize) -> u8
    requires counted { optional ≡ true → length levels.now.items ≡ count }
    requires inside { row < count }
    ensures { result ≡ slice_index (columns.levels_in optional count levels.now.items) row }
{
    if optional { levels[row] } else { 1 }
}

/// The definition level of a cell: 0 for a null and 1 for a value.
fn level_of(cell: CellRef<'_>) -> u8
    ensures { result ≡ columns.level_of (cell_of cell.entry) }
{
    match cell {
        CellRef::Null => 0,
        _ => 1,
    }
}

/// The stored value that begins at offset `start`.
fn value_at<'a>(kind: ColumnKind, start: usize, values: &'a [u8]) -> CellRef<'a>
    ensures { cell_of result ≡ columns.value_kept kind start values.now }
{
    match kind {
        ColumnKind::Boolean => CellRef::Bool(byte_at(start, values) % 2 == 1),
        _ => cell_at(kind, start, values),
    }
}

/// The byte at offset `start`, or 0 past the end.
fn byte_at(start: usize, values: &[u8]) -> u8
    ensures { result ≡ slice_index (drop start values.now) 0 }
{
    if start < values.len() {
        values[start]
    } else {
        0
    }
}

/// Appends the stored bytes of a cell to `values`. An error leaves `values` unchanged.
#[inline(always)]
fn put_value(spec: &ColumnSpec, cell: CellRef<'_>, values: &mut Vec<u8>) -> Result<(), OutOfMemory>
    requires { columns.IsCellOf spec.now (cell_of cell) }
    ensures put { OnOk result (values.new.items ≡ values.old.items ++
        columns.text_of spec.now.kind (cell_of cell.entry)) }
    ensures unchanged { OnErr result (values.new.items ≡ values.old.items) }
{
    match cell {
        CellRef::Null => Ok(()),
        CellRef::Bool(value) => put_bytes(&[u8::from(value)], values),
        CellRef::Int32(value) => put_bytes(&value.to_le_bytes(), values),
        CellRef::Int64(value) => put_bytes(&value.to_le_bytes(), values),
        CellRef::Bytes(bytes) => put_raw(spec.kind, bytes, values),
    }
}

/// Appends a value's bytes, preceded by their length for a byte array.
#[inline(always)]
fn put_raw(kind: ColumnKind, bytes: &[u8], values: &mut Vec<u8>) -> Result<(), OutOfMemory>
    requires { columns.IsValueOf kind (bytes_cell bytes.now) }
    ensures put { OnOk result (values.new.items ≡ values.old.items ++
        columns.text_of kind (bytes_cell bytes.now)) }
    ensures unchanged { OnErr result (values.new.items ≡ values.old.items) }
{
    match kind {
        ColumnKind::ByteArray => put_array(bytes, values),
        _ => put_bytes(bytes, values),
    }
}

/// Appends a byte array: its length in four bytes, then its bytes.
#[inline(always)]
fn put_array(bytes: &[u8], values: &mut Vec<u8>) -> Result<(), OutOfMemory>
    requires { length bytes.now ≤ 268435456 }
    ensures put { OnOk result (values.new.items ≡ values.old.items ++
        (to_le_bytes w32 (length bytes.now) ++ bytes.now)) }
    ensures unchanged { OnErr result (values.new.items ≡ values.old.items) }
{
    make_room(4 + bytes.len(), values)?;
    values.extend_from_slice(&(bytes.len() as u32).to_le_bytes())?;
    put_within(bytes, values)
}

/// Appends bytes to `values`. An error leaves `values` unchanged.
#[inline(always)]
pub fn put_bytes(bytes: &[u8], values: &mut Vec<u8>) -> Result<(), OutOfMemory>
    ensures put { OnOk result (values.new.items ≡ values.old.items ++ bytes.now) }
    ensures unchanged { OnErr result (values.new.items ≡ values.old.items) }
{
    make_room(bytes.len(), values)?;
    values.extend_from_slice(bytes)?;
    Ok(())
}

/// Appends bytes for which `values` has the capacity. Fewer than eight are pushed one by one, which is faster than a
/// call for the short texts that most tables hold.
#[inline(always)]
fn put_within(bytes: &[u8], values: &mut Vec<u8>) -> Result<(), OutOfMemory>
    requires { vec_len values.old + length bytes.now ≤ vec_capacity values.old }
    ensures put { values.new.items ≡ values.old.items ++ bytes.now }
    ensures succeeds { IsOk result }
{
    if bytes.len() < 8 {
        for byte in bytes {
            values.push_reserved(*byte);
        }
        return Ok(());
    }
    values.extend_from_slice(bytes)?;
    Ok(())
}

/// Makes sure that `items` has the capacity for `more` further items.
#[inline(always)]
fn make_room<T>(more: usize, items: &mut Vec<T>) -> Result<(), OutOfMemory>
    ensures capacity { OnOk result (vec_len items.new + more ≤ vec_capacity items.new) }
    ensures unchanged { items.new.items ≡ items.old.items }
{
    if items.capacity() - items.len() < more {
        grow(more, items)?;
    }
    Ok(())
}

// Not inlined, like `add_mark`. The capacity grows by a quarter: with doubling, each of many short columns could hold up
// to twice the memory that it needs.
#[cold]
#[inline(never)]
fn grow<T>(more: usize, items: &mut Vec<T>) -> Result<(), OutOfMemory>
    ensures capacity { OnOk result (vec_len items.new + more ≤ vec_capacity items.new) }
    ensures unchanged { items.new.items ≡ items.old.items }
{
    items.reserve_exact(more.max(items.len() / 4))?;
    Ok(())
}
