// Tables of equally long columns, and the pages that are written from them.
ghost use Rattle.std.specs.Prelude.{◌≡◌, ◌<◌, ◌≤◌, ◌-◌, ◌∷◌, ◌++◌, [], length, drop, slice_get, Some, OnOk, OnErr, option_map};
ghost use Rattle.plain_pages.specs.Cells.{cell_of};
ghost use Rattle.plain_pages.specs.Columns as columns;
ghost use Rattle.plain_pages.specs.Columns.{IsTable};
ghost use Rattle.plain_pages.specs.ColumnSpecs.{IsColumnSpec};

use crate::cell_ref::CellRef;
use crate::table_column::TableColumn;
use parquet_types::ColumnSpec;
use pme_base::{Bytes, OutOfMemory};
use std::alloc::Global;
use std::marker::Model;

/// Columns of equal length and with different names, each of which a table's header can name. Contracts see them as a
/// list.
#[derive(Debug, Drop)]
pub struct Table {
    columns: Vec<TableColumn>,
}

impl Model for Table {
    ghost use Rattle.std.specs.Prelude.{List};
    ghost use Rattle.plain_pages.specs.Columns.{Column, IsTable};

    ghost Value = { List Column };

    ghost view = { λ t. t.columns.items };

    ghost invariant = { λ t. IsTable t.columns.items };
}

impl Table {
    /// A table without columns and rows. It allocates nothing.
    pub fn new(alloc: Global) -> Table
        ensures { result ≡ [] }
    {
        Table {
            columns: Vec::new(alloc),
        }
    }

    /// The table of these columns, which must have equal lengths and different names.
    pub fn from_columns(columns: Vec<TableColumn>) -> Table
        requires { IsTable «columns».items }
        ensures { result ≡ «columns».items }
    {
        Table { columns }
    }

    /// Appends a column. It must have as many cells as the other columns and a name that none of them has. An error
    /// leaves the table unchanged.
    pub fn add(&mut self, column: TableColumn) -> Result<(), OutOfMemory>
        requires long { columns.IsNextColumn self.old column }
        requires new_name { columns.IsNewName column.spec.name self.old }
        ensures added { OnOk result (self.new ≡ self.old ++ column ∷ []) }
        ensures unchanged { OnErr result (self.new ≡ self.old) }
    {
        // The contract of `spec` says that a header can name the column; the proof needs it.
        let _spec = column.spec();
        self.columns.push(column)?;
        Ok(())
    }

    /// The number of rows; 0 without columns.
    pub fn rows(&self) -> usize
        ensures { result ≡ columns.rows_of self.now }
    {
        match self.columns.first() {
            Some(column) => column.len(),
            None => 0,
        }
    }

    /// The number of columns.
    pub fn columns(&self) -> usize
        ensures count { result ≡ length self.now }
        ensures table { IsTable self.now }
    {
        self.columns.len()
    }

    /// The name, type and optionality of a column. A table's header can name it.
    pub fn spec(&self, column: usize) -> &ColumnSpec
        requires { column < length self.now }
        ensures spec { option_map (λ c. c.spec) (slice_get self.now column) ≡ Some result.now }
        ensures named { IsColumnSpec result.now }
    {
        self.column(column).spec()
    }

    /// The cell of a column in a row, borrowed without a copy.
    pub fn cell(&self, column: usize, row: usize) -> CellRef<'_>
        requires column { column < length self.now }
        requires row { row < columns.rows_of self.now }
        ensures cell { columns.cell_in self.now column row ≡ Some (cell_of result) }
        ensures of_spec { (c : columns.Column) → slice_get self.now column ≡ Some c →
            columns.IsCellOf c.spec (cell_of result) }
    {
        self.column(column).cell(row)
    }

    fn column(&self, column: usize) -> &TableColumn
        requires { column < length self.now }
        ensures item { slice_get self.now column ≡ Some result.now }
        ensures rows { length result.now.cells ≡ columns.rows_of self.now }
    {
        &self.columns[column]
    }
}

/// Appends to `into` the page body of rows `from` (included) to `to` (excluded) of a column: for an OPTIONAL column its
/// definition levels as one bit-packed run, then the PLAIN values. An error leaves `into` unchanged.
pub fn write_page(
    table: &Table,
    column: usize,
    from: usize,
    to: usize,
    into: &mut Bytes,
) -> Result<(), OutOfMemory>
    requires column { column < length table.now }
    requires order { from ≤ to }
    requires inside { to ≤ columns.rows_of table.now }
    requires few { to - from ≤ 16777216 }
    ensures written { (c : columns.Column) → slice_get table.now column ≡ Some c →
        OnOk result (into.new ≡ into.old ++ columns.page_text c.spec (columns.rows_between from to c.cells)) }
    ensures read_back { (c : columns.Column) → slice_get table.now column ≡ Some c →
        OnOk result (columns.IsPageOf c.spec (columns.rows_between from to c.cells)
        (drop (length into.old) into.new)) }
    ensures unchanged { OnErr result (into.new ≡ into.old) }
{
    table.column(column).write_rows(from, to, into)
}
