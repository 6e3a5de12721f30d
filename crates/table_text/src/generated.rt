// Tables that are generated from a seed.
ghost use Rattle.std.specs.Prelude.{◌≡◌, ◌<◌, ◌≤◌, [], length, IfOk, OnOk};
ghost use Rattle.plain_pages.specs.ColumnSpecs.{IsColumnSpec};
ghost use Rattle.plain_pages.specs.Columns.{IsTable};
ghost use Rattle.table_text.specs.Generated as generated;
ghost use Rattle.table_text.specs.Tables as tables;

use parquet_types::{ColumnKind, ColumnSpec};
use plain_pages::{CellRef, Table, TableColumn};
use pme_base::{Bytes, OutOfMemory};
use rand_core::utils::NextWord;
use rand_pcg::Pcg32;
use std::alloc::Global;

/// The number of a row and the four random words from which its cells are made.
#[derive(Clone, Copy, Debug, PartialEq, Eq, Drop)]
struct Draws {
    number: u64,
    first: u32,
    second: u32,
    third: u32,
    fourth: u32,
}

/// The columns of a generated table.
#[derive(Debug, Drop)]
struct Columns {
    id: TableColumn,
    flag: TableColumn,
    city: TableColumn,
    amount: TableColumn,
    blob: TableColumn,
}

/// Generates a table with `rows` rows, at most 1,000,000, from the words of PCG32 with state `seed` and stream 1. Its
/// five columns have numbers, booleans, text, bytes and nulls.
pub fn generate(alloc: Global, seed: u64, rows: u64) -> Result<Table, OutOfMemory>
    requires { rows ≤ 1000000 }
    ensures { IfOk result (λ table. table ≡ generated.generated seed rows) }
{
    let columns = columns_drawn(alloc, seed, rows)?;
    table_of(alloc, columns)
}

/// Generates the columns with all their cells.
#[tactic(auto, using(crate::proofs::DrawLemmas::row_more, crate::proofs::DrawLemmas::are_generated, crate::proofs::DrawLemmas::are_even))]
fn columns_drawn(alloc: Global, seed: u64, rows: u64) -> Result<Columns, OutOfMemory>
    requires { rows ≤ 1000000 }
    ensures columns { IfOk result (λ columns. columns ≡ generated.columns_of
        (generated.rows_drawn rows (generated.seeded seed))) }
    ensures even { IfOk result (λ columns. IsTable (generated.column_list columns)) }
{
    let mut columns = Columns::new(alloc)?;
    let mut generator = seeded(seed);
    for number in 0..rows {
        let row = draw(&mut generator, number);
        match columns.push(alloc, row) {
            Ok(()) => {}
            Err(error) => return Err(error),
        }
    }
    Ok(columns)
}

fn table_of(alloc: Global, columns: Columns) -> Result<Table, OutOfMemory>
    requires { IsTable (generated.column_list columns) }
    ensures { IfOk result (λ table. table ≡ generated.column_list columns) }
{
    let mut table = Table::new(alloc);
    table.add(columns.id)?;
    table.add(columns.flag)?;
    table.add(columns.city)?;
    table.add(columns.amount)?;
    table.add(columns.blob)?;
    Ok(table)
}

#[tactic(auto, unfolding(crate::specs::Generated::seeded))]
fn seeded(seed: u64) -> Pcg32
    ensures { result ≡ generated.seeded seed }
{
    Pcg32::new(seed, 1)
}

fn next_word(generator: &mut Pcg32) -> u32
    ensures word { result ≡ generated.word generator.old }
    ensures later { generator.new ≡ generated.later generator.old }
{
    generator.next_word()
}

/// Draws the four words of a row from the generator.
#[tactic(auto, unfolding(crate::specs::Generated::row_at, crate::specs::Generated::state_after_row))]
fn draw(generator: &mut Pcg32, number: u64) -> Draws
    ensures drawn { result ≡ generated.row_at number generator.old }
    ensures number { result.number ≡ number }
    ensures state { generator.new ≡ generated.state_after_row generator.old }
{
    let first = next_word(generator);
    let second = next_word(generator);
    let third = next_word(generator);
    let fourth = next_word(generator);
    Draws {
        number,
        first,
        second,
        third,
        fourth,
    }
}

impl Columns {
    /// The columns without cells.
    fn new(alloc: Global) -> Result<Columns, OutOfMemory>
        ensures { IfOk result (λ columns. columns ≡ generated.columns_of []) }
    {
        Ok(Columns {
            id: empty(alloc, b"id", ColumnKind::Int64, false, false)?,
            flag: empty(alloc, b"flag", ColumnKind::Boolean, true, false)?,
            city: empty(alloc, b"city", ColumnKind::ByteArray, true, true)?,
            amount: empty(alloc, b"amount", ColumnKind::Int32, false, false)?,
            blob: empty(alloc, b"blob", ColumnKind::ByteArray, false, false)?,
        })
    }

    /// Appends the cells of a row.
    fn push(&mut self, alloc: Global, row: Draws) -> Result<(), OutOfMemory>
        requires specs { generated.AreGenerated self.old }
        requires few { row.number < 1000000 }
        ensures pushed { OnOk result (self.new ≡ generated.with_row self.old row) }
    {
        push_id(&mut self.id, row.number)?;
        push_flag(&mut self.flag, row.first)?;
        push_city(alloc, &mut self.city, row.second)?;
        push_amount(&mut self.amount, row.third)?;
        push_blob(&mut self.blob, row.fourth)?;
        Ok(())
    }
}

/// A column without cells.
fn empty(
    alloc: Global,
    name: &[u8],
    kind: ColumnKind,
    optional: bool,
    text: bool,
) -> Result<TableColumn, OutOfMemory>
    requires { IsColumnSpec (generated.spec_as name.now kind optional text) }
    ensures { IfOk result (λ column. column ≡ generated.empty
        (generated.spec_as name.now kind optional text)) }
{
    let spec = ColumnSpec {
        name: Bytes::copy_of(alloc, name)?,
        kind,
        optional,
        text,
    };
    Ok(TableColumn::new(alloc, spec))
}

/// Appends the number of a row.
fn push_id(column: &mut TableColumn, number: u64) -> Result<(), OutOfMemory>
    requires spec { column.old.spec ≡ generated.id_spec }
    requires few { number < 1000000 }
    ensures pushed { OnOk result (column.new ≡ tables.with_cell column.old
        (generated.id_of number)) }
{
    column.push(CellRef::Int64(number as i64))
}

fn push_flag(column: &mut TableColumn, word: u32) -> Result<(), OutOfMemory>
    requires { column.old.spec ≡ generated.flag_spec }
    ensures pushed { OnOk result (column.new ≡ tables.with_cell column.old
        (generated.flag_of word)) }
{
    if word % 8 == 0 {
        return column.push(CellRef::Null);
    }
    column.push(CellRef::Bool(word % 2 == 1))
}

fn push_city(alloc: Global, column: &mut TableColumn, word: u32) -> Result<(), OutOfMemory>
    requires { column.old.spec ≡ generated.city_spec }
    ensures pushed { OnOk result (column.new ≡ tables.with_cell column.old
        (generated.city_of word)) }
{
    if word % 16 == 0 {
        return column.push(CellRef::Null);
    }
    let text = city_text(alloc, word)?;
    column.push(CellRef::Bytes(text.as_slice()))
}

fn city_text(alloc: Global, word: u32) -> Result<Bytes, OutOfMemory>
    ensures text { IfOk result (λ text. text ≡ generated.city_text word) }
    ensures short { IfOk result (λ text. length text ≤ 268435456) }
{
    let digits = (word % 1000).to_string(alloc)?;
    let mut text = Bytes::copy_of(alloc, b"city-")?;
    text.extend(digits.as_bytes())?;
    Ok(text)
}

fn push_amount(column: &mut TableColumn, word: u32) -> Result<(), OutOfMemory>
    requires { column.old.spec ≡ generated.amount_spec }
    ensures pushed { OnOk result (column.new ≡ tables.with_cell column.old
        (generated.amount_of word)) }
{
    column.push(CellRef::Int32(amount_of(word)))
}

fn amount_of(word: u32) -> i32
    ensures { result ≡ generated.amount_in word }
{
    (word % 2_000_001) as i32 - 1_000_000
}

fn push_blob(column: &mut TableColumn, word: u32) -> Result<(), OutOfMemory>
    requires { column.old.spec ≡ generated.blob_spec }
    ensures pushed { OnOk result (column.new ≡ tables.with_cell column.old
        (generated.blob_of word)) }
{
    column.push(CellRef::Bytes(&word.to_be_bytes()))
}
