// Tests of plain_pages.
ghost use Rattle.std.specs.Prelude.{◌≡◌, ◌<◌, false, length, IfOk};
ghost use Rattle.plain_pages.specs.Cells.{bytes as bytes_cell};
ghost use Rattle.plain_pages.specs.ColumnSpecs.{HasWord, IsColumnSpec};
ghost use Rattle.plain_pages.specs.Columns.{IsValueOf};

use parquet_types::{ColumnKind, ColumnSpec, DataHead};
use plain_pages::{CellRef, Dictionary, PageIndex, PageView, Table, TableColumn, write_page};
use pme_base::{Bytes, OutOfMemory, Place};
use std::alloc::{AllocError, Global};
use std::test::Fail;
use table_text::{TableRefusal, table_from_csv};

// A table with a required and an optional column of each type.
const EACH_TYPE: &str = "a:bool,b:int32,c:int64,d:int96,e:float,f:double,g:bytes,h:text,i:fixed(3),\
    j:bool?,k:int32?,l:int64?,m:int96?,n:float?,o:double?,p:bytes?,q:text?,r:fixed(3)?\n\
    true,-7,-2,000102030405060708090a0b,0000803f,000000000000f03f,00ff,ann,010203,\
    true,-7,-2,000102030405060708090a0b,0000803f,000000000000f03f,00ff,ann,010203\n\
    false,258,5,ffffffffffffffffffffffff,00000000,0000000000000000,,,000000,\
    \\N,\\N,\\N,\\N,\\N,\\N,\\N,\\N,\\N\n\
    true,258,5,ffffffffffffffffffffffff,00000000,0000000000000000,,\"a,b\",000000,\
    false,258,5,ffffffffffffffffffffffff,00000000,0000000000000000,,\"a,b\",000000\n";

fn spec_of(alloc: Global, kind: ColumnKind, optional: bool) -> ColumnSpec {
    ColumnSpec {
        name: Bytes::new(alloc),
        kind,
        optional,
        text: false,
    }
}

/// A column with the name `a` and no cells.
fn column_of(alloc: Global, kind: ColumnKind, optional: bool) -> Result<TableColumn, OutOfMemory>
    requires { HasWord kind false }
    ensures kind { IfOk result (λ column. column.spec.kind ≡ kind) }
    ensures optional { IfOk result (λ column. column.spec.optional ≡ optional) }
{
    let spec = ColumnSpec {
        name: Bytes::copy_of(alloc, b"a")?,
        kind,
        optional,
        text: false,
    };
    Ok(TableColumn::new(alloc, spec))
}

fn shown(alloc: Global, view: &PageView<'_>) -> Result<String, AllocError> {
    let mut text = String::new(alloc);
    for i in 0..view.count() {
        let cell = format!(in alloc; "{:?};", view.cell(i))?;
        text.push_str(cell.as_str())?;
    }
    Ok(text)
}

/// The cells of a page, or the detail of the error.
fn cells_or_error(
    alloc: Global,
    spec: &ColumnSpec,
    count: u16,
    encoding: i32,
    dictionary: Option<&Dictionary>,
    body: &[u8],
) -> Result<String, AllocError> {
    let head = DataHead {
        uncompressed: 0,
        compressed: 0,
        num_values: i32::from(count),
        encoding,
        level_encoding: 3,
    };
    match PageIndex::build(alloc, &Place::file(), spec, &head, dictionary, body) {
        Ok(index) => shown(alloc, &PageView::new(body, &index, dictionary)),
        Err(refusal) => format!(in alloc; "{:?}", refusal.detail),
    }
}

#[test]
fn reads_plain_pages_or_reports_the_first_fault(rt: HostRuntime) -> Result<(), Fail> {
    let rows: [(ColumnKind, bool, u16, &[u8], &str); 20] = [
        (
            ColumnKind::Int32,
            false,
            4,
            &[1, 0, 0, 0, 2, 0, 0, 0, 3, 0, 0, 0, 4, 0, 0, 0],
            "Int32(1);Int32(2);Int32(3);Int32(4);",
        ),
        (
            ColumnKind::Int32,
            false,
            2,
            &[255, 255, 255, 255, 4, 0, 0],
            "Part(Values, 1)",
        ),
        (
            ColumnKind::ByteArray,
            true,
            4,
            &[
                2, 0, 0, 0, 3, 13, 3, 0, 0, 0, 97, 110, 110, 0, 0, 0, 0, 3, 0, 0, 0, 97, 44, 98,
            ],
            "Bytes([97, 110, 110]);Null;Bytes([]);Bytes([97, 44, 98]);",
        ),
        (
            ColumnKind::Boolean,
            true,
            4,
            &[2, 0, 0, 0, 3, 0x0b, 0x05],
            "Bool(true);Bool(false);Null;Bool(true);",
        ),
        (
            ColumnKind::Int32,
            true,
            4,
            &[2, 0, 0, 0, 3, 2],
            "Part(Values, 0)",
        ),
        (
            ColumnKind::Int32,
            true,
            4,
            &[2, 0, 0, 0, 8, 0],
            "Null;Null;Null;Null;",
        ),
        (ColumnKind::Int32, true, 0, &[0, 0, 0, 0], ""),
        (ColumnKind::Int32, true, 0, &[], "Part(Levels, 0)"),
        (
            ColumnKind::Int32,
            true,
            2,
            &[2, 0, 0, 0, 4],
            "Part(Levels, 0)",
        ),
        (
            ColumnKind::Int32,
            true,
            2,
            &[2, 0, 0, 0, 4, 2],
            "Part(Levels, 0)",
        ),
        (
            ColumnKind::Int32,
            true,
            2,
            &[4, 0, 0, 0, 2, 0, 2, 2],
            "Part(Levels, 1)",
        ),
        (
            ColumnKind::Int32,
            true,
            2,
            &[2, 0, 0, 0, 2, 0, 2, 0],
            "Part(Levels, 1)",
        ),
        (
            ColumnKind::Boolean,
            false,
            9,
            &[0b1000_0001, 1],
            "Bool(true);Bool(false);Bool(false);Bool(false);Bool(false);Bool(false);Bool(false);Bool(true);Bool(true);",
        ),
        (ColumnKind::Boolean, false, 17, &[0, 0], "Part(Values, 16)"),
        (
            ColumnKind::Int64,
            false,
            1,
            &[254, 255, 255, 255, 255, 255, 255, 255],
            "Int64(-2);",
        ),
        (
            ColumnKind::Int96,
            false,
            1,
            &[1, 2, 3, 4, 5, 6, 7, 8, 9, 10, 11, 12],
            "Bytes([1, 2, 3, 4, 5, 6, 7, 8, 9, 10, 11, 12]);",
        ),
        (
            ColumnKind::Double,
            false,
            1,
            &[0, 0, 0, 0, 0, 0, 240],
            "Part(Values, 0)",
        ),
        (
            ColumnKind::Fixed(3),
            false,
            2,
            &[1, 2, 3, 4, 5, 6, 7],
            "Bytes([1, 2, 3]);Bytes([4, 5, 6]);",
        ),
        (
            ColumnKind::Fixed(0),
            true,
            3,
            &[2, 0, 0, 0, 3, 5],
            "Bytes([]);Null;Bytes([]);",
        ),
        (
            ColumnKind::ByteArray,
            false,
            2,
            &[1, 0, 0, 0, 9, 5, 0, 0, 0, 9],
            "Part(Values, 1)",
        ),
    ];
    for (kind, optional, count, body, expected) in rows {
        let spec = spec_of(rt.alloc(), kind, optional);
        let text = cells_or_error(rt.alloc(), &spec, count, 0, None, body)?;
        assert_eq!(rt; text.as_str(), expected);
    }
    Ok(())
}

#[test]
fn reads_indexes_into_a_dictionary(rt: HostRuntime) -> Result<(), Fail> {
    let rows: [(bool, u16, &[u8], &str); 11] = [
        (
            false,
            4,
            &[2, 3, 0xe4, 0],
            "Int32(7);Int32(8);Int32(9);Int32(10);",
        ),
        (false, 4, &[2, 8, 1], "Int32(8);Int32(8);Int32(8);Int32(8);"),
        (false, 4, &[0, 8], "Int32(7);Int32(7);Int32(7);Int32(7);"),
        (false, 4, &[3, 8, 4], "Part(Values, 0)"),
        (false, 4, &[33, 8, 0], "Part(Values, 0)"),
        (
            false,
            4,
            &[2, 3, 0xe4],
            "Int32(7);Int32(8);Int32(9);Int32(10);",
        ),
        (false, 5, &[2, 3, 0xe4], "Part(Values, 4)"),
        (false, 1, &[], "Part(Values, 0)"),
        (false, 0, &[], ""),
        (true, 2, &[2, 0, 0, 0, 4, 0], "Null;Null;"),
        (
            true,
            3,
            &[2, 0, 0, 0, 3, 5, 2, 3, 0x0e],
            "Int32(9);Null;Int32(10);",
        ),
    ];
    let spec = spec_of(rt.alloc(), ColumnKind::Int32, false);
    let entries = Bytes::copy_of(
        rt.alloc(),
        &[7, 0, 0, 0, 8, 0, 0, 0, 9, 0, 0, 0, 10, 0, 0, 0],
    )?;
    let dictionary = Dictionary::build(rt.alloc(), &Place::file(), &spec, 4, entries);
    let Ok(dictionary) = dictionary else {
        return Err(Fail::from("no dictionary"));
    };
    for (optional, count, body, expected) in rows {
        let spec = spec_of(rt.alloc(), ColumnKind::Int32, optional);
        let text = cells_or_error(rt.alloc(), &spec, count, 8, Some(&dictionary), body)?;
        assert_eq!(rt; text.as_str(), expected);
    }
    Ok(())
}

#[test]
fn reports_the_first_missing_entry(rt: HostRuntime) -> Result<(), Fail> {
    let spec = spec_of(rt.alloc(), ColumnKind::ByteArray, false);
    let body = Bytes::copy_of(rt.alloc(), &[0, 0, 0, 0, 2, 0, 0, 0, 1])?;
    let refused = Dictionary::build(rt.alloc(), &Place::file(), &spec, 2, body).err();
    let detail = format!(in rt.alloc(); "{:?}", refused.map(|refusal| refusal.detail))?;
    assert_eq!(rt; detail.as_str(), "Some(Part(Dictionary, 1))");
    Ok(())
}

fn texts(alloc: Global) -> Result<TableColumn, OutOfMemory> {
    let mut column = column_of(alloc, ColumnKind::ByteArray, true)?;
    column.push(CellRef::Bytes(b"ann"))?;
    column.push(CellRef::Null)?;
    column.push(CellRef::Bytes(b""))?;
    column.push(CellRef::Bytes(b"a,b"))?;
    Ok(column)
}

fn flags(alloc: Global) -> Result<TableColumn, OutOfMemory> {
    let mut column = column_of(alloc, ColumnKind::Boolean, true)?;
    column.push(CellRef::Bool(true))?;
    column.push(CellRef::Bool(false))?;
    column.push(CellRef::Null)?;
    column.push(CellRef::Bool(true))?;
    Ok(column)
}

fn numbers(alloc: Global) -> Result<TableColumn, OutOfMemory> {
    let mut column = column_of(alloc, ColumnKind::Int64, false)?;
    column.push(CellRef::Int64(5))?;
    column.push(CellRef::Int64(-2))?;
    Ok(column)
}

fn small_numbers(alloc: Global) -> Result<TableColumn, OutOfMemory> {
    let mut column = column_of(alloc, ColumnKind::Int32, true)?;
    column.push(CellRef::Int32(-7))?;
    column.push(CellRef::Null)?;
    column.push(CellRef::Int32(258))?;
    Ok(column)
}

/// A column with three cells: the value, a null, and the value again.
fn around_a_null(alloc: Global, kind: ColumnKind, value: &[u8]) -> Result<TableColumn, OutOfMemory>
    requires value { IsValueOf kind (bytes_cell value.now) }
    requires word { HasWord kind false }
{
    let mut column = column_of(alloc, kind, true)?;
    column.push(CellRef::Bytes(value))?;
    column.push(CellRef::Null)?;
    column.push(CellRef::Bytes(value))?;
    Ok(column)
}

/// The page that is written for some rows of a table with this one column, and the cells that are read from it.
fn written_and_read(
    alloc: Global,
    column: TableColumn,
    from: u16,
    to: u16,
) -> Result<String, Fail> {
    let mut table = Table::new(alloc);
    table.add(column)?;
    let from = usize::from(from);
    let to = usize::from(to);
    if table.columns() == 0 || from > to || to > table.rows() || to - from > 4 {
        return Err(Fail::from("no such rows"));
    }
    let mut body = Bytes::new(alloc);
    write_page(&table, 0, from, to, &mut body)?;
    let count = (to - from) as u16;
    let read = cells_or_error(alloc, table.spec(0), count, 0, None, body.as_slice())?;
    Ok(format!(in alloc; "{:?} {read}", body.as_slice())?)
}

#[test]
fn writes_pages_that_are_read_back(rt: HostRuntime) -> Result<(), Fail> {
    let whole = written_and_read(rt.alloc(), texts(rt.alloc())?, 0, 4)?;
    assert_eq!(rt;
        whole.as_str(),
        "[2, 0, 0, 0, 3, 13, 3, 0, 0, 0, 97, 110, 110, 0, 0, 0, 0, 3, 0, 0, 0, 97, 44, 98] Bytes([97, 110, 110]);Null;Bytes([]);Bytes([97, 44, 98]);"
    );
    let rest = written_and_read(rt.alloc(), texts(rt.alloc())?, 2, 4)?;
    assert_eq!(rt;
        rest.as_str(),
        "[2, 0, 0, 0, 3, 3, 0, 0, 0, 0, 3, 0, 0, 0, 97, 44, 98] Bytes([]);Bytes([97, 44, 98]);"
    );
    let bits = written_and_read(rt.alloc(), flags(rt.alloc())?, 0, 4)?;
    assert_eq!(rt;
        bits.as_str(),
        "[2, 0, 0, 0, 3, 11, 5] Bool(true);Bool(false);Null;Bool(true);"
    );
    let middle = written_and_read(rt.alloc(), flags(rt.alloc())?, 1, 3)?;
    assert_eq!(rt; middle.as_str(), "[2, 0, 0, 0, 3, 1, 0] Bool(false);Null;");
    let plain = written_and_read(rt.alloc(), numbers(rt.alloc())?, 0, 2)?;
    assert_eq!(rt;
        plain.as_str(),
        "[5, 0, 0, 0, 0, 0, 0, 0, 254, 255, 255, 255, 255, 255, 255, 255] Int64(5);Int64(-2);"
    );
    Ok(())
}

#[test]
fn writes_the_other_types_with_nulls(rt: HostRuntime) -> Result<(), Fail> {
    let alloc = rt.alloc();
    let whole = written_and_read(alloc, small_numbers(alloc)?, 0, 3)?;
    assert_eq!(rt;
        whole.as_str(),
        "[2, 0, 0, 0, 3, 5, 249, 255, 255, 255, 2, 1, 0, 0] Int32(-7);Null;Int32(258);"
    );
    let float = around_a_null(alloc, ColumnKind::Float, &[0, 0, 128, 63])?;
    let whole = written_and_read(alloc, float, 0, 3)?;
    assert_eq!(rt;
        whole.as_str(),
        "[2, 0, 0, 0, 3, 5, 0, 0, 128, 63, 0, 0, 128, 63] Bytes([0, 0, 128, 63]);Null;Bytes([0, 0, 128, 63]);"
    );
    let double = around_a_null(alloc, ColumnKind::Double, &[0, 0, 0, 0, 0, 0, 240, 63])?;
    let last = written_and_read(alloc, double, 1, 3)?;
    assert_eq!(rt;
        last.as_str(),
        "[2, 0, 0, 0, 3, 2, 0, 0, 0, 0, 0, 0, 240, 63] Null;Bytes([0, 0, 0, 0, 0, 0, 240, 63]);"
    );
    let old = around_a_null(
        alloc,
        ColumnKind::Int96,
        &[1, 2, 3, 4, 5, 6, 7, 8, 9, 10, 11, 12],
    )?;
    let first = written_and_read(alloc, old, 0, 1)?;
    assert_eq!(rt;
        first.as_str(),
        "[2, 0, 0, 0, 3, 1, 1, 2, 3, 4, 5, 6, 7, 8, 9, 10, 11, 12] Bytes([1, 2, 3, 4, 5, 6, 7, 8, 9, 10, 11, 12]);"
    );
    let fixed = around_a_null(alloc, ColumnKind::Fixed(3), &[1, 2, 3])?;
    let whole = written_and_read(alloc, fixed, 0, 3)?;
    assert_eq!(rt;
        whole.as_str(),
        "[2, 0, 0, 0, 3, 5, 1, 2, 3, 1, 2, 3] Bytes([1, 2, 3]);Null;Bytes([1, 2, 3]);"
    );
    Ok(())
}

fn column_shown(alloc: Global, table: &Table, column: usize) -> Result<String, AllocError>
    requires { column < length table.now }
{
    let mut text = String::new(alloc);
    for row in 0..table.rows() {
        let cell = format!(in alloc; "{:?};", table.cell(column, row))?;
        text.push_str(cell.as_str())?;
    }
    Ok(text)
}

fn each_type(alloc: Global) -> Result<Table, Fail> {
    if EACH_TYPE.len() > 1024 {
        return Err(Fail::from("too long"));
    }
    match table_from_csv(alloc, EACH_TYPE.as_bytes()) {
        Ok(table) => Ok(table),
        Err(TableRefusal::OutOfMemory) => Err(Fail::from("no memory")),
        Err(_) => Err(Fail::from("no table")),
    }
}

#[test]
fn a_page_of_each_type_is_read_back(rt: HostRuntime) -> Result<(), Fail> {
    let table = each_type(rt.alloc())?;
    assert_eq!(rt; (table.columns(), table.rows()), (18, 3));
    for column in 0..table.columns() {
        if table.rows() > 3 {
            return Err(Fail::from("too many rows"));
        }
        let mut body = Bytes::new(rt.alloc());
        write_page(&table, column, 0, table.rows(), &mut body)?;
        let read = cells_or_error(rt.alloc(), table.spec(column), 3, 0, None, body.as_slice())?;
        let cells = column_shown(rt.alloc(), &table, column)?;
        assert_eq!(rt; read.as_str(), cells.as_str());
    }
    Ok(())
}
