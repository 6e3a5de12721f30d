// Tests of table_text.
ghost use Rattle.std.specs.Prelude.{◌≡◌, ◌<◌, length, IfOk};
ghost use Rattle.std.specs.List.{AllByRecursion};
ghost use Rattle.plain_pages.specs.Columns.{rows_of};

use parquet_types::{ColumnKind, ColumnSpec, FlatSchema};
use plain_pages::{CellRef, Table};
use pme_base::{Bytes, OutOfMemory};
use std::alloc::{AllocError, Global};
use std::test::Fail;
use table_text::{
    CellTexts, Choice, TableRefusal, cell_text, generate, header_text, row_text, table_from_csv,
};

// Each case: a text, a space, and the cells or the error that it is read as. In the text `/` stands for a line feed, `^` for
// a carriage return, `~` for the byte 0xff, and `{}|` for a byte order mark.
const CASES: &str = r#"
id:int64,name:text?,secret:bytes/1,ann,00ff/2,\N,/3,,ab/4,"a,b",cd Int64(1);Bytes([97,110,110]);Bytes([0,255]);Int64(2);Null;Bytes([]);Int64(3);Bytes([]);Bytes([171]);Int64(4);Bytes([97,44,98]);Bytes([205]);
id:int64,name:text?,secret:bytes/1,ann 1,3
id:int64/01 1,0
a:int64,b:int64/x,1,2 1,2
// 0,0
 0,0
a:int32//1// Int32(1);
a:b:int32/-2147483648 Int32(-2147483648);
a:int32/2147483648 1,0
a:int32/-2147483649 1,0
a:int64/9223372036854775808 1,0
a:int64/-9223372036854775809 1,0
a:int64/18446744073709551615 1,0
a:int64/18446744073709551616 1,0
a:int64/-18446744073709551617 1,0
a:int64/99999999999999999999 1,0
a:int64/340282366920938463463374607431768211457 1,0
a:int64/0/7/-1/10/-90 Int64(0);Int64(7);Int64(-1);Int64(10);Int64(-90);
a:int64/00 1,0
a:int64/-01 1,0
a:int64/1a 1,0
a:int64/1-1 1,0
a:int64/--1 1,0
a:int32/-0 1,0
a:int32/- 1,0
a:int32/+1 1,0
a:int32?/\N Null;
a:int32/\N 1,0
a:bool?,b:bool/true,false Bool(true);Bool(false);
a:bool/True 1,0
a:text/"" Bytes([]);
a:text/\\N Bytes([92,78]);
a:text/é/1234567/12345678/123456é Bytes([195,169]);Bytes([49,50,51,52,53,54,55]);Bytes([49,50,51,52,53,54,55,56]);Bytes([49,50,51,52,53,54,195,169]);
a:text/~ 1,0
a:text/123456~ 1,0
a:text/1234567~ 1,0
a:text/é~ 1,0
a:bytes/~ 1,0
~:text/ 0,0
a:text/\N 1,0
a:text?/\x 1,0
a:float,b:double/00000001,0000000000000002 Bytes([0,0,0,1]);Bytes([0,0,0,0,0,0,0,2]);
a:float/000001 1,0
a:int96/000000000000000000000003 Bytes([0,0,0,0,0,0,0,0,0,0,0,3]);
a:fixed(2)/0102 Bytes([1,2]);
a:fixed(2)/01 1,0
a:fixed(0)/ 0,0
a:fixed(02)/ 0,0
a:fixed(65537)/ 0,0
a:fixed(65536)?/\N Null;
a:fixed(18446744073709551617)/ 0,0
a:fixed(-1)/ 0,0
a:bytes,b:bytes/, Bytes([]);Bytes([]);
a:bytes/AB 1,0
a:bytes,b:bytes/1f, Bytes([31]);Bytes([]);
a:bytes,b:bytes/,, 1,2
a:text/, 1,1
a:text,b:int64^/x,1^/y,2^/ Bytes([120]);Int64(1);Bytes([121]);Int64(2);
a:text^x^y Bytes([120]);Bytes([121]);
^//a:int64/^/^/1//^2^/^/ Int64(1);Int64(2);
^/^ 0,0
{}| 0,0
{}|a:int64/1 Int64(1);
{}|"a:int64"/1 Int64(1);
{}|{}|a:int64/1 Int64(1);
{}a:int64/1 0,0
a:text/{}|x Bytes([239,187,191,120]);
a:text/{}|"x" Bytes([239,187,191,34,120,34]);
"a:text"/x Bytes([120]);
a:int64,b:text/1,x/2,"y,z"/3,w Int64(1);Bytes([120]);Int64(2);Bytes([121,44,122]);Int64(3);Bytes([119]);
a:text/x/"y/z"/w Bytes([120]);Bytes([121,10,122]);Bytes([119]);
a:text/x///"y"^/^/z Bytes([120]);Bytes([121]);Bytes([122]);
a:text/x/"y/z Bytes([120]);Bytes([121,10,122]);
a:text/x/"y"z Bytes([120]);Bytes([121,122]);
a:text/x"y/z Bytes([120,34,121]);Bytes([122]);
a:text/"""" Bytes([34]);
a:text/"x""y" Bytes([120,34,121]);
a:text/"x""" Bytes([120,34]);
a:text/"x"" Bytes([120,34]);
a:text/"""x" Bytes([34,120]);
a:text/"x"y"z" Bytes([120,121,34,122,34]);
a:text/"x""y"z""w Bytes([120,34,121,122,34,34,119]);
a:text/""x/"" Bytes([120]);Bytes([]);
a:text/" Bytes([]);
a:text/"x/ Bytes([120,10]);
a:text/"x^/y"^/"z"^w Bytes([120,13,10,121]);Bytes([122]);Bytes([119]);
a:text,b:text/"x","y"/"z",w/x,"" Bytes([120]);Bytes([121]);Bytes([122]);Bytes([119]);Bytes([120]);Bytes([]);
a:text,b:text/"x", Bytes([120]);Bytes([]);
a:text,b:text/,"x,"",/" Bytes([]);Bytes([120,44,34,44,10]);
a:text,b:text/"x"^,y 1,2
a:text,b:text/"x","y","" 1,2
"a:text/x 0,0
"a"":text"/x Bytes([120]);
a:int64/1/"2"/x 3,0
a:int64/1/"2",3/x 2,1
a:int64/x/"2" 1,0
a:int32,a:int32/ 0,1
a:int32,a:bool/ 0,1
a:int32,b:int32,a:bool,c:what/ 0,2
:int32/ 0,0
a:int32??/ 0,0
a/ 0,0
"#;

// Texts that are written back unchanged after they have been read.
const TEXTS: [&str; 6] = [
    "id:int64,name:text?,secret:bytes\n1,ann,00ff\n2,\\N,\n3,,ab\n4,\"a,b\",cd\n",
    "a:int32\n",
    "a:text\n\"\"\n",
    "a:text\n\"say \"\"so\"\"\"\n\"one\ntwo\r\"\n\\\\\n\\\\N\n\\\\\\\\\na\\\\b\n",
    "\"a,b:c:bytes?\",\"\"\":text\"\n\\N,\\\\N\n,\n",
    "a:bool?,b:int32?,c:int64?,d:int96?,e:float?,f:double?,g:bytes?,h:text?,i:fixed(3)?\n\\N,\\N,\\N,\\N,\\N,\\N,\\N,\\N,\\N\ntrue,-2147483648,-9223372036854775808,000102030405060708090a0b,7f800000,fff0000000000000,00ff,\\\\x,00000a\nfalse,2147483647,9223372036854775807,ffffffffffffffffffffffff,00000000,0000000000000001,,,ffffff\n",
];

// The table of seed 11, computed by an independent program.
const GENERATED: &str = "id:int64,flag:bool?,city:text?,amount:int32,blob:bytes\n\
    0,true,city-436,-403927,02b62624\n\
    1,true,city-697,179966,1003af91\n\
    2,true,city-408,782347,6da33b45\n\
    3,\\N,city-658,-410723,327505d8\n\
    4,true,\\N,6163,b400d8c1\n\
    5,\\N,city-80,46044,3914859d\n\
    6,false,\\N,575850,26211b70\n\
    7,false,city-633,139891,9e7d1517\n";

fn shown(alloc: Global, table: &Table) -> Result<String, AllocError> {
    let mut text = String::new(alloc);
    for row in 0..table.rows() {
        for column in 0..table.columns() {
            let cell = format!(in alloc; "{:?};", table.cell(column, row))?;
            text.push_str(cell.as_str())?;
        }
    }
    Ok(text)
}

fn bytes_of(alloc: Global, case: &str) -> Result<Vec<u8>, AllocError> {
    let mut bytes = Vec::new(alloc);
    for byte in case.bytes() {
        let meant = match byte {
            b'/' => b'\n',
            b'^' => b'\r',
            b'~' => 0xff,
            b'{' => 0xef,
            b'}' => 0xbb,
            b'|' => 0xbf,
            other => other,
        };
        if bytes.push(meant).is_err() {
            return Err(AllocError);
        }
    }
    Ok(bytes)
}

/// The cells of a table, or the place of its first bad field.
fn cells_or_error(alloc: Global, case: &str) -> Result<String, AllocError> {
    let text = bytes_of(alloc, case)?;
    if text.len() > 268_435_456 {
        return Err(AllocError);
    }
    match table_from_csv(alloc, text.as_slice()) {
        Ok(table) => shown(alloc, &table),
        Err(TableRefusal::Bad { entry, field }) => format!(in alloc; "{entry},{field}"),
        Err(TableRefusal::OutOfMemory) => Err(AllocError),
    }
}

#[test]
fn reads_tables_or_reports_the_first_bad_field(rt: HostRuntime) -> Result<(), Fail> {
    for line in CASES.lines() {
        if let Some((case, expected)) = line.rsplit_once(' ') {
            let got = cells_or_error(rt.alloc(), case)?;
            let bare = got.replace(rt.alloc(), ' ', "")?;
            assert_eq!(rt; bare.as_str(), expected);
        }
    }
    Ok(())
}

fn schema_of(alloc: Global, table: &Table) -> Result<FlatSchema, OutOfMemory>
    ensures { IfOk result (λ schema. length schema ≡ length table.now) }
{
    let mut schema = FlatSchema::new(alloc);
    for column in 0..table.columns() {
        let spec = table.spec(column);
        let copy = ColumnSpec {
            name: Bytes::copy_of(alloc, spec.name.as_slice())?,
            kind: spec.kind,
            optional: spec.optional,
            text: spec.text,
        };
        schema.push(copy)?;
    }
    Ok(schema)
}

fn all_columns(alloc: Global, count: usize) -> Result<Choice, OutOfMemory>
    ensures number { IfOk result (λ chosen. length chosen ≡ count) }
    ensures inside { IfOk result (λ chosen. AllByRecursion (λ column. column < count) chosen) }
{
    let mut chosen = Choice::new(alloc);
    for column in 0..count {
        chosen.push(column)?;
    }
    Ok(chosen)
}

#[tactic(auto, using(table_text::proofs::TableLemmas::cell_fits))]
fn push_cell(table: &Table, column: usize, row: usize, into: &mut Bytes) -> Result<(), OutOfMemory>
    requires column { column < length table.now }
    requires row { row < rows_of table.now }
{
    cell_text(table.spec(column), table.cell(column, row), into)
}

fn row_cells(alloc: Global, table: &Table, row: usize) -> Result<CellTexts, OutOfMemory>
    requires { row < rows_of table.now }
    ensures { IfOk result (λ cells. length cells ≡ length table.now) }
{
    let mut cells = CellTexts::new(alloc);
    for column in 0..table.columns() {
        let mut cell = Bytes::new(alloc);
        push_cell(table, column, row, &mut cell)?;
        cells.push(cell)?;
    }
    Ok(cells)
}

fn text_of(alloc: Global, table: &Table) -> Result<Bytes, OutOfMemory> {
    let mut text = Bytes::new(alloc);
    if table.columns() == 0 {
        return Ok(text);
    }
    let schema = schema_of(alloc, table)?;
    let chosen = all_columns(alloc, table.columns())?;
    header_text(alloc, &schema, &chosen, &mut text)?;
    for row in 0..table.rows() {
        let cells = row_cells(alloc, table, row)?;
        row_text(alloc, &cells, &mut text)?;
    }
    Ok(text)
}

#[test]
fn writes_what_it_reads(rt: HostRuntime) -> Result<(), Fail> {
    for text in TEXTS {
        if text.len() <= 268_435_456 {
            match table_from_csv(rt.alloc(), text.as_bytes()) {
                Ok(table) => {
                    let written = text_of(rt.alloc(), &table)?;
                    assert_eq!(rt; written.as_slice(), text.as_bytes());
                }
                Err(refusal) => assert_eq!(rt; refusal, TableRefusal::OutOfMemory),
            }
        }
    }
    Ok(())
}

#[test]
fn generates_the_table_of_a_seed(rt: HostRuntime) -> Result<(), Fail> {
    let table = generate(rt.alloc(), 11, 8)?;
    let text = text_of(rt.alloc(), &table)?;
    assert_eq!(rt; text.as_slice(), GENERATED.as_bytes());
    let many = generate(rt.alloc(), u64::MAX, 2000)?;
    let mut sum: u64 = 0;
    for byte in text_of(rt.alloc(), &many)?.as_slice() {
        sum = sum.wrapping_mul(31).wrapping_add(u64::from(*byte));
    }
    assert_eq!(rt; sum, 1899429893415495943_u64);
    let none = generate(rt.alloc(), 0, 0)?;
    assert_eq!(rt; (none.columns(), none.rows()), (5, 0));
    Ok(())
}

#[test]
fn writes_cells(rt: HostRuntime) -> Result<(), Fail> {
    let spec = ColumnSpec {
        name: Bytes::new(rt.alloc()),
        kind: ColumnKind::Int64,
        optional: true,
        text: false,
    };
    let mut cell = Bytes::new(rt.alloc());
    cell_text(&spec, CellRef::Int64(-12), &mut cell)?;
    cell_text(&spec, CellRef::Null, &mut cell)?;
    assert_eq!(rt; cell.as_slice(), b"-12\\N".as_slice());
    Ok(())
}

// Each case: the cells of a record, and its text.
const RECORDS: &[(&[&[u8]], &[u8])] = &[
    (&[b""], b"\"\"\n"),
    (&[b"a", b"", b"b c"], b"a,,b c\n"),
    (&[b"", b""], b",\n"),
    (&[b"a,b", b"c"], b"\"a,b\",c\n"),
    (&[b"c", b"say \"so\""], b"c,\"say \"\"so\"\"\"\n"),
    (&[b"a\rb"], b"\"a\rb\"\n"),
    (&[b"x", b"a\nb", b"y"], b"x,\"a\nb\",y\n"),
    (&[b"\\", b" ;'"], b"\\, ;'\n"),
];

#[test]
fn writes_records_with_quotes_where_needed(rt: HostRuntime) -> Result<(), Fail> {
    for (fields, record) in RECORDS {
        let mut cells = CellTexts::new(rt.alloc());
        for field in *fields {
            cells.push(Bytes::copy_of(rt.alloc(), *field)?)?;
        }
        let mut text = Bytes::new(rt.alloc());
        if cells.len() > 0 {
            row_text(rt.alloc(), &cells, &mut text)?;
        }
        assert_eq!(rt; text.as_slice(), *record);
    }
    Ok(())
}
