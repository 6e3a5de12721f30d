// Footers that keep or break a rule, and the results of reading them.
use footer_rules::file_of;
use parquet_types::{
    ChunkCrypto, ColumnChunk, ColumnCrypto, ColumnKind, ColumnSpec, FileMeta, PathList,
    RawFileMeta, RowGroup, SchemaElement,
};
use pme_base::{Bytes, OutOfMemory, Place, Refusal, Sequence};
use std::alloc::Global;
use std::process::Abort;
use std::test::Fail;

// Changes to a valid footer, and the expected result. The footer has the INT64 columns a, b and c and two row groups
// of 3 and 2 rows. Changes are to the root's count of children, to column c, to the file's count of rows, and to the
// first row group and its chunk of column c; `-` leaves a field out, and the name `!` is the byte ff.
const CASES: &str = "\
: passes
root=none: MissingField Field(SchemaElement, 4)
root=2: Mismatch Signed(2, 3)
root=-: Mismatch Signed(0, 3)
root=-1: Mismatch Signed(-1, 3)
inner=1: Unsupported Field(SchemaElement, 5)
inner=0: passes
kind=-: MissingField Field(SchemaElement, 1)
kind=-1: BadField Field(SchemaElement, 1)
kind=8: BadField Field(SchemaElement, 1)
kind=0: passes
kind=6: passes
kind=7: MissingField Field(SchemaElement, 2)
kind=7 length=0: BadField Field(SchemaElement, 2)
kind=7 length=-5: BadField Field(SchemaElement, 2)
kind=7 length=1: passes
kind=2 length=0: passes
repetition=-: MissingField Field(SchemaElement, 3)
repetition=1: passes
repetition=2: Unsupported Field(SchemaElement, 3)
repetition=3: BadField Field(SchemaElement, 3)
repetition=-1: BadField Field(SchemaElement, 3)
name=a: BadField Field(SchemaElement, 4)
name=b: BadField Field(SchemaElement, 4)
name=!: BadField Field(SchemaElement, 4)
name=d: Mismatch Names(Bytes { items: [99] }, Bytes { items: [100] })
rows=-1: BadField Field(FileMetaData, 3)
chunks=2: Mismatch Signed(2, 3)
chunks=0: Mismatch Signed(0, 3)
first=-1: BadField Field(RowGroup, 3)
ordinal=-: passes
ordinal=1: Mismatch Signed(1, 0)
ordinal=-1: Mismatch Signed(-1, 0)
file=f: Unsupported Field(ColumnChunk, 1)
path=-: passes
path=b: Mismatch Names(Bytes { items: [98] }, Bytes { items: [99] })
path=c.d: Mismatch Names(Bytes { items: [99, 46, 100] }, Bytes { items: [99] })
name=c.d path=c.d: Mismatch Names(Bytes { items: [99, 46, 100] }, Bytes { items: [99, 46, 100] })
path=: Mismatch Names(Bytes { items: [] }, Bytes { items: [99] })
rows=6: Mismatch Signed(5, 6)
first=9223372036854775805 rows=9223372036854775807: passes
first=9223372036854775805 rows=5: Mismatch Signed(9223372036854775807, 5)
first=9223372036854775806: BadField Field(FileMetaData, 3)
root=2 inner=1: Mismatch Signed(2, 3)
inner=1 kind=-: Unsupported Field(SchemaElement, 5)
kind=7 repetition=2: MissingField Field(SchemaElement, 2)
repetition=2 name=a: Unsupported Field(SchemaElement, 3)
name=a rows=-1: BadField Field(SchemaElement, 4)
rows=-1 chunks=2: BadField Field(FileMetaData, 3)
chunks=2 first=-1: Mismatch Signed(2, 3)
first=-1 ordinal=1: BadField Field(RowGroup, 3)
ordinal=1 file=f: Mismatch Signed(1, 0)
file=f path=b: Unsupported Field(ColumnChunk, 1)
path=b rows=6: Mismatch Names(Bytes { items: [98] }, Bytes { items: [99] })
";

// The value of a key in a line of changes.
fn value_of<'a>(changes: &'a str, key: &str) -> Option<&'a str> {
    for word in changes.split_whitespace() {
        if let Some((name, value)) = word.split_once('=') {
            if name == key {
                return Some(value);
            }
        }
    }
    None
}

fn number_of(changes: &str, key: &str, unchanged: Option<i64>) -> Option<i64> {
    match value_of(changes, key) {
        Some(value) => value.parse().ok(),
        None => unchanged,
    }
}

fn small_of(changes: &str, key: &str, unchanged: Option<i64>) -> Option<i32> {
    let number = number_of(changes, key, unchanged)?;
    i32::try_from(number).ok()
}

fn ordinal_of(changes: &str) -> Option<i16> {
    let number = number_of(changes, "ordinal", Some(0))?;
    i16::try_from(number).ok()
}

fn bytes_of(alloc: Global, text: &str) -> Result<Bytes, OutOfMemory> {
    match text {
        "!" => Bytes::copy_of(alloc, b"\xff"),
        _ => Bytes::copy_of(alloc, text.as_bytes()),
    }
}

fn root(alloc: Global, num_children: Option<i32>) -> Result<SchemaElement, OutOfMemory> {
    Ok(SchemaElement {
        kind: None,
        type_length: None,
        repetition: None,
        name: bytes_of(alloc, "schema")?,
        num_children,
        converted: None,
    })
}

fn column(alloc: Global, name: &str, changes: &str) -> Result<SchemaElement, OutOfMemory> {
    Ok(SchemaElement {
        kind: small_of(changes, "kind", Some(2)),
        type_length: small_of(changes, "length", None),
        repetition: small_of(changes, "repetition", Some(0)),
        name: bytes_of(alloc, name)?,
        num_children: small_of(changes, "inner", None),
        converted: small_of(changes, "converted", None),
    })
}

fn element(alloc: Global, position: usize, changes: &str) -> Result<SchemaElement, OutOfMemory> {
    match position {
        0 => root(alloc, small_of(changes, "root", Some(3))),
        1 => column(alloc, "a", ""),
        2 => column(alloc, "b", ""),
        _ => column(alloc, value_of(changes, "name").unwrap_or("c"), changes),
    }
}

fn schema(alloc: Global, changes: &str) -> Result<Sequence<SchemaElement>, OutOfMemory> {
    let mut schema = Sequence::new(alloc);
    let count = if value_of(changes, "root") == Some("none") {
        0
    } else {
        4
    };
    for position in 0..count {
        schema.push(element(alloc, position, changes)?)?;
    }
    Ok(schema)
}

fn path_of(alloc: Global, text: &str) -> Result<PathList, OutOfMemory> {
    let mut path = Sequence::new(alloc);
    for part in text.split('.') {
        path.push(bytes_of(alloc, part)?)?;
    }
    Ok(path)
}

fn own_key(alloc: Global, path: &str) -> Result<Option<ColumnCrypto>, OutOfMemory> {
    let key_metadata = Some(bytes_of(alloc, "id")?);
    let path = path_of(alloc, path)?;
    Ok(Some(ColumnCrypto::ColumnKey { path, key_metadata }))
}

fn crypto(
    alloc: Global,
    position: i64,
    changes: &str,
) -> Result<Option<ColumnCrypto>, OutOfMemory> {
    match position {
        0 => Ok(None),
        1 => Ok(Some(ColumnCrypto::FooterKey)),
        _ => match value_of(changes, "path") {
            Some("-") => Ok(None),
            Some(path) => own_key(alloc, path),
            None => own_key(alloc, "c"),
        },
    }
}

fn file_path(alloc: Global, position: i64, changes: &str) -> Result<Option<Bytes>, OutOfMemory> {
    match value_of(changes, "file") {
        Some(path) if position == 2 => Ok(Some(bytes_of(alloc, path)?)),
        _ => Ok(None),
    }
}

fn chunk(alloc: Global, position: i64, changes: &str) -> Result<ColumnChunk, OutOfMemory> {
    Ok(ColumnChunk {
        file_path: file_path(alloc, position, changes)?,
        plain_meta: None,
        crypto: crypto(alloc, position, changes)?,
        sealed_meta: None,
    })
}

fn group(alloc: Global, changes: &str) -> Result<RowGroup, OutOfMemory> {
    let mut chunks = Sequence::new(alloc);
    for position in 0..number_of(changes, "chunks", Some(3)).unwrap_or(0) {
        chunks.push(chunk(alloc, position, changes)?)?;
    }
    Ok(RowGroup {
        chunks,
        num_rows: number_of(changes, "first", Some(3)).unwrap_or(0),
        ordinal: ordinal_of(changes),
    })
}

fn groups(alloc: Global, changes: &str) -> Result<Sequence<RowGroup>, OutOfMemory> {
    let mut groups = Sequence::new(alloc);
    for changes in [changes, "first=2 ordinal=1 path=-"] {
        groups.push(group(alloc, changes)?)?;
    }
    Ok(groups)
}

fn fields_of(alloc: Global, changes: &str) -> Result<RawFileMeta, OutOfMemory> {
    Ok(RawFileMeta {
        schema: schema(alloc, changes)?,
        num_rows: number_of(changes, "rows", Some(5)).unwrap_or(0),
        groups: groups(alloc, changes)?,
        algorithm: None,
        signing_key_metadata: None,
    })
}

fn answer_of(alloc: Global, file: Result<FileMeta, Refusal>) -> Result<String, OutOfMemory> {
    let text = match file {
        Ok(_) => String::from_str(alloc, "passes"),
        Err(refusal) => format!(in alloc; "{:?} {:?}", refusal.cause, refusal.detail),
    };
    match text {
        Ok(text) => Ok(text),
        Err(_) => Err(OutOfMemory),
    }
}

fn answers<R: Abort + AllocGlobal>(rt: &R, changes: &str, answer: &str) -> Result<(), Fail> {
    let fields = fields_of(rt.alloc(), changes)?;
    let file = file_of(rt.alloc(), Place::footer(), fields);
    let text = answer_of(rt.alloc(), file)?;
    assert_eq!(rt; text.as_str(), answer, "{changes}");
    Ok(())
}

#[test]
fn the_first_broken_rule_is_reported(rt: HostRuntime) -> Result<(), Fail> {
    for case in CASES.lines() {
        let (changes, answer) = case.split_once(": ").ok_or("case")?;
        answers(&rt, changes, answer)?;
    }
    Ok(())
}

fn numbered(alloc: Global, number: u16) -> Result<SchemaElement, OutOfMemory> {
    match format!(in alloc; "{number}") {
        Ok(name) => column(alloc, name.as_str(), ""),
        Err(_) => Err(OutOfMemory),
    }
}

fn empty_groups(alloc: Global, count: u16) -> Result<Sequence<RowGroup>, OutOfMemory> {
    let mut groups = Sequence::new(alloc);
    for number in 0..count {
        groups.push(RowGroup {
            chunks: Sequence::new(alloc),
            num_rows: 0,
            ordinal: i16::try_from(number).ok(),
        })?;
    }
    Ok(groups)
}

fn numbered_columns(alloc: Global, count: u16) -> Result<Sequence<SchemaElement>, OutOfMemory> {
    let mut schema = Sequence::new(alloc);
    schema.push(root(alloc, Some(count as i32))?)?;
    for number in 0..count {
        schema.push(numbered(alloc, number)?)?;
    }
    Ok(schema)
}

fn many_answer(alloc: Global, columns: u16, groups: u16) -> Result<String, OutOfMemory> {
    let fields = RawFileMeta {
        schema: numbered_columns(alloc, columns)?,
        num_rows: 0,
        groups: empty_groups(alloc, groups)?,
        algorithm: None,
        signing_key_metadata: None,
    };
    answer_of(alloc, file_of(alloc, Place::footer(), fields))
}

#[test]
fn columns_and_groups_end_at_32768(rt: HostRuntime) -> Result<(), Fail> {
    let too_large = "TooLarge Pair(32769, 32768)";
    for (columns, groups, answer) in [
        (32_768, 0, "passes"),
        (32_769, 0, too_large),
        (0, 32_768, "passes"),
        (0, 32_769, too_large),
    ] {
        let text = many_answer(rt.alloc(), columns, groups)?;
        assert_eq!(rt; text.as_str(), answer, "{columns} columns, {groups} groups");
    }
    Ok(())
}

fn is_text(column: &ColumnSpec) -> bool {
    column.kind == ColumnKind::ByteArray && column.optional && column.text
}

fn has_own_key(crypto: &ChunkCrypto) -> bool {
    match crypto {
        ChunkCrypto::ColumnKey(Some(metadata)) => metadata.as_slice() == b"id".as_slice(),
        _ => false,
    }
}

fn keeps_its_parts(file: &FileMeta) -> bool {
    let (Some(column), Some(group)) = (file.schema.get(2), file.groups.get(0)) else {
        return false;
    };
    match group.chunks.get(2) {
        Some(chunk) => is_text(column) && has_own_key(&chunk.crypto),
        None => false,
    }
}

#[test]
fn a_footer_keeps_its_parts(rt: HostRuntime) -> Result<(), Fail> {
    let fields = fields_of(rt.alloc(), "kind=6 converted=0 repetition=1")?;
    match file_of(rt.alloc(), Place::footer(), fields) {
        Ok(file) => assert!(rt; keeps_its_parts(&file)),
        Err(_) => return Err("refused".into()),
    }
    Ok(())
}
