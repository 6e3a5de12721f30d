// Bytes and the results of reading them. The expected results are worked out by hand from Thrift's compact protocol
// (thrift-compact-protocol.md) and from the rules on errors that `thrift_compact` states.
ghost use Rattle.std.specs.Prelude.{◌≡◌};
ghost use Rattle.thrift_compact.specs.Standing.{IsStruct, IsWholeKind};

use pme_base::ThriftFault;
use std::alloc::Global;
use std::process::Abort;
use std::test::Fail;
use thrift_compact::{FieldHead, Reader, TKind, ThriftRefusal, read_tree};

/// Each line has bytes in hex, where `NxHEX` repeats HEX N times; the error or `Length`; and the error's offset or
/// the size of the struct in bytes.
const CASES: &str = "\
150200|Length|3
15820000|Length|4
1b015802016100|Length|7
19350204060000|Length|6
1100|Length|2
1200|Length|2
150205020400|Repeated|2
|End|0
19fcffffffff07|End|7
19fcffffffff08|Range|2
32x1c 33x00|Depth|32
31x1c 32x00|Length|63
13|End|1
13ff00|Length|3
14808004|Range|1
14ffff0300|Length|5
158080808010|Range|1
15ffffffff0f00|Length|7
16 9xff 01 00|Length|12
16 9xff 02|Varint|1
16 10x80|Varint|1
16 9x80|End|10
1680|End|2
17 7x00|End|8
17 9x00|Length|10
18|End|1
180261|End|3
188080808008|Range|1
18 9x80 02|Varint|1
18016100|Length|4
19|End|1
1900|WrongType|1
191d|WrongType|1
19f0|WrongType|1
190300|Length|3
192301|End|3
191103|WrongType|2
193100010200|Length|6
19f3010500|Length|5
19fc 9x80 02|Varint|2
1914808004|Range|2
191c0000|Length|4
191c150205020400|Repeated|4
33x19|Depth|32
32x19|End|32
31x19 0300|Length|33
1a|End|1
1a0d|WrongType|1
1a1203|WrongType|2
1a25020400|Length|5
1afcffffffff08|Range|2
1afc 9x80 02|Varint|2
1a1c150205020400|Repeated|4
33x1a|Depth|32
1b|End|1
1b0000|Length|3
1b01|End|2
1b0150|WrongType|2
1b0105|WrongType|2
1b0155020400|Length|6
1b015502|End|4
1b011103|WrongType|3
1b01110103|WrongType|4
1b0112010200|Length|6
1b8080808008|Range|1
1b 9x80 02|Varint|1
1b0145808004|Range|3
1b013c00150205020400|Repeated|6
1b 31x013b00 00|Depth|94
1b 31x013b00|End|94
15|End|1
1502|End|2
10|WrongType|0
1d|WrongType|0
0d|WrongType|0
05|End|1
05808004|Range|1
05 9x80 02|Varint|1
05040a00|Length|4
050102150200|Length|6
05feff030215|Range|5
0cfeff031502 0000|Length|8
1c150200150200|Length|7
32x1c|End|32
32x1c 1d|Depth|32
15021502150215021502 0506|Repeated|10
15021502150215021502 050a|Repeated|10";

/// A struct with a field of each type: true, false, -1, -2, 5, the smallest i64, a double, "abc", the list [1, 2],
/// the set <7>, the map (1=>a), and a struct with the field 1.
const EACH_KIND: &str =
    "111213ff1403150a16 9xff 01 17 8x40 1803616263192502041a1307 1b0158020161 1c150200 00";

/// Appends the bytes that a word of a case stands for.
fn push_word(alloc: Global, bytes: &mut Vec<u8>, word: &str) -> Result<(), Fail> {
    let (count, text) = match word.split_once("x") {
        Some((count, text)) => (count.parse::<u8>()?, text),
        None => (1, word),
    };
    let part = hex::decode(alloc, text)?;
    for _turn in 0..count {
        bytes.extend_from_slice(part.as_slice())?;
    }
    Ok(())
}

fn bytes_of(alloc: Global, text: &str) -> Result<Vec<u8>, Fail> {
    let mut bytes = Vec::new(alloc);
    for word in text.split_whitespace() {
        push_word(alloc, &mut bytes, word)?;
    }
    Ok(bytes)
}

fn name_of(fault: ThriftFault) -> &'static str {
    match fault {
        ThriftFault::End => "End",
        ThriftFault::WrongType => "WrongType",
        ThriftFault::Varint => "Varint",
        ThriftFault::Range => "Range",
        ThriftFault::Repeated => "Repeated",
        ThriftFault::Depth => "Depth",
    }
}

/// The result of reading the bytes: an error or `Length`, and its number.
fn answer(alloc: Global, bytes: &[u8]) -> Result<(&'static str, u64), Fail> {
    match read_tree(alloc, bytes) {
        Ok((_tree, length)) => Ok(("Length", length as u64)),
        Err(ThriftRefusal::Bad { at, why }) => Ok((name_of(why), at)),
        Err(ThriftRefusal::OutOfMemory) => Err(Fail::from("out of memory")),
    }
}

fn check_case<R: Abort + AllocGlobal>(rt: &R, case: &str) -> Result<(), Fail> {
    let mut fields = case.split('|');
    let bytes = bytes_of(rt.alloc(), fields.next().ok_or("bytes")?)?;
    let word = fields.next().ok_or("word")?;
    let number = fields.next().ok_or("number")?.parse::<u64>()?;
    let (name, at) = answer(rt.alloc(), bytes.as_slice())?;
    assert_eq!(rt; name, word, "{case}");
    assert_eq!(rt; at, number, "{case}");
    Ok(())
}

#[test]
fn reports_lengths_and_errors(rt: HostRuntime) -> Result<(), Fail> {
    for case in CASES.lines() {
        check_case(&rt, case)?;
    }
    Ok(())
}

/// Reads the header of the next field, which must be the expected one.
fn expect_field(rt: &impl Abort, reader: &mut Reader<'_>, id: i16, kind: TKind)
    requires { IsStruct reader.old.inner }
    ensures { IsStruct reader.new.inner }
{
    match reader.field() {
        Ok(Some(head)) => assert_eq!(rt; head, FieldHead { id, kind }),
        _ => panic!(rt; "no field"),
    }
}

/// Reads a field that holds an integer.
fn expect_whole(rt: &impl Abort, reader: &mut Reader<'_>, id: i16, kind: TKind, number: i64)
    requires inside { IsStruct reader.old.inner }
    requires number { IsWholeKind kind }
    ensures { IsStruct reader.new.inner }
{
    expect_field(rt, reader, id, kind);
    match reader.whole(kind) {
        Ok(found) => assert_eq!(rt; found, number),
        Err(_) => panic!(rt; "no number"),
    }
}

/// Skips a field.
fn expect_any(rt: &impl Abort, reader: &mut Reader<'_>, id: i16, kind: TKind)
    requires { IsStruct reader.old.inner }
    ensures { IsStruct reader.new.inner }
{
    expect_field(rt, reader, id, kind);
    match reader.skip(kind) {
        Ok(()) => {}
        Err(_) => panic!(rt; "not passed"),
    }
}

/// Reads field 8, the binary `abc`.
fn expect_binary(rt: &impl Abort, reader: &mut Reader<'_>)
    requires { IsStruct reader.old.inner }
    ensures { IsStruct reader.new.inner }
{
    expect_field(rt, reader, 8, TKind::Binary);
    match reader.binary() {
        Ok(bytes) => assert_eq!(rt; bytes, b"abc".as_slice()),
        Err(_) => panic!(rt; "no binary"),
    }
}

/// Reads an item of a list.
fn expect_element(rt: &impl Abort, reader: &mut Reader<'_>, number: i64)
    ensures inner { reader.new.inner ≡ reader.old.inner }
    ensures outer { reader.new.outer ≡ reader.old.outer }
{
    match reader.whole(TKind::I32) {
        Ok(found) => assert_eq!(rt; found, number),
        Err(_) => panic!(rt; "no element"),
    }
}

/// Reads field 9, the list `[1, 2]`.
fn expect_list(rt: &impl Abort, reader: &mut Reader<'_>)
    requires { IsStruct reader.old.inner }
    ensures { IsStruct reader.new.inner }
{
    expect_field(rt, reader, 9, TKind::List);
    match reader.list_begin() {
        Ok((kind, count)) => {
            assert_eq!(rt; kind, TKind::I32);
            assert_eq!(rt; count, 2);
        }
        Err(_) => panic!(rt; "no list"),
    }
    expect_element(rt, reader, 1);
    expect_element(rt, reader, 2);
    reader.list_end();
}

fn expect_begin(rt: &impl Abort, reader: &mut Reader<'_>)
    ensures { IsStruct reader.new.inner }
{
    match reader.struct_begin() {
        Ok(()) => {}
        Err(_) => panic!(rt; "no struct"),
    }
}

/// Reads field 12, a struct with field 1.
fn expect_struct(rt: &impl Abort, reader: &mut Reader<'_>)
    requires { IsStruct reader.old.inner }
{
    expect_field(rt, reader, 12, TKind::Struct);
    expect_begin(rt, reader);
    expect_whole(rt, reader, 1, TKind::I32, 1);
    match reader.field() {
        Ok(None) => {}
        _ => panic!(rt; "a field"),
    }
}

fn read_each_kind(rt: &impl Abort, reader: &mut Reader<'_>) {
    expect_begin(rt, reader);
    expect_any(rt, reader, 1, TKind::True);
    expect_any(rt, reader, 2, TKind::False);
    expect_whole(rt, reader, 3, TKind::I8, -1);
    expect_whole(rt, reader, 4, TKind::I16, -2);
    expect_whole(rt, reader, 5, TKind::I32, 5);
    expect_whole(rt, reader, 6, TKind::I64, i64::MIN);
    expect_any(rt, reader, 7, TKind::Double);
    expect_binary(rt, reader);
    expect_list(rt, reader);
    expect_any(rt, reader, 10, TKind::Set);
    expect_any(rt, reader, 11, TKind::Map);
    expect_struct(rt, reader);
}

#[test]
fn reads_a_field_of_each_kind(rt: HostRuntime) -> Result<(), Fail> {
    let bytes = bytes_of(rt.alloc(), EACH_KIND)?;
    let mut reader = Reader::new(rt.alloc(), bytes.as_slice());
    read_each_kind(&rt, &mut reader);
    assert_eq!(rt; reader.offset(), 50);
    Ok(())
}
