// Trees and their canonical spellings, worked out by hand from Thrift's compact protocol (thrift-compact-protocol.md).
use hex::decode;
use pme_base::Bytes;
use std::alloc::Global;
use std::process::Abort;
use std::test::Fail;
use thrift_compact::{TFields, TVal, read_tree, spell};

/// The bytes of a struct and its canonical spelling in hex, where `NxHEX` repeats HEX N times. The first cases are
/// canonical or nearly so; the others have each field id, size and number in a longer form than needed.
const CASES: &str = "\
111200|111200
130513ff00|130513ff00
140300|140300
150200|150200
16ffffffffffffffffff0100|16ffffffffffffffffff0100
17000000000000f03f00|17000000000000f03f00
18026b6600|18026b6600
193502040600|193502040600
190c00|190c00
190300|190c00
19f30f00010203040506070809101112131400|19f30f00010203040506070809101112131400
1a21010200|1a21010200
1b015802016100|1b015802016100
1b0000|1b0000
1c15020000|1c15020000
05280200|05280200
15820000|150200
250405020200|1502150400
058200820000|150200
01820000|1100
02820000|1200
038200ff00|13ff00
0382007f00|137f00
0382008000|138000
048200810000|140100
048200ffff830000|14ffff0300
048200feff830000|14feff0300
058200fe0000|157e00
05820080810000|15800100
058200ffffffff8f0000|15ffffffff0f00
068200feffffffffffffffff0100|16fe 8xff 0100
068200 9xff 0100|16ff 8xff 0100
078200010203040506070800|17010203040506070800
088200830061616100|180361616100
088200800000|180000
088200808100 128x61 00|188001 128x61 00
0584008a00058200860000|1506150a00
05860080000582008000058400800000|15001500150000
059e00800000|f50000
05a000800000|05200000
058200800005a000800005c000800000|1500f50005400000
058100800000|05010000
0581008000058500800000|050500250000
05feff8300800005ffff8300800000|05ffff030005feff030000
098200f5800000|190c00
0a8200f5800000|1a0c00
0b8200800000|1b0000
098200f58e008000800080008000800080008000800080008000800080008000800000|19e5 14x00 00
098200f58f0080008000800080008000800080008000800080008000800080008000800000|19f50f 15x00 00
0a8200f682008100810000|1a26010100
098200f18200010100|1921010100
098200f28200020200|1921020200
098200f88200820061618200616100|1928026161026161 00
0b8200820034058c00058c0000|1b0234050c050c00
0b820081001401820000|1b0114010200
0c82000584008e000582008a000000|1c150a150e0000
0c82000584008e000582008a0000058400820000|1c150a150e00150200
098200fc82000584008e000582008a00000584008e000582008a000000|192c150a150e00150a150e0000";

/// Appends the bytes that a word of a case stands for.
fn push_word(alloc: Global, bytes: &mut Vec<u8>, word: &str) -> Result<(), Fail> {
    let (count, text) = match word.split_once("x") {
        Some((count, text)) => (count.parse::<u8>()?, text),
        None => (1, word),
    };
    let part = decode(alloc, text)?;
    for _turn in 0..count {
        bytes.extend_from_slice(part.as_slice())?;
    }
    Ok(())
}

fn bytes_of(alloc: Global, text: &str) -> Result<Vec<u8>, Fail> {
    let mut bytes = Vec::new(alloc);
    for word in text.split_whitespace() {
        push_word(alloc, &mut bytes, word)?;
    }
    Ok(bytes)
}

fn spelled_again(alloc: Global, bytes: &[u8]) -> Result<Bytes, Fail> {
    let Ok((tree, _length)) = read_tree(alloc, bytes) else {
        return Err(Fail::from("no struct"));
    };
    let mut again = Bytes::new(alloc);
    spell(&tree, &mut again)?;
    Ok(again)
}

fn check_case<R: Abort + AllocGlobal>(rt: &R, case: &str) -> Result<(), Fail> {
    let (given, wanted) = case.split_once("|").ok_or("no spelling")?;
    let bytes = bytes_of(rt.alloc(), given)?;
    let wanted = bytes_of(rt.alloc(), wanted)?;
    let again = spelled_again(rt.alloc(), bytes.as_slice())?;
    assert_eq!(rt; again.as_slice(), wanted.as_slice(), "{case}");
    Ok(())
}

#[test]
fn spells_canonically_what_was_read(rt: HostRuntime) -> Result<(), Fail> {
    for case in CASES.lines() {
        check_case(&rt, case)?;
    }
    Ok(())
}

#[test]
fn appends_to_the_output(rt: HostRuntime) -> Result<(), Fail> {
    let value = TVal::Struct(TFields::new(rt.alloc()));
    let mut into = Bytes::copy_of(rt.alloc(), &[9])?;
    spell(&value, &mut into)?;
    assert_eq!(rt; into.as_slice(), [9, 0].as_slice());
    Ok(())
}
