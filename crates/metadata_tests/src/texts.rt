// The texts that `show_tree` prints for trees of the compact protocol.
use pme_base::{Bytes, OutOfMemory};
use std::alloc::Global;
use std::process::Abort;
use std::test::Fail;
use thrift_compact::{TFields, TList, TMap, TVal, show_tree};

fn shows<R: Abort + AllocGlobal>(rt: &R, tree: TVal, text: &str) -> Result<(), Fail> {
    let mut shown = Bytes::new(rt.alloc());
    show_tree(&tree, &mut shown)?;
    assert_eq!(rt; shown.as_slice(), text.as_bytes(), "{text}");
    Ok(())
}

fn field(alloc: Global, id: i16, value: TVal) -> Result<TVal, OutOfMemory> {
    let mut fields = TFields::new(alloc);
    fields.push((id, value))?;
    Ok(TVal::Struct(fields))
}

fn numbers(alloc: Global, values: &[i32]) -> Result<TList, OutOfMemory> {
    let mut items = TList::new(alloc);
    for value in values {
        items.push(TVal::I32(*value))?;
    }
    Ok(items)
}

fn binary(alloc: Global, bytes: &[u8]) -> Result<TVal, OutOfMemory> {
    Ok(TVal::Binary(Bytes::copy_of(alloc, bytes)?))
}

fn map_to_binary(alloc: Global) -> Result<TVal, OutOfMemory> {
    let mut pairs = TMap::new(alloc);
    pairs.push((TVal::I32(1), binary(alloc, b"a")?))?;
    Ok(TVal::Map(pairs))
}

fn map_to_truths(alloc: Global) -> Result<TVal, OutOfMemory> {
    let mut pairs = TMap::new(alloc);
    pairs.push((TVal::I8(-1), TVal::Bool(true)))?;
    pairs.push((TVal::I8(2), TVal::Bool(false)))?;
    Ok(TVal::Map(pairs))
}

fn extremes(alloc: Global) -> Result<TVal, OutOfMemory> {
    let mut fields = TFields::new(alloc);
    fields.push((32_767, TVal::I64(9_223_372_036_854_775_807)))?;
    fields.push((-32_768, TVal::I64(-9_223_372_036_854_775_808)))?;
    fields.push((0, TVal::I16(-32_768)))?;
    Ok(TVal::Struct(fields))
}

fn empties(alloc: Global) -> Result<TVal, OutOfMemory> {
    let mut fields = TFields::new(alloc);
    fields.push((1, TVal::Struct(TFields::new(alloc))))?;
    fields.push((2, TVal::List(TList::new(alloc))))?;
    fields.push((3, TVal::Set(TList::new(alloc))))?;
    fields.push((4, TVal::Map(TMap::new(alloc))))?;
    fields.push((5, binary(alloc, b"")?))?;
    Ok(TVal::Struct(fields))
}

/// A struct inside 31 other structs, each the field 1 of the next.
fn nested(alloc: Global) -> Result<TVal, OutOfMemory> {
    let mut value = TVal::Struct(TFields::new(alloc));
    for _depth in 0..31 {
        value = field(alloc, 1, value)?;
    }
    Ok(value)
}

#[test]
fn shows_values(rt: HostRuntime) -> Result<(), Fail> {
    let alloc = rt.alloc();
    shows(&rt, field(alloc, 1, TVal::I32(1))?, "{1: 1}")?;
    shows(&rt, field(alloc, 1, TVal::Bool(true))?, "{1: true}")?;
    shows(&rt, field(alloc, 1, TVal::Bool(false))?, "{1: false}")?;
    shows(&rt, field(alloc, 1, TVal::I8(-128))?, "{1: -128}")?;
    let bytes = binary(alloc, b"\x00\x9a\xff")?;
    shows(&rt, field(alloc, 3, bytes)?, "{3: x009aff}")?;
    let pi = TVal::Double(0x182d4454fb210940u64.to_be_bytes());
    shows(&rt, field(alloc, 2, pi)?, "{2: d182d4454fb210940}")
}

#[test]
fn shows_containers(rt: HostRuntime) -> Result<(), Fail> {
    let alloc = rt.alloc();
    let list = TVal::List(numbers(alloc, &[1, 2, 3])?);
    shows(&rt, field(alloc, 1, list)?, "{1: [1, 2, 3]}")?;
    let set = TVal::Set(numbers(alloc, &[-7, 70])?);
    shows(&rt, field(alloc, 1, set)?, "{1: <-7, 70>}")?;
    let map = map_to_binary(alloc)?;
    shows(&rt, field(alloc, 1, map)?, "{1: (1=>x61)}")?;
    let map = map_to_truths(alloc)?;
    shows(&rt, field(alloc, 1, map)?, "{1: (-1=>true, 2=>false)}")?;
    let text = "{1: {}, 2: [], 3: <>, 4: (), 5: x}";
    shows(&rt, empties(alloc)?, text)
}

#[test]
fn shows_in_the_order_of_the_bytes(rt: HostRuntime) -> Result<(), Fail> {
    let text = "{32767: 9223372036854775807, -32768: -9223372036854775808, 0: -32768}";
    shows(&rt, extremes(rt.alloc())?, text)
}

#[test]
fn shows_nested_structs(rt: HostRuntime) -> Result<(), Fail> {
    let opening =
        "{1: {1: {1: {1: {1: {1: {1: {1: {1: {1: {1: {1: {1: {1: {1: {1: {1: {1: {1: {1: {1: {1: {1: {1: {1: {1: {1: {1: {1: {1: {1: ";
    let mut text = opening.to_string(rt.alloc())?;
    text.push_str("{}}}}}}}}}}}}}}}}}}}}}}}}}}}}}}}}")?;
    shows(&rt, nested(rt.alloc())?, text.as_str())
}
