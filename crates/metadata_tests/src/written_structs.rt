// Structs that the writer of the compact protocol writes, against bytes that were worked out by hand.
ghost use Rattle.std.specs.Prelude.{◌<◌};

use pme_base::{Bytes, OutOfMemory};
use std::alloc::Global;
use std::test::Fail;
use thrift_compact::{TKind, Writer};

/// {1: {1: {2: 0x0001020304050607}}, 2: "kf"}
fn file_crypto_metadata(alloc: Global) -> Result<Bytes, OutOfMemory> {
    let mut writer = Writer::new(alloc);
    writer.struct_begin()?;
    writer.struct_field(1)?;
    writer.struct_field(1)?;
    writer.binary(2, &[0, 1, 2, 3, 4, 5, 6, 7])?;
    writer.struct_end()?;
    writer.struct_end()?;
    writer.binary(2, b"kf")?;
    writer.struct_end()?;
    Ok(writer.finish())
}

/// {1: 0, 2: 16, 3: 16, 5: {1: 4, 2: 0, 3: 3, 4: 3}}, all of type i32
fn page_header(alloc: Global) -> Result<Bytes, OutOfMemory> {
    let mut writer = Writer::new(alloc);
    writer.struct_begin()?;
    writer.whole(1, TKind::I32, 0)?;
    writer.whole(2, TKind::I32, 16)?;
    writer.whole(3, TKind::I32, 16)?;
    writer.struct_field(5)?;
    writer.whole(1, TKind::I32, 4)?;
    writer.whole(2, TKind::I32, 0)?;
    writer.whole(3, TKind::I32, 3)?;
    writer.whole(4, TKind::I32, 3)?;
    writer.struct_end()?;
    writer.struct_end()?;
    Ok(writer.finish())
}

/// {-1: i8 -1, 14: i16 -2, 30: i64 64, 31: false, 32767: true}
fn ids_far_and_near(alloc: Global) -> Result<Bytes, OutOfMemory> {
    let mut writer = Writer::new(alloc);
    writer.struct_begin()?;
    writer.whole(-1, TKind::I8, -1)?;
    writer.whole(14, TKind::I16, -2)?;
    writer.whole(30, TKind::I64, 64)?;
    writer.truth(31, false)?;
    writer.truth(32_767, true)?;
    writer.struct_end()?;
    Ok(writer.finish())
}

/// {1: [i32 1, 2, 3], 2: ["a", ""]}
fn numbers_and_binaries(alloc: Global) -> Result<Bytes, OutOfMemory> {
    let mut writer = Writer::new(alloc);
    writer.struct_begin()?;
    writer.list_field(1, TKind::I32, 3)?;
    writer.item_whole(1)?;
    writer.item_whole(2)?;
    writer.item_whole(3)?;
    writer.list_field(2, TKind::Binary, 2)?;
    writer.item_binary(b"a")?;
    writer.item_binary(b"")?;
    writer.struct_end()?;
    Ok(writer.finish())
}

/// {1: [{2: [i16 5]}, {}], 3: true}
fn list_of_structs(alloc: Global) -> Result<Bytes, OutOfMemory> {
    let mut writer = Writer::new(alloc);
    writer.struct_begin()?;
    writer.list_field(1, TKind::Struct, 2)?;
    writer.struct_begin()?;
    writer.list_field(2, TKind::I16, 1)?;
    writer.item_whole(5)?;
    writer.struct_end()?;
    writer.struct_begin()?;
    writer.struct_end()?;
    writer.truth(3, true)?;
    writer.struct_end()?;
    Ok(writer.finish())
}

/// {1: [], 2: [], 3: []}, empty lists of i32, booleans and structs
fn empty_lists(alloc: Global) -> Result<Bytes, OutOfMemory> {
    let mut writer = Writer::new(alloc);
    writer.struct_begin()?;
    writer.list_field(1, TKind::I32, 0)?;
    writer.list_field(2, TKind::False, 0)?;
    writer.list_field(3, TKind::Struct, 0)?;
    writer.struct_end()?;
    Ok(writer.finish())
}

/// {1: [`count` times i8 0]}
fn zeros(alloc: Global, count: u32) -> Result<Bytes, OutOfMemory>
    requires { count < 2147483648 }
{
    let mut writer = Writer::new(alloc);
    writer.struct_begin()?;
    writer.list_field(1, TKind::I8, count)?;
    for _item in 0..count {
        writer.item_whole(0)?;
    }
    writer.struct_end()?;
    Ok(writer.finish())
}

#[test]
fn writes_structs(rt: HostRuntime) -> Result<(), Fail> {
    let written = file_crypto_metadata(rt.alloc())?;
    let spelling = b"\x1c\x1c\x28\x08\0\x01\x02\x03\x04\x05\x06\x07\0\0\x18\x02kf\0".as_slice();
    assert_eq!(rt; written.as_slice(), spelling);
    let written = page_header(rt.alloc())?;
    let spelling = b"\x15\0\x15\x20\x15\x20\x2c\x15\x08\x15\0\x15\x06\x15\x06\0\0".as_slice();
    assert_eq!(rt; written.as_slice(), spelling);
    Ok(())
}

#[test]
fn writes_ids(rt: HostRuntime) -> Result<(), Fail> {
    let written = ids_far_and_near(rt.alloc())?;
    let spelling = b"\x03\x01\xff\xf4\x03\x06\x3c\x80\x01\x12\x01\xfe\xff\x03\0".as_slice();
    assert_eq!(rt; written.as_slice(), spelling);
    Ok(())
}

#[test]
fn writes_lists(rt: HostRuntime) -> Result<(), Fail> {
    let written = numbers_and_binaries(rt.alloc())?;
    let spelling = b"\x19\x35\x02\x04\x06\x19\x28\x01a\0\0".as_slice();
    assert_eq!(rt; written.as_slice(), spelling);
    let written = list_of_structs(rt.alloc())?;
    let spelling = b"\x19\x2c\x29\x14\x0a\0\0\x21\0".as_slice();
    assert_eq!(rt; written.as_slice(), spelling);
    let written = empty_lists(rt.alloc())?;
    let spelling = b"\x19\x0c\x19\x0c\x19\x0c\0".as_slice();
    assert_eq!(rt; written.as_slice(), spelling);
    Ok(())
}

#[test]
fn writes_long_lists(rt: HostRuntime) -> Result<(), Fail> {
    let written = zeros(rt.alloc(), 14)?;
    let spelling = b"\x19\xe3\0\0\0\0\0\0\0\0\0\0\0\0\0\0\0".as_slice();
    assert_eq!(rt; written.as_slice(), spelling);
    let written = zeros(rt.alloc(), 15)?;
    let spelling = b"\x19\xf3\x0f\0\0\0\0\0\0\0\0\0\0\0\0\0\0\0\0".as_slice();
    assert_eq!(rt; written.as_slice(), spelling);
    Ok(())
}
