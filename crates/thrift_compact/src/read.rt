// Reading a struct into a tree: functions for a field's value, for an element, and for each container.
ghost use Rattle.std.specs.Prelude.{◌≡◌, ℕ, ◌<◌, ◌≤◌, List, ◌++◌, length, take, OnOk, IfOk, IfErr};
ghost use Rattle.thrift_compact.specs.declared.kind.TKind.TheVariants as kinds;
ghost use Rattle.thrift_compact.specs.Grammar.{Spells};
ghost use Rattle.thrift_compact.specs.Spelled.{AreBytes};
ghost use Rattle.thrift_compact.specs.Tree.{Tree};
ghost use Rattle.thrift_compact.specs.Answers.{Gives};
ghost use Rattle.thrift_compact.specs.Reading.{element, nest, value as value_at};
ghost use Rattle.thrift_compact.specs.View.{view, list_view, map_view, struct_view};
ghost use Rattle.thrift_compact.specs.Whole.{ReadsTree, IsReadAs, ReportsFault, IsRefusedFor};
ghost use Rattle.thrift_compact.specs.Faults.{HasFault};
ghost use Rattle.pme_base.specs.declared.refusal.ThriftFault.{ThriftFault};

use crate::cursor::{Cursor, Stop};
use crate::heads::{field_head, list_head, map_kinds};
use crate::ids::Ids;
use crate::kind::TKind;
use crate::refusal::ThriftRefusal;
use crate::tree::{TFields, TList, TMap, TVal};
use pme_base::Bytes;
use std::alloc::Global;

/// The deepest nesting of structs, lists, sets and maps. The outermost struct is level 1.
const MAX_DEPTH: u32 = 32;

/// Limit of the capacity that a list or a map reserves for the count in its head. Beyond it the list grows while it is
/// read, since a count may be greater than the number of elements that follow.
const FIRST_CAPACITY: u32 = 4;

/// Reads the struct that `bytes` begins with. Returns its tree and its length in bytes; the bytes after it may have any
/// values. A fault is reported with its byte offset in `bytes`.
pub fn read_tree(alloc: Global, bytes: &[u8]) -> Result<(TVal, usize), ThriftRefusal>
    ensures exact { ReadsTree bytes.now result }
    // The returned tree is spelled by the first bytes, and a tree that the first bytes spell is returned.
    ensures found { IfOk result
        (λ read. Spells 32 kinds.Struct (view read.0) (take read.1 bytes.now)) }
    ensures only { (tree : Tree) (front rest : List ℕ) → Spells 32 kinds.Struct tree front →
        bytes.now ≡ front ++ rest → IsReadAs tree front result }
    ensures within { IfOk result (λ read. read.1 ≤ length bytes.now) }
    // A refusal reports a fault that the bytes have, and a fault that they have is reported.
    ensures refused { IfErr result (λ refusal. ReportsFault bytes.now refusal) }
    ensures faulty { (why : ThriftFault) (at : ℕ) →
        HasFault bytes.now why at → IsRefusedFor why at result }
{
    read_struct(alloc, bytes)
}

fn read_struct(alloc: Global, bytes: &[u8]) -> Result<(TVal, usize), ThriftRefusal>
    ensures exact { ReadsTree bytes.now result }
    ensures bytes { AreBytes bytes.now }
    ensures within { IfOk result (λ read. read.1 ≤ length bytes.now) }
{
    let mut cursor = Cursor::new(bytes);
    match read_fields(alloc, &mut cursor, MAX_DEPTH) {
        Ok(fields) => Ok((
            TVal::Struct(fields),
            bytes.len().saturating_sub(cursor.left()),
        )),
        Err(stop) => Err(stop.refusal(bytes.len())),
    }
}

/// Reads the value of a field. `depth_left` is the number of levels of structs, lists, sets and maps that may still be
/// opened.
#[cycle(read)]
fn read_value(
    alloc: Global,
    cursor: &mut Cursor<'_>,
    depth_left: u32,
    kind: TKind,
) -> Result<TVal, Stop>
    ensures value { Gives view result cursor.new (value_at depth_left kind cursor.old) }
    ensures shorter { OnOk result (length cursor.new ≤ length cursor.old) }
{
    match kind {
        TKind::True => Ok(TVal::Bool(true)),
        TKind::False => Ok(TVal::Bool(false)),
        TKind::I8 => Ok(TVal::I8(cursor.int8()?)),
        TKind::I16 => Ok(TVal::I16(cursor.int16()?)),
        TKind::I32 => Ok(TVal::I32(cursor.int32()?)),
        TKind::I64 => Ok(TVal::I64(cursor.int64()?)),
        TKind::Double => Ok(TVal::Double(cursor.double()?)),
        TKind::Binary => {
            let bytes = cursor.binary()?;
            Ok(TVal::Binary(Bytes::copy_of(alloc, bytes)?))
        }
        TKind::List => Ok(TVal::List(read_list(alloc, cursor, depth_left)?)),
        TKind::Set => Ok(TVal::Set(read_list(alloc, cursor, depth_left)?)),
        TKind::Map => Ok(TVal::Map(read_map(alloc, cursor, depth_left)?)),
        TKind::Struct => Ok(TVal::Struct(read_fields(alloc, cursor, depth_left)?)),
    }
}

/// Reads an element of a list or set, or a key or value of a map. A boolean takes one byte there.
#[cycle(read)]
fn read_element(
    alloc: Global,
    cursor: &mut Cursor<'_>,
    depth_left: u32,
    kind: TKind,
) -> Result<TVal, Stop>
    ensures value { Gives view result cursor.new (element (value_at depth_left) kind cursor.old) }
    ensures shorter { OnOk result (length cursor.new ≤ length cursor.old) }
{
    match kind {
        TKind::True => Ok(TVal::Bool(cursor.truth()?)),
        TKind::False => Ok(TVal::Bool(cursor.truth()?)),
        _ => read_value(alloc, cursor, depth_left, kind),
    }
}

/// Reads a list or a set.
#[cycle(read)]
fn read_list(alloc: Global, cursor: &mut Cursor<'_>, depth_left: u32) -> Result<TList, Stop>
    ensures value { Gives list_view result cursor.new ((nest depth_left).trees cursor.old) }
    ensures shorter { OnOk result (length cursor.new ≤ length cursor.old) }
{
    let inner = cursor.enter(depth_left)?;
    let (kind, count) = list_head(cursor)?;
    let mut list = TList::with_capacity(alloc, count.min(FIRST_CAPACITY) as usize)?;
    for _turn in 0..count {
        let item = read_element(alloc, cursor, inner, kind)?;
        list.push(item)?;
    }
    Ok(list)
}

#[cycle(read)]
fn read_map(alloc: Global, cursor: &mut Cursor<'_>, depth_left: u32) -> Result<TMap, Stop>
    ensures value { Gives map_view result cursor.new ((nest depth_left).pairs cursor.old) }
    ensures shorter { OnOk result (length cursor.new ≤ length cursor.old) }
{
    let inner = cursor.enter(depth_left)?;
    let count = cursor.size()?;
    if count == 0 {
        return Ok(TMap::new(alloc));
    }
    let (key_kind, value_kind) = map_kinds(cursor)?;
    let mut map = TMap::with_capacity(alloc, count.min(FIRST_CAPACITY) as usize)?;
    for _turn in 0..count {
        let key = read_element(alloc, cursor, inner, key_kind)?;
        let value = read_element(alloc, cursor, inner, value_kind)?;
        map.push((key, value))?;
    }
    Ok(map)
}

/// Reads the fields of a struct and its stop byte.
#[cycle(read)]
fn read_fields(alloc: Global, cursor: &mut Cursor<'_>, depth_left: u32) -> Result<TFields, Stop>
    ensures value { Gives struct_view result cursor.new ((nest depth_left).fields cursor.old) }
    ensures shorter { OnOk result (length cursor.new ≤ length cursor.old) }
{
    let inner = cursor.enter(depth_left)?;
    let mut ids = Ids::new(alloc);
    let mut fields = TFields::with_capacity(alloc, 1)?;
    while let Some((id, kind)) = field_head(cursor, &mut ids)? {
        let value = read_value(alloc, cursor, inner, kind)?;
        fields.push((id, value))?;
    }
    Ok(fields)
}
