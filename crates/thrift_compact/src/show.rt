// The text of a tree.
ghost use Rattle.std.specs.Prelude.{◌≡◌, ◌∷◌, [], ◌++◌, OnOk, OnErr};
ghost use Rattle.std.specs.Io.{StartsWith};
ghost use Rattle.hex.specs.Hex.{encode_lower};
ghost use Rattle.thrift_compact.specs.Text as text;
ghost use Rattle.thrift_compact.specs.View.{view, list_view, map_view, struct_view};

use crate::tree::{TFields, TList, TMap, TVal};
use byte_texts::{push_hex, push_signed, push_truth};
use pme_base::{Bytes, OutOfMemory};

/// Appends the text of a tree to `into`, without a line feed. A struct is `{1: value, 2: value}` with its fields in stored
/// order, a list `[value, value]`, a set `<value, value>`, a map `(key=>value, key=>value)`. Numbers are decimal,
/// booleans `true` and `false`; a binary is `x` and its bytes in lower-case hex, a double `d` and its 8 bytes in hex.
/// On OutOfMemory a part of the text may have been appended.
#[cycle(show)]
pub fn show_tree(value: &TVal, into: &mut Bytes) -> Result<(), OutOfMemory>
    ensures ok { OnOk result (into.new ≡ into.old ++ text.shown (view value.now)) }
    ensures kept { OnErr result (StartsWith into.new into.old) }
{
    match value {
        TVal::Bool(truth) => push_truth(into, *truth),
        TVal::I8(number) => push_signed(into, i64::from(*number)),
        TVal::I16(number) => push_signed(into, i64::from(*number)),
        TVal::I32(number) => push_signed(into, i64::from(*number)),
        TVal::I64(number) => push_signed(into, *number),
        TVal::Double(bytes) => push_binary(into, b'd', bytes),
        TVal::Binary(bytes) => push_binary(into, b'x', bytes.as_slice()),
        TVal::List(list) => show_list(list, b'[', b']', into),
        TVal::Set(set) => show_list(set, b'<', b'>', into),
        TVal::Map(map) => show_map(map, into),
        TVal::Struct(fields) => show_struct(fields, into),
    }
}

#[cycle(show)]
fn show_list(list: &TList, opening: u8, closing: u8, into: &mut Bytes) -> Result<(), OutOfMemory>
    ensures ok { OnOk result
        (into.new ≡ into.old
        ++ opening ∷ (text.joined (text.item_texts (list_view list.now)) ++ closing ∷ [])) }
    ensures kept { OnErr result (StartsWith into.new into.old) }
{
    into.push(opening)?;
    let mut first = true;
    for item in list.items.as_slice() {
        show_item(item, first, into)?;
        first = false;
    }
    into.push(closing)
}

#[cycle(show)]
fn show_item(item: &TVal, first: bool, into: &mut Bytes) -> Result<(), OutOfMemory>
    ensures ok { OnOk result
        (into.new ≡ into.old ++ (text.comma first ++ text.shown (view item.now))) }
    ensures kept { OnErr result (StartsWith into.new into.old) }
{
    push_comma(into, first)?;
    show_tree(item, into)
}

#[cycle(show)]
fn show_map(map: &TMap, into: &mut Bytes) -> Result<(), OutOfMemory>
    ensures ok { OnOk result
        (into.new ≡ into.old ++ 40 ∷ (text.joined (text.pair_texts (map_view map.now)) ++ 41 ∷ [])) }
    ensures kept { OnErr result (StartsWith into.new into.old) }
{
    into.push(b'(')?;
    let mut first = true;
    for pair in map.pairs.as_slice() {
        show_pair(pair, first, into)?;
        first = false;
    }
    into.push(b')')
}

#[cycle(show)]
fn show_pair(pair: &(TVal, TVal), first: bool, into: &mut Bytes) -> Result<(), OutOfMemory>
    ensures ok { OnOk result
        (into.new ≡ into.old
        ++ (text.comma first
        ++ text.pair_text (text.shown (view pair.now.0)) (text.shown (view pair.now.1)))) }
    ensures kept { OnErr result (StartsWith into.new into.old) }
{
    push_comma(into, first)?;
    show_tree(&pair.0, into)?;
    into.extend(b"=>")?;
    show_tree(&pair.1, into)
}

#[cycle(show)]
fn show_struct(fields: &TFields, into: &mut Bytes) -> Result<(), OutOfMemory>
    ensures ok { OnOk result
        (into.new ≡ into.old
        ++ 123 ∷ (text.joined (text.field_texts (struct_view fields.now)) ++ 125 ∷ [])) }
    ensures kept { OnErr result (StartsWith into.new into.old) }
{
    into.push(b'{')?;
    let mut first = true;
    for field in fields.fields.as_slice() {
        show_field(field.0, &field.1, first, into)?;
        first = false;
    }
    into.push(b'}')
}

#[cycle(show)]
fn show_field(id: i16, value: &TVal, first: bool, into: &mut Bytes) -> Result<(), OutOfMemory>
    ensures ok { OnOk result
        (into.new ≡ into.old ++ (text.comma first ++ text.field_text id (text.shown (view value.now)))) }
    ensures kept { OnErr result (StartsWith into.new into.old) }
{
    push_comma(into, first)?;
    push_signed(into, i64::from(id))?;
    into.extend(b": ")?;
    show_tree(value, into)
}

/// Appends a comma and a space, except before the first item.
fn push_comma(into: &mut Bytes, first: bool) -> Result<(), OutOfMemory>
    ensures ok { OnOk result (into.new ≡ into.old ++ text.comma first) }
    ensures kept { OnErr result (into.new ≡ into.old) }
{
    if first { Ok(()) } else { into.extend(b", ") }
}

/// Appends `letter`, and `bytes` in lower-case hex.
fn push_binary(into: &mut Bytes, letter: u8, bytes: &[u8]) -> Result<(), OutOfMemory>
    ensures ok { OnOk result (into.new ≡ into.old ++ letter ∷ encode_lower bytes.now) }
    ensures kept { OnErr result (StartsWith into.new into.old) }
{
    into.push(letter)?;
    push_hex(into, bytes)
}
