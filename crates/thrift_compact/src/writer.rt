// A typed writer of one struct.
ghost use Rattle.std.specs.Prelude.{◌≡◌, ◌++◌, ◌∷◌, [], List, ℕ, length, take, OnOk, OnErr};
ghost use Rattle.thrift_compact.specs.Calls as call;
ghost use Rattle.thrift_compact.specs.Spelling.{spelling, field_head_of, list_head_of, Extends};
ghost use Rattle.thrift_compact.specs.Tree.{kind_of_tree, truth as truth_tree, binary as binary_tree, whole_tree};
ghost use Rattle.thrift_compact.specs.Writing.{new_draft, after, May, IsWhole, id_before, item_kind, named_kind, one_less, with_field, resumed};

use crate::canonical::put_binary;
use crate::kind::TKind;
use crate::put::{put_field_head, put_int8, put_list_head, put_number};
use pme_base::{Bytes, OutOfMemory};
use std::alloc::Global;
use std::collections::VecDeque;
use std::marker::Model;

/// A part of the tree that the writer has open, or its state before or after the tree.
#[derive(Clone, Copy, Drop)]
enum Part {
    /// Before the outermost struct.
    Start,
    /// A struct, with the id of its last field if it has one yet.
    Struct(Option<i16>),
    /// A list, with the kind of its items and the number of items still to be written.
    List(TKind, u32),
    /// After the outermost struct.
    End,
}

impl Part {
    fn id_before(self) -> i16
        ensures { result ≡ id_before self }
    {
        match self {
            Part::Struct(Some(id)) => id,
            _ => 0,
        }
    }

    fn item_kind(self) -> TKind
        ensures { result ≡ item_kind self }
    {
        match self {
            Part::List(kind, _) => kind,
            _ => TKind::I64,
        }
    }

    fn one_less(self) -> Part
        ensures { result ≡ one_less self }
    {
        match self {
            Part::List(kind, count) => Part::List(kind, count.saturating_sub(1)),
            other => other,
        }
    }
}

/// Removes the innermost parts up to the first that isn't a completed list, and returns that one; End if there is none.
fn next_open(outer: &mut VecDeque<Part>) -> Part
    ensures { (out : List ℕ) →
        resumed out outer.old.items ≡ record { out = out; inner = result; outer = outer.new.items } }
{
    while let Some(part) = outer.pop_front() {
        if let Part::List(_, 0) = part {
            continue;
        }
        return part;
    }
    Part::End
}

/// Writes one struct, with all values inside it, in the canonical spelling. The calls follow the tree: the fields of a
/// struct come by ascending id, and the items of a list right after its `list_field`, which names their number. At most
/// 32 structs and lists may be nested. A call that returns OutOfMemory leaves the writer unchanged.
#[derive(Drop)]
pub struct Writer {
    out: Bytes,
    inner: Part,
    outer: VecDeque<Part>,
}

impl Model for Writer {
    ghost use Rattle.thrift_compact.specs.Writing.{Draft};

    ghost Value = { Draft };

    ghost view = { λ w. record { out = w.out; inner = w.inner; outer = w.outer.items } };
}

impl Writer {
    /// Returns a writer that has written nothing. It allocates nothing.
    pub fn new(alloc: Global) -> Writer
        ensures { result ≡ new_draft }
    {
        Writer {
            out: Bytes::new(alloc),
            inner: Part::Start,
            outer: VecDeque::new(alloc),
        }
    }

    /// Begins the outermost struct, or the next item of a list of structs.
    pub fn struct_begin(&mut self) -> Result<(), OutOfMemory>
        requires { May call.struct_begin self.old }
        ensures ok { OnOk result (self.new ≡ after call.struct_begin self.old) }
        ensures unchanged { OnErr result (self.new ≡ self.old) }
    {
        match self.inner {
            Part::Start => {}
            part => self.outer.push_front(part.one_less())?,
        }
        self.inner = Part::Struct(None);
        Ok(())
    }

    /// Writes an integer field. `kind` is from I8 to I64, and `value` is in its range.
    pub fn whole(&mut self, id: i16, kind: TKind, value: i64) -> Result<(), OutOfMemory>
        requires { May (call.whole id kind value) self.old }
        ensures ok { OnOk result (self.new ≡ after (call.whole id kind value) self.old) }
        ensures unchanged { OnErr result (self.new ≡ self.old) }
    {
        let start = self.out.len();
        let put = put_whole_field(&mut self.out, self.inner.id_before(), id, kind, value);
        truncate_on_error(&mut self.out, start, put)?;
        self.inner = Part::Struct(Some(id));
        Ok(())
    }

    /// Writes a boolean field.
    pub fn truth(&mut self, id: i16, value: bool) -> Result<(), OutOfMemory>
        requires { May (call.truth id value) self.old }
        ensures ok { OnOk result (self.new ≡ after (call.truth id value) self.old) }
        ensures unchanged { OnErr result (self.new ≡ self.old) }
    {
        let kind = if value { TKind::True } else { TKind::False };
        self.head(id, kind)
    }

    /// Writes a binary field.
    pub fn binary(&mut self, id: i16, bytes: &[u8]) -> Result<(), OutOfMemory>
        requires { May (call.binary id bytes.now) self.old }
        ensures ok { OnOk result (self.new ≡ after (call.binary id bytes.now) self.old) }
        ensures unchanged { OnErr result (self.new ≡ self.old) }
    {
        let start = self.out.len();
        let put = put_binary_field(&mut self.out, self.inner.id_before(), id, bytes);
        truncate_on_error(&mut self.out, start, put)?;
        self.inner = Part::Struct(Some(id));
        Ok(())
    }

    /// Begins a struct field. Its fields follow, and `struct_end`.
    pub fn struct_field(&mut self, id: i16) -> Result<(), OutOfMemory>
        requires { May (call.struct_field id) self.old }
        ensures ok { OnOk result (self.new ≡ after (call.struct_field id) self.old) }
        ensures unchanged { OnErr result (self.new ≡ self.old) }
    {
        self.outer.reserve(1)?;
        let start = self.out.len();
        let put = put_field_head(&mut self.out, self.inner.id_before(), id, TKind::Struct);
        truncate_on_error(&mut self.out, start, put)?;
        self.outer.push_front_reserved(Part::Struct(Some(id)));
        self.inner = Part::Struct(None);
        Ok(())
    }

    /// Begins a list field of `count` items of a kind. The calls for its items follow. The head of a list of booleans has
    /// the kind True.
    pub fn list_field(&mut self, id: i16, kind: TKind, count: u32) -> Result<(), OutOfMemory>
        requires { May (call.list_field id kind count) self.old }
        ensures ok { OnOk result (self.new ≡ after (call.list_field id kind count) self.old) }
        ensures unchanged { OnErr result (self.new ≡ self.old) }
    {
        self.outer.reserve(1)?;
        let start = self.out.len();
        let put = put_list_field(&mut self.out, self.inner.id_before(), id, kind, count);
        truncate_on_error(&mut self.out, start, put)?;
        self.inner = Part::Struct(Some(id));
        if count > 0 {
            self.outer.push_front_reserved(Part::Struct(Some(id)));
            self.inner = Part::List(kind, count);
        }
        Ok(())
    }

    /// Writes the next item of a list of integers. `value` is in the range of the list's kind.
    pub fn item_whole(&mut self, value: i64) -> Result<(), OutOfMemory>
        requires { May (call.item_whole value) self.old }
        ensures ok { OnOk result (self.new ≡ after (call.item_whole value) self.old) }
        ensures unchanged { OnErr result (self.new ≡ self.old) }
    {
        let start = self.out.len();
        let put = put_whole(&mut self.out, self.inner.item_kind(), value);
        truncate_on_error(&mut self.out, start, put)?;
        self.item_done();
        Ok(())
    }

    /// Writes the next item of a list of binaries.
    pub fn item_binary(&mut self, bytes: &[u8]) -> Result<(), OutOfMemory>
        requires { May (call.item_binary bytes.now) self.old }
        ensures ok { OnOk result (self.new ≡ after (call.item_binary bytes.now) self.old) }
        ensures unchanged { OnErr result (self.new ≡ self.old) }
    {
        let start = self.out.len();
        let put = put_binary(&mut self.out, bytes);
        truncate_on_error(&mut self.out, start, put)?;
        self.item_done();
        Ok(())
    }

    /// Ends the innermost struct.
    pub fn struct_end(&mut self) -> Result<(), OutOfMemory>
        requires { May call.struct_end self.old }
        ensures ok { OnOk result (self.new ≡ after call.struct_end self.old) }
        ensures unchanged { OnErr result (self.new ≡ self.old) }
    {
        self.out.push(0)?;
        self.inner = next_open(&mut self.outer);
        Ok(())
    }

    /// Returns the bytes written. The outermost struct has ended.
    pub fn finish(self) -> Bytes
        requires { self.inner ≡ Part.End }
        ensures { result ≡ self.out }
    {
        self.out
    }

    /// Writes a field that has no bytes after its head.
    fn head(&mut self, id: i16, kind: TKind) -> Result<(), OutOfMemory>
        ensures ok { OnOk result (self.new ≡ with_field id kind [] self.old) }
        ensures unchanged { OnErr result (self.new ≡ self.old) }
    {
        let start = self.out.len();
        let put = put_field_head(&mut self.out, self.inner.id_before(), id, kind);
        truncate_on_error(&mut self.out, start, put)?;
        self.inner = Part::Struct(Some(id));
        Ok(())
    }

    /// Counts one item of the innermost list as written, and closes the list after its last item.
    fn item_done(&mut self)
        ensures { self.new ≡ resumed self.old.out (one_less self.old.inner ∷ self.old.outer) }
    {
        match self.inner.one_less() {
            Part::List(_, 0) => self.inner = next_open(&mut self.outer),
            part => self.inner = part,
        }
    }
}

/// Truncates `into` to `length` bytes if appending to it failed, and returns `put`, the result of the appending call.
fn truncate_on_error(
    into: &mut Bytes,
    length: usize,
    put: Result<(), OutOfMemory>,
) -> Result<(), OutOfMemory>
    ensures same { result ≡ put }
    ensures ok { OnOk put (into.new ≡ into.old) }
    ensures cut { OnErr put (into.new ≡ take length into.old) }
{
    if put.is_err() {
        into.truncate(length);
    }
    put
}

/// Appends an integer of a kind from I8 to I64.
fn put_whole(into: &mut Bytes, kind: TKind, value: i64) -> Result<(), OutOfMemory>
    requires { IsWhole kind value }
    ensures ok { OnOk result (into.new ≡ into.old ++ spelling (whole_tree kind value)) }
    ensures kept { OnErr result (Extends into.old into.new) }
{
    match kind {
        TKind::I8 => put_int8(into, value as i8),
        _ => put_number(into, value),
    }
}

fn put_whole_field(
    into: &mut Bytes,
    before: i16,
    id: i16,
    kind: TKind,
    value: i64,
) -> Result<(), OutOfMemory>
    requires { IsWhole kind value }
    ensures ok { OnOk result
        (into.new ≡ into.old ++ (field_head_of before id kind ++ spelling (whole_tree kind value))) }
    ensures kept { OnErr result (Extends into.old into.new) }
{
    put_field_head(into, before, id, kind)?;
    put_whole(into, kind, value)
}

fn put_binary_field(into: &mut Bytes, before: i16, id: i16, bytes: &[u8]) -> Result<(), OutOfMemory>
    ensures ok { OnOk result
        (into.new ≡ into.old
        ++ (field_head_of before id TKind.Binary ++ spelling (binary_tree bytes.now))) }
    ensures kept { OnErr result (Extends into.old into.new) }
{
    put_field_head(into, before, id, TKind::Binary)?;
    put_binary(into, bytes)
}

/// Appends the head of a list field and the head of its list.
fn put_list_field(
    into: &mut Bytes,
    before: i16,
    id: i16,
    kind: TKind,
    count: u32,
) -> Result<(), OutOfMemory>
    ensures ok { OnOk result
        (into.new ≡ into.old
        ++ (field_head_of before id TKind.List ++ list_head_of (named_kind kind count) count)) }
    ensures kept { OnErr result (Extends into.old into.new) }
{
    put_field_head(into, before, id, TKind::List)?;
    put_list_head(into, named_kind(kind, count), u64::from(count))
}

/// The element kind in the head of a list: Struct for an empty list, and True for booleans.
fn named_kind(kind: TKind, count: u32) -> TKind
    ensures { result ≡ named_kind kind count }
{
    match (kind, count) {
        (_, 0) => TKind::Struct,
        (TKind::False, _) => TKind::True,
        _ => kind,
    }
}
