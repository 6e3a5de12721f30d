// A typed reader: the caller says which value it expects next, and no tree is built.
ghost use Rattle.std.specs.Prelude.{◌≡◌, ◌≢◌, ℕ, ◌-◌, ◌<◌, ◌≤◌, [], ◌∷◌, length, OnOk, IfErr};
ghost use Rattle.thrift_compact.specs.Answers.{Gives, skipped};
ghost use Rattle.thrift_compact.specs.declared.frame.Frame.TheVariants as frame;
ghost use Rattle.thrift_compact.specs.Reading.{element as element_at, value as value_at, field_head as field_head_at};
ghost use Rattle.thrift_compact.specs.Standing.{depth_left, IsStruct, ids_of, head_of, TakesHead, IsList, BeginsStruct, BeginsList, ReadsField, Closes, GivesAt, Skips, IsWholeKind};
ghost use Rattle.thrift_compact.specs.Tree.{binary as binary_tree, whole_tree};

use crate::cursor::{Cursor, Stop};
use crate::frame::{FieldHead, Frame};
use crate::heads::{field_head, list_head};
use crate::ids::Ids;
use crate::kind::TKind;
use crate::refusal::ThriftRefusal;
use crate::skip::{skip_element, skip_value};
use std::alloc::Global;
use std::collections::VecDeque;
use std::marker::Model;
use std::mem;

/// Reads the struct at the start of its bytes, one part a call. A refusal reports the fault's byte offset from the start of
/// all the bytes. After a refusal the answers of further calls mean nothing.
#[derive(Drop)]
pub struct Reader<'a> {
    alloc: Global,
    cursor: Cursor<'a>,
    size: usize,
    inner: Frame,
    outer: VecDeque<Frame>,
}

impl<'a> Model for Reader<'a> {
    ghost use Rattle.thrift_compact.specs.Standing.{Standing, IsStack};

    ghost Value = { Standing };

    ghost view = { λ r. record { rest = r.cursor; size = r.size; inner = r.inner; outer = r.outer.items } };

    ghost invariant = { λ r. IsStack r.inner r.outer.items };
}

impl<'a> Reader<'a> {
    /// Returns a reader at the start of `bytes`. It allocates nothing.
    pub fn new(alloc: Global, bytes: &'a [u8]) -> Reader<'a>
        ensures { result ≡
            record { rest = bytes.now; size = length bytes.now; inner = frame.Outside; outer = [] } }
    {
        Reader {
            alloc,
            cursor: Cursor::new(bytes),
            size: bytes.len(),
            inner: Frame::Outside,
            outer: VecDeque::new(alloc),
        }
    }

    /// The number of bytes that were read.
    pub fn offset(&self) -> usize
        ensures { result ≡ self.now.size - length self.now.rest }
    {
        self.size.saturating_sub(self.cursor.left())
    }

    /// Opens a struct, whose fields are then read by `field`. It is refused where 32 structs, lists and sets are open
    /// already: as Depth, or as End if no byte is left.
    pub fn struct_begin(&mut self) -> Result<(), ThriftRefusal>
        ensures value { BeginsStruct self.old self.new result }
        ensures shorter { OnOk result (length self.new.rest ≤ length self.old.rest) }
    {
        if let Err(stop) = self.cursor.enter(self.depth_left()) {
            return Err(stop.refusal(self.size));
        }
        self.push(Frame::Struct(Ids::new(self.alloc)))
    }

    /// Reads the head of the next field of the innermost struct. At the stop byte it closes the struct and returns None.
    pub fn field(&mut self) -> Result<Option<FieldHead>, ThriftRefusal>
        requires { IsStruct self.old.inner }
        ensures value { ReadsField self.old self.new result }
        ensures shorter { OnOk result (length self.new.rest < length self.old.rest) }
    {
        match next_head(&mut self.cursor, &mut self.inner) {
            Ok(Some(head)) => Ok(Some(head)),
            Ok(None) => {
                self.close();
                Ok(None)
            }
            Err(stop) => Err(stop.refusal(self.size)),
        }
    }

    /// Reads an integer of a kind from I8 to I64.
    pub fn whole(&mut self, kind: TKind) -> Result<i64, ThriftRefusal>
        requires { IsWholeKind kind }
        ensures value { GivesAt (whole_tree kind) self.old self.new result
            (value_at (depth_left self.old) kind self.old.rest) }
        ensures shorter { OnOk result (length self.new.rest < length self.old.rest) }
    {
        match whole_at(&mut self.cursor, kind) {
            Ok(number) => Ok(number),
            Err(stop) => Err(stop.refusal(self.size)),
        }
    }

    /// Reads a binary, as a slice of the input.
    pub fn binary(&mut self) -> Result<&'a [u8], ThriftRefusal>
        ensures value { GivesAt (λ bytes. binary_tree bytes.now) self.old self.new result
            (value_at (depth_left self.old) TKind.Binary self.old.rest) }
        ensures shorter { OnOk result (length self.new.rest < length self.old.rest) }
    {
        let bytes = match self.cursor.binary() {
            Ok(bytes) => bytes,
            Err(stop) => return Err(stop.refusal(self.size)),
        };
        Ok(bytes)
    }

    /// Opens a list or a set and returns the kind of its elements and their number. The caller reads or skips each element
    /// and then calls `list_end`.
    pub fn list_begin(&mut self) -> Result<(TKind, u32), ThriftRefusal>
        ensures value { BeginsList self.old self.new result }
        ensures shorter { OnOk result (length self.new.rest < length self.old.rest) }
    {
        if let Err(stop) = self.cursor.enter(self.depth_left()) {
            return Err(stop.refusal(self.size));
        }
        let head = match list_head(&mut self.cursor) {
            Ok(head) => head,
            Err(stop) => return Err(stop.refusal(self.size)),
        };
        self.push(Frame::List)?;
        Ok(head)
    }

    /// Skips the value of a field. True and False take no byte there.
    pub fn skip(&mut self, kind: TKind) -> Result<(), ThriftRefusal>
        ensures value { Skips self.old self.new kind result }
        ensures shorter { OnOk result (length self.new.rest ≤ length self.old.rest) }
    {
        let depth_left = self.depth_left();
        if let Err(stop) = skip_value(self.alloc, &mut self.cursor, depth_left, kind) {
            return Err(stop.refusal(self.size));
        }
        Ok(())
    }

    /// Skips an element of a list or a set. A boolean takes one byte there.
    pub fn skip_element(&mut self, kind: TKind) -> Result<(), ThriftRefusal>
        ensures value { GivesAt (λ u. u) self.old self.new result
            (skipped (element_at (value_at (depth_left self.old)) kind self.old.rest)) }
        ensures shorter { OnOk result (length self.new.rest ≤ length self.old.rest) }
    {
        let depth_left = self.depth_left();
        match skip_element(self.alloc, &mut self.cursor, depth_left, kind) {
            Ok(()) => Ok(()),
            Err(stop) => Err(stop.refusal(self.size)),
        }
    }

    // How many levels of structs, lists, sets and maps may still be opened.
    fn depth_left(&self) -> u32
        ensures { result ≡ depth_left self.now }
    {
        32u32.saturating_sub(self.outer.len().min(32) as u32)
    }

    // Opens a part inside the innermost one.
    fn push(&mut self, opened: Frame) -> Result<(), ThriftRefusal>
        requires { opened ≢ frame.Outside }
        ensures rest { OnOk result (self.new.rest ≡ self.old.rest) }
        ensures size { OnOk result (self.new.size ≡ self.old.size) }
        ensures inner { OnOk result (self.new.inner ≡ opened) }
        ensures outer { OnOk result (self.new.outer ≡ self.old.inner ∷ self.old.outer) }
        ensures memory { IfErr result (λ refusal. refusal ≡ ThriftRefusal.OutOfMemory) }
    {
        if self.outer.reserve(1).is_err() {
            return Err(ThriftRefusal::OutOfMemory);
        }
        let around = mem::replace(&mut self.inner, opened);
        self.outer.push_front_reserved(around);
        Ok(())
    }

    /// Closes the innermost list or set, after its elements were read.
    pub fn list_end(&mut self)
        requires { IsList self.old.inner }
        ensures rest { self.new.rest ≡ self.old.rest }
        ensures closes { Closes self.old self.new }
    {
        self.close();
    }

    // Closes the innermost part.
    fn close(&mut self)
        requires { self.old.inner ≢ frame.Outside }
        ensures rest { self.new.rest ≡ self.old.rest }
        ensures closes { Closes self.old self.new }
    {
        if let Some(around) = self.outer.pop_front() {
            self.inner = around;
        }
    }
}

// Reads the head of the next field of the struct `inner`.
fn next_head(cursor: &mut Cursor<'_>, inner: &mut Frame) -> Result<Option<FieldHead>, Stop>
    requires { IsStruct inner.old }
    ensures value { Gives head_of result cursor.new (field_head_at (ids_of inner.old) cursor.old) }
    ensures shorter { OnOk result (length cursor.new < length cursor.old) }
    ensures taken { TakesHead result inner.old inner.new }
{
    match inner {
        Frame::Struct(ids) => match field_head(cursor, ids) {
            Ok(Some((id, kind))) => Ok(Some(FieldHead { id, kind })),
            Ok(None) => Ok(None),
            Err(stop) => Err(stop),
        },
        Frame::Outside => unreachable!(),
        Frame::List => unreachable!(),
    }
}

// Reads an integer of a kind from I8 to I64.
fn whole_at(cursor: &mut Cursor<'_>, kind: TKind) -> Result<i64, Stop>
    requires { IsWholeKind kind }
    ensures value { (depth : ℕ) →
        Gives (whole_tree kind) result cursor.new (value_at depth kind cursor.old) }
    ensures shorter { OnOk result (length cursor.new < length cursor.old) }
{
    match kind {
        TKind::I8 => Ok(i64::from(cursor.int8()?)),
        TKind::I16 => Ok(i64::from(cursor.int16()?)),
        TKind::I32 => Ok(i64::from(cursor.int32()?)),
        TKind::I64 => Ok(cursor.int64()?),
        _ => unreachable!(),
    }
}
