// Lists that own their memory, and their iterator.
ghost use Rattle.std.specs.Prelude.{◌≡◌, [], ◌∷◌, ◌++◌, ◌==◌, length, slice_get, OnOk, OnErr, MatchOption};
ghost use Rattle.std.specs.Option.{option_copied};

use crate::memory_error::OutOfMemory;
use std::alloc::Global;
use std::marker::Model;
use std::vec::IntoIter;

/// A list of values that owns its memory. A contract sees it as the list of its items.
/// The list types of the other crates are aliases of this one.
#[derive(Debug, Drop)]
pub struct Sequence<T> {
    items: Vec<T>,
}

impl<T> Model for Sequence<T> {
    ghost use Rattle.std.specs.Prelude.{List};

    ghost Value = { List T };

    ghost view = { λ r. r.items.items };
}

impl<T: Drop> Sequence<T> {
    /// Returns an empty list. It allocates nothing.
    pub fn new(alloc: Global) -> Sequence<T>
        ensures { result ≡ [] }
    {
        Sequence {
            items: Vec::new(alloc),
        }
    }

    /// Appends `item`. On OutOfMemory the list is unchanged.
    pub fn push(&mut self, item: T) -> Result<(), OutOfMemory>
        ensures ok { OnOk result (self.new ≡ self.old ++ item ∷ []) }
        ensures unchanged { OnErr result (self.new ≡ self.old) }
    {
        match self.items.push(item) {
            Ok(()) => Ok(()),
            Err(_) => Err(OutOfMemory),
        }
    }

    /// The number of items.
    pub fn len(&self) -> usize
        ensures { result ≡ length self.now }
    {
        self.items.len()
    }

    /// Whether the list is empty.
    pub fn is_empty(&self) -> bool
        ensures { result ≡ (length self.now == 0) }
    {
        self.items.is_empty()
    }

    /// The item at index `i`; None where `i` is `len` or more.
    pub fn get(&self, i: usize) -> Option<&T>
        ensures { option_copied result ≡ slice_get self.now i }
    {
        self.items.get(i)
    }

    /// The items as a slice.
    pub fn as_slice(&self) -> &[T]
        ensures { result.now ≡ self.now }
    {
        self.items.as_slice()
    }

    /// An iterator that gives the items by value, first to last.
    pub fn into_items(self) -> SequenceIter<T>
        ensures { result ≡ self }
    {
        SequenceIter {
            items: self.items.into_iter(),
        }
    }
}

/// An iterator over the items of a `Sequence`. A contract sees it as the list of the items still to come.
#[derive(Drop)]
pub struct SequenceIter<T> {
    items: IntoIter<T>,
}

impl<T> Model for SequenceIter<T> {
    ghost use Rattle.std.specs.Prelude.{List};
    ghost use Rattle.std.specs.Vec.Iter.{into_iter_items};

    ghost Value = { List T };

    ghost view = { λ r. into_iter_items r.items };
}

impl<T: Drop> SequenceIter<T> {
    /// Takes the next item; None where none is left.
    pub fn next(&mut self) -> Option<T>
        ensures { MatchOption result (self.old ≡ []) (λ first. self.old ≡ first ∷ self.new) }
    {
        self.items.next()
    }
}
