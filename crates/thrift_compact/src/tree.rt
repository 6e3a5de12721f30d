// Trees of the compact protocol's values.
ghost use Rattle.std.specs.Prelude.{◌≡◌, [], ◌∷◌, ◌++◌, ◌==◌, length, slice_get, OnOk, OnErr, IfOk};
ghost use Rattle.std.specs.Option.{option_copied};

use pme_base::{Bytes, OutOfMemory};
use sqlite_items::Items;
use std::alloc::Global;

/// A value of the compact protocol with all values inside it. The outermost value of a tree is a `Struct`.
#[derive(Drop)]
#[cycle(tree)]
pub enum TVal {
    Bool(bool),
    I8(i8),
    I16(i16),
    I32(i32),
    I64(i64),
    /// The 8 bytes of a double, in stored order.
    Double([u8; 8]),
    Binary(Bytes),
    List(TList),
    Set(TList),
    Map(TMap),
    Struct(TFields),
}

/// The items of a list or a set, in stored order.
#[derive(Drop)]
#[cycle(tree)]
pub struct TList {
    pub(crate) items: Items<TVal>,
}

/// The pairs of a map, key before value, in stored order.
#[derive(Drop)]
#[cycle(tree)]
pub struct TMap {
    pub(crate) pairs: Items<(TVal, TVal)>,
}

/// The fields of a struct, each an id and its value, in stored order.
#[derive(Drop)]
#[cycle(tree)]
pub struct TFields {
    pub(crate) fields: Items<(i16, TVal)>,
}

impl TList {
    /// Returns an empty list. It allocates nothing.
    pub fn new(alloc: Global) -> TList
        ensures { result.items ≡ [] }
    {
        TList {
            items: Items::new(alloc),
        }
    }

    // Returns an empty list with capacity for `count` items.
    pub(crate) fn with_capacity(alloc: Global, count: usize) -> Result<TList, OutOfMemory>
        ensures { IfOk result (λ made. made.items ≡ []) }
    {
        Ok(TList {
            items: Items::from_vec(Vec::with_capacity(alloc, count)?),
        })
    }

    /// Appends an item. On OutOfMemory the list is unchanged.
    pub fn push(&mut self, item: TVal) -> Result<(), OutOfMemory>
        ensures ok { OnOk result (self.new.items ≡ self.old.items ++ item ∷ []) }
        ensures unchanged { OnErr result (self.new.items ≡ self.old.items) }
    {
        self.items.push(item)?;
        Ok(())
    }

    /// The number of items.
    pub fn len(&self) -> usize
        ensures { result ≡ length self.now.items }
    {
        self.items.len()
    }

    /// Whether the list is empty.
    pub fn is_empty(&self) -> bool
        ensures { result ≡ (length self.now.items == 0) }
    {
        self.items.len() == 0
    }

    /// The item at index `i`; None where `i` is `len` or more.
    pub fn get(&self, i: usize) -> Option<&TVal>
        ensures { option_copied result ≡ slice_get self.now.items i }
    {
        self.items.get(i)
    }
}

impl TMap {
    /// Returns an empty map. It allocates nothing.
    pub fn new(alloc: Global) -> TMap
        ensures { result.pairs ≡ [] }
    {
        TMap {
            pairs: Items::new(alloc),
        }
    }

    // Returns an empty map with capacity for `count` pairs.
    pub(crate) fn with_capacity(alloc: Global, count: usize) -> Result<TMap, OutOfMemory>
        ensures { IfOk result (λ made. made.pairs ≡ []) }
    {
        Ok(TMap {
            pairs: Items::from_vec(Vec::with_capacity(alloc, count)?),
        })
    }

    /// Appends a pair of a key and a value. On OutOfMemory the map is unchanged.
    pub fn push(&mut self, pair: (TVal, TVal)) -> Result<(), OutOfMemory>
        ensures ok { OnOk result (self.new.pairs ≡ self.old.pairs ++ pair ∷ []) }
        ensures unchanged { OnErr result (self.new.pairs ≡ self.old.pairs) }
    {
        self.pairs.push(pair)?;
        Ok(())
    }

    /// The number of pairs.
    pub fn len(&self) -> usize
        ensures { result ≡ length self.now.pairs }
    {
        self.pairs.len()
    }

    /// Whether the map is empty.
    pub fn is_empty(&self) -> bool
        ensures { result ≡ (length self.now.pairs == 0) }
    {
        self.pairs.len() == 0
    }

    /// The pair at index `i`; None where `i` is `len` or more.
    pub fn get(&self, i: usize) -> Option<&(TVal, TVal)>
        ensures { option_copied result ≡ slice_get self.now.pairs i }
    {
        self.pairs.get(i)
    }
}

impl TFields {
    /// Returns a struct without fields. It allocates nothing.
    pub fn new(alloc: Global) -> TFields
        ensures { result.fields ≡ [] }
    {
        TFields {
            fields: Items::new(alloc),
        }
    }

    // Returns a struct without fields, with capacity for `count` fields.
    pub(crate) fn with_capacity(alloc: Global, count: usize) -> Result<TFields, OutOfMemory>
        ensures { IfOk result (λ made. made.fields ≡ []) }
    {
        Ok(TFields {
            fields: Items::from_vec(Vec::with_capacity(alloc, count)?),
        })
    }

    /// Appends a field: its id and its value. On OutOfMemory the struct is unchanged.
    pub fn push(&mut self, field: (i16, TVal)) -> Result<(), OutOfMemory>
        ensures ok { OnOk result (self.new.fields ≡ self.old.fields ++ field ∷ []) }
        ensures unchanged { OnErr result (self.new.fields ≡ self.old.fields) }
    {
        self.fields.push(field)?;
        Ok(())
    }

    /// The number of fields.
    pub fn len(&self) -> usize
        ensures { result ≡ length self.now.fields }
    {
        self.fields.len()
    }

    /// Whether the struct has no fields.
    pub fn is_empty(&self) -> bool
        ensures { result ≡ (length self.now.fields == 0) }
    {
        self.fields.len() == 0
    }

    /// The field at index `i`; None where `i` is `len` or more.
    pub fn get(&self, i: usize) -> Option<&(i16, TVal)>
        ensures { option_copied result ≡ slice_get self.now.fields i }
    {
        self.fields.get(i)
    }
}
