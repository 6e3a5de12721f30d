// The ids of a struct's fields that were read so far; a repeated id is refused by them.
ghost use Rattle.std.specs.Prelude.{◌≡◌, true, false, ◌<◌, ◌≤◌, [], ◌∷◌, ◌++◌, length, OnOk, OnErr, IfOk};
ghost use Rattle.thrift_compact.specs.Held.{ids_held};
ghost use Rattle.thrift_compact.specs.Reading.{is_among, last as last_of};

use pme_base::OutOfMemory;
use std::alloc::Global;
use std::collections::BTreeSet;
use std::marker::Model;

/// The number of ids that are kept in an array and searched one by one.
const FEW: usize = 32;

/// The ids of a struct's fields that were read so far. A contract sees them as a list in the order of reading. An id
/// greater than all others is known to be new without a search, and the first 32 ids need no allocation.
#[derive(Drop)]
pub(crate) struct Ids {
    alloc: Global,
    last: i16,
    greatest: i32,
    held: Held,
}

#[derive(Drop)]
enum Held {
    Few(Few),
    Many(Many),
}

impl Model for Ids {
    ghost use Rattle.std.specs.Prelude.{List, ℤ};

    ghost Value = { List ℤ };

    ghost use Rattle.thrift_compact.specs.Held.{ids_held, IsKept};

    ghost view = { λ ids. ids_held ids.held };

    ghost invariant = { λ ids. IsKept ids.last ids.greatest (ids_held ids.held) };
}

impl Ids {
    #[inline(always)]
    pub(crate) fn new(alloc: Global) -> Ids
        ensures { result ≡ [] }
    {
        Ids {
            alloc,
            last: 0,
            greatest: -32_769,
            held: Held::Few(Few::new()),
        }
    }

    /// The last id, or 0 if there is none.
    #[inline(always)]
    pub(crate) fn last(&self) -> i16
        ensures { result ≡ last_of self.now }
    {
        self.last
    }

    /// Whether `id` is one of the ids.
    #[inline(always)]
    pub(crate) fn has(&self, id: i16) -> bool
        ensures { result ≡ is_among id self.now }
    {
        id as i32 <= self.greatest && self.held.has(id)
    }

    /// Appends `id`. On OutOfMemory the ids are unchanged.
    #[inline(always)]
    pub(crate) fn push(&mut self, id: i16) -> Result<(), OutOfMemory>
        ensures ok { OnOk result (self.new ≡ self.old ++ id ∷ []) }
        ensures unchanged { OnErr result (self.new ≡ self.old) }
    {
        self.held.push(self.alloc, id)?;
        self.last = id;
        self.greatest = self.greatest.max(id as i32);
        Ok(())
    }
}

impl Held {
    fn has(&self, id: i16) -> bool
        ensures { result ≡ is_among id (ids_held self.now) }
    {
        match self {
            Held::Few(few) => few.has(id),
            Held::Many(many) => many.has(id),
        }
    }

    #[inline(always)]
    fn push(&mut self, alloc: Global, id: i16) -> Result<(), OutOfMemory>
        ensures ok { OnOk result (ids_held self.new ≡ ids_held self.old ++ id ∷ []) }
        ensures unchanged { OnErr result (ids_held self.new ≡ ids_held self.old) }
    {
        match self {
            Held::Few(few) => {
                if few.push(id) {
                    return Ok(());
                }
                let mut many = Many::of(alloc, few.as_slice())?;
                many.push(id)?;
                *self = Held::Many(many);
                Ok(())
            }
            Held::Many(many) => many.push(id),
        }
    }
}

/// At most 32 ids, in an array.
#[derive(Drop)]
struct Few {
    items: [i16; FEW],
    count: usize,
}

impl Model for Few {
    ghost use Rattle.std.specs.Prelude.{List, ℤ, take, ◌≤◌};

    ghost Value = { List ℤ };

    ghost view = { λ few. take few.count few.items };

    ghost invariant = { λ few. few.count ≤ 32 };
}

impl Few {
    #[inline(always)]
    fn new() -> Few
        ensures { result ≡ [] }
    {
        Few {
            items: [0; FEW],
            count: 0,
        }
    }

    fn as_slice(&self) -> &[i16]
        ensures { result.now ≡ self.now }
    {
        &self.items[..self.count]
    }

    fn has(&self, id: i16) -> bool
        ensures { result ≡ is_among id self.now }
    {
        holds(self.as_slice(), id)
    }

    /// Appends `id` and returns true, or returns false where the array is full.
    #[inline(always)]
    fn push(&mut self, id: i16) -> bool
        ensures taken { result ≡ true → self.new ≡ self.old ++ id ∷ [] }
        ensures full { result ≡ false → self.new ≡ self.old }
    {
        if self.count < FEW {
            self.items[self.count] = id;
            self.count += 1;
            true
        } else {
            false
        }
    }
}

/// Any number of ids: a list that keeps their order, and a set of the same ids for the search.
#[derive(Drop)]
struct Many {
    items: Vec<i16>,
    index: BTreeSet<i16>,
}

impl Model for Many {
    ghost use Rattle.std.specs.Prelude.{List, ℤ};

    ghost Value = { List ℤ };

    ghost use Rattle.thrift_compact.specs.Held.{IsIndex};

    ghost view = { λ many. many.items.items };

    ghost invariant = { λ many. IsIndex many.index many.items.items };
}

impl Many {
    fn new(alloc: Global) -> Many
        ensures { result ≡ [] }
    {
        Many {
            items: Vec::new(alloc),
            index: BTreeSet::new(alloc),
        }
    }

    /// Returns a copy of `ids` in this form.
    fn of(alloc: Global, ids: &[i16]) -> Result<Many, OutOfMemory>
        ensures { IfOk result (λ many. many ≡ ids.now) }
    {
        let mut many = Many::new(alloc);
        for id in ids {
            many.push(*id)?;
        }
        Ok(many)
    }

    fn has(&self, id: i16) -> bool
        ensures { result ≡ is_among id self.now }
    {
        self.index.contains(&id)
    }

    fn push(&mut self, id: i16) -> Result<(), OutOfMemory>
        ensures ok { OnOk result (self.new ≡ self.old ++ id ∷ []) }
        ensures unchanged { OnErr result (self.new ≡ self.old) }
    {
        self.items.reserve(1)?;
        self.index.insert(id)?;
        self.items.push_reserved(id);
        Ok(())
    }
}

fn holds(items: &[i16], id: i16) -> bool
    ensures { result ≡ is_among id items.now }
{
    for item in items {
        if *item == id {
            return true;
        }
    }
    false
}
