// A set of names.
ghost use Rattle.std.specs.Prelude.{◌≡◌, not, IfOk, OnOk};
ghost use Rattle.std.specs.FinSet as set;

use crate::memory_error::OutOfMemory;
use std::alloc::Global;
use std::collections::BTreeSet;
use std::marker::Model;

/// A set of names. Adding one takes time logarithmic in their number.
#[derive(Drop)]
pub struct NameSet {
    alloc: Global,
    names: BTreeSet<Vec<u8>>,
}

impl Model for NameSet {
    ghost use Rattle.std.specs.Prelude.{ℕ, map};
    ghost use Rattle.std.specs.Ordering.{nat_cmp};
    ghost use Rattle.std.specs.Cmp.Lexicographic.{slice_cmp};
    ghost use Rattle.std.specs.Coded.{coded_list, coded_ℕ};
    ghost use Rattle.std.specs.FinSet as set;

    ghost Value = { set.FinSet (slice_cmp nat_cmp) };

    ghost coded = { set.code (coded_list coded_ℕ) };

    ghost view = { λ s. set.from_list (map (λ v. v.items) s.names.keys) };
}

impl NameSet {
    /// Returns an empty set. It allocates nothing.
    pub fn new(alloc: Global) -> NameSet
        ensures { result ≡ set.empty }
    {
        NameSet {
            alloc,
            names: BTreeSet::new(alloc),
        }
    }

    /// Adds a name. Returns whether it is new.
    pub fn add(&mut self, name: &[u8]) -> Result<bool, OutOfMemory>
        ensures added { IfOk result (λ added. added ≡ not (set.contains self.old name.now)) }
        ensures with_it { OnOk result (self.new ≡ set.insert self.old name.now) }
    {
        let copy = Vec::from_slice(self.alloc, name)?;
        let added = match self.names.insert(copy) {
            Ok(added) => added,
            Err(_) => return Err(OutOfMemory),
        };
        Ok(added)
    }
}
