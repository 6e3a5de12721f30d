// Counting the calls of an object in memory, and failing some of them.
ghost use Rattle.std.specs.Prelude.{◌≡◌, ◌≤◌, [], ◌∷◌, ◌++◌, true, is_err, OnOk, OnErr};
ghost use Rattle.pme_base.specs.Memory.{no_calls, is_failing, called, one_more};
ghost use Rattle.pme_base.specs.Counts.{Rose};

use crate::memory_error::OutOfMemory;
use crate::outside::Failed;
use crate::sequence::Sequence;
use std::alloc::Global;

/// Counts the calls of an in-memory object and knows which of them, by number, are set to fail.
#[derive(Drop)]
pub struct Calls {
    made: u64,
    failing: Sequence<u64>,
    faults: u64,
}

impl Calls {
    /// No calls yet, and none set to fail.
    pub fn new(alloc: Global) -> Calls
        ensures { result ≡ no_calls }
    {
        Calls {
            made: 0,
            failing: Sequence::new(alloc),
            faults: 0,
        }
    }

    /// Sets call number `call` to fail. Calls are counted from 0.
    pub fn fail(&mut self, call: u64) -> Result<(), OutOfMemory>
        ensures ok { OnOk result (self.new
            ≡ record self.old { failing = self.old.failing ++ call ∷ [] }) }
        ensures unchanged { OnErr result (self.new ≡ self.old) }
    {
        self.failing.push(call)
    }

    /// Counts one call. It fails if it was set to fail.
    pub fn begin(&mut self) -> Result<(), Failed>
        ensures fails { is_err result ≡ is_failing self.old }
        ensures called { self.new ≡ called (is_failing self.old) self.old }
        ensures later { self.old.faults ≤ self.new.faults }
        ensures rose { OnErr result (Rose self.old.faults self.new.faults) }
    {
        let fails = self.failing.as_slice().contains(&self.made);
        self.made = self.made.saturating_add(1);
        if fails {
            self.raise();
            return Err(Failed);
        }
        Ok(())
    }

    /// Counts one fault.
    pub fn raise(&mut self)
        ensures raised { self.new ≡ record self.old { faults = one_more self.old.faults } }
        ensures later { self.old.faults ≤ self.new.faults }
    {
        self.faults = self.faults.saturating_add(1);
    }
}
