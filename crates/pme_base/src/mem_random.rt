// A source of random bytes in memory.
ghost use Rattle.std.specs.Prelude.{◌≡◌, ◌<◌, ◌≤◌, ◌↔◌, ◌⊎◌, ◌∷◌, ◌++◌, [], true, length, drop, Some, option_map, is_err, OnOk, OnErr, IfSome, IsErr};
ghost use Rattle.pme_base.specs.Outside.{AreBytes, IsDrawn};
ghost use Rattle.pme_base.specs.Counts.{Rose};

use crate::bytes::Bytes;
use crate::calls::Calls;
use crate::memory_error::OutOfMemory;
use crate::outside::{Failed, Random};
use crate::slices::{are_bytes, rest_from};
use std::alloc::Global;

/// A source of known bytes, for tests. Contracts see them, and any call can be set to fail.
#[derive(Drop)]
pub struct MemRandom {
    calls: Calls,
    bytes: Bytes,
    next: u64,
    ghost are_bytes: { AreBytes bytes },
}

impl MemRandom {
    ghost use Rattle.pme_base.specs.Memory.{mem_to_come, no_calls};

    /// A source that gives `bytes`, and then fails.
    pub fn new(alloc: Global, bytes: Bytes) -> MemRandom
        ensures to_come { mem_to_come result ≡ bytes }
        ensures calls { result.calls ≡ no_calls }
    {
        are_bytes(bytes.as_slice());
        MemRandom {
            calls: Calls::new(alloc),
            bytes,
            next: 0,
        }
    }

    /// Sets call number `call` of `fill` to fail. Calls are counted from 0.
    pub fn fail(&mut self, call: u64) -> Result<(), OutOfMemory>
        ensures ok { OnOk result (self.new.calls
            ≡ record self.old.calls { failing = self.old.calls.failing ++ call ∷ [] }) }
        ensures unchanged { OnErr result (self.new.calls ≡ self.old.calls) }
        ensures to_come { mem_to_come self.new ≡ mem_to_come self.old }
    {
        self.calls.fail(call)
    }
}

impl Random for MemRandom {
    ghost use Rattle.pme_base.specs.Memory.{mem_to_come, is_failing, called};
    ghost use Rattle.std.proofs.Common.{subst, sym, ◌+◌};
    ghost use Rattle.std.proofs.lemmas.List.{get_or-drop};

    ghost to_come = { λ m. Some (mem_to_come m) };

    ghost faults = { λ m. m.calls.faults };

    ghost bytes = { λ m i. subst (λ b. b < 256) (sym (get_or-drop m.next m.bytes i 0)) (m.are_bytes (m.next + i)) };

    fn fill(&mut self, into: &mut [u8]) -> Result<(), Failed>
        ensures answered { OnOk result (IsDrawn (mem_to_come self.old) into.new) }
        ensures rest { OnOk result (Some (mem_to_come self.new)
            ≡ option_map (drop (length into.new)) (Some (mem_to_come self.old))) }
        ensures later { self.old.calls.faults ≤ self.new.calls.faults }
        ensures failed { OnErr result (Rose self.old.calls.faults self.new.calls.faults) }
        ensures fails { IsErr result ↔ ((is_failing self.old.calls ≡ true)
            ⊎ (length (mem_to_come self.old) < length into.new)) }
        ensures unchanged { OnErr result (mem_to_come self.new ≡ mem_to_come self.old) }
        ensures calls { self.new.calls ≡ called (is_err result) self.old.calls }
    {
        self.calls.begin()?;
        let rest = rest_from(self.bytes.as_slice(), self.next);
        if rest.len() < into.len() {
            self.calls.raise();
            return Err(Failed);
        }
        into.copy_from_slice(&rest[..into.len()]);
        self.next += into.len() as u64;
        Ok(())
    }
}
