// A sink in memory.
ghost use Rattle.std.specs.Prelude.{◌≡◌, ◌↔◌, ◌∷◌, ◌++◌, [], true, Some, OnOk, OnErr, IsErrOf, if◌then◌else◌, is_ok};
ghost use Rattle.pme_base.specs.Outside.{followed_by, PutsFront, HasCause};
ghost use Rattle.pme_base.specs.Memory.{mem_written, no_calls, is_failing, called};

use crate::bytes::Bytes;
use crate::calls::Calls;
use crate::memory_error::OutOfMemory;
use crate::outside::{Sink, Trouble};
use std::alloc::Global;

/// A sink in memory, for tests. Contracts see what was written, and any call can be set to fail.
#[derive(Drop)]
pub struct MemSink {
    calls: Calls,
    bytes: Bytes,
}

impl MemSink {
    /// Returns an empty sink.
    pub fn new(alloc: Global) -> MemSink
        ensures written { mem_written result ≡ [] }
        ensures calls { result.calls ≡ no_calls }
    {
        MemSink {
            calls: Calls::new(alloc),
            bytes: Bytes::new(alloc),
        }
    }

    /// The bytes written so far.
    pub fn bytes(&self) -> &[u8]
        ensures { result.now ≡ mem_written self.now }
    {
        self.bytes.as_slice()
    }

    /// Sets call number `call` of `put` to fail. Calls are counted from 0.
    pub fn fail(&mut self, call: u64) -> Result<(), OutOfMemory>
        ensures ok { OnOk result (self.new.calls
            ≡ record self.old.calls { failing = self.old.calls.failing ++ call ∷ [] }) }
        ensures unchanged { OnErr result (self.new.calls ≡ self.old.calls) }
        ensures written { mem_written self.new ≡ mem_written self.old }
    {
        self.calls.fail(call)
    }
}

impl Sink for MemSink {
    ghost written = { λ m. Some (mem_written m) };

    ghost faults = { λ m. m.calls.faults };

    fn put(&mut self, bytes: &[u8]) -> Result<(), Trouble>
        ensures all { OnOk result (Some (mem_written self.new)
            ≡ followed_by bytes.now (Some (mem_written self.old))) }
        ensures part { OnErr result (PutsFront bytes.now (Some (mem_written self.old))
            (Some (mem_written self.new))) }
        ensures cause { HasCause self.old.calls.faults self.new.calls.faults result }
        ensures fails { IsErrOf result Trouble.Failed ↔ (is_failing self.old.calls ≡ true) }
        ensures unchanged { OnErr result (mem_written self.new ≡ mem_written self.old) }
        ensures calls { self.new.calls ≡ called (is_failing self.old.calls) self.old.calls }
    {
        self.calls.begin()?;
        self.bytes.extend(bytes)?;
        Ok(())
    }
}
