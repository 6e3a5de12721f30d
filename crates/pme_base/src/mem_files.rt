// Files in memory.
ghost use Rattle.std.specs.Prelude.{◌≡◌, ◌+◌, ◌-◌, ◌≤◌, ◌↔◌, ◌∷◌, ◌++◌, [], min, max, true, length, Some, option_map, option_copied, if◌then◌else◌, is_ok, OnOk, OnErr, IfOk, IfSome, IsErrOf, IsOkUnless};
ghost use Rattle.std.specs.FinMap.{empty, get, insert, find, from_entries};
ghost use Rattle.std.specs.Cmp.Lexicographic.{slice_cmp};
ghost use Rattle.std.specs.Ordering.{nat_cmp};
ghost use Rattle.pme_base.specs.Outside.{AreBytes, HoldBytes, bytes_of, nothing_pending, followed_by, with_file, given_after, IsReadAt, HasCause};

use crate::bytes::Bytes;
use crate::calls::Calls;
use crate::memory_error::OutOfMemory;
use crate::outside::{Files, Trouble};
use crate::slices::{copy_front, rest_from};
use std::alloc::Global;
use std::collections::VecDeque;
use std::mem;

/// Files in memory, for tests. Contracts see their contents, and any call can be set to fail.
#[derive(Drop)]
pub struct MemFiles {
    alloc: Global,
    calls: Calls,
    // Every file that was published or stored, newest first. The first entry of a name holds its bytes.
    log: VecDeque<(Bytes, Bytes)>,
    pending: Bytes,
    given: u64,
    largest_read: u64,
    largest_append: u64,
    ghost files_hold_bytes: { HoldBytes (from_entries log.items) },
    ghost pending_are_bytes: { AreBytes pending },
}

impl MemFiles {
    ghost use Rattle.pme_base.specs.Memory.{memory, mem_published, no_calls};

    /// Returns no files and no pending bytes.
    pub fn new(alloc: Global) -> MemFiles
        ensures { memory result ≡ record {
          published = empty;
          pending = [];
          given = 0;
          largest_read = 0;
          largest_append = 0;
          calls = no_calls;
        } }
    {
        MemFiles {
            alloc,
            calls: Calls::new(alloc),
            log: VecDeque::new(alloc),
            pending: Bytes::new(alloc),
            given: 0,
            largest_read: 0,
            largest_append: 0,
        }
    }

    /// Makes `bytes` the file `name`, replacing an older file of that name. It isn't counted as a call of the trait.
    pub fn store(&mut self, name: &str, bytes: &[u8]) -> Result<(), OutOfMemory>
        ensures ok { OnOk result (memory self.new ≡ record (memory self.old)
            { published = insert (mem_published self.old) name.now bytes.now }) }
        ensures unchanged { OnErr result (memory self.new ≡ memory self.old) }
    {
        let name = Bytes::copy_of(self.alloc, name.as_bytes())?;
        let bytes = Bytes::copy_of(self.alloc, bytes)?;
        self.log.push_front((name, bytes))?;
        Ok(())
    }

    /// The bytes of the file `name`; None where no such file is published.
    pub fn held(&self, name: &str) -> Option<&[u8]>
        ensures { option_copied result ≡ get (mem_published self.now) name.now }
    {
        newest(&self.log, name)
    }

    /// The length of the largest buffer given to `read_at` so far, in bytes; 0 before the first call.
    pub fn largest_read(&self) -> u64
        ensures { result ≡ (memory self.now).largest_read }
    {
        self.largest_read
    }

    /// The length of the largest `append` so far, in bytes; 0 before the first call.
    pub fn largest_append(&self) -> u64
        ensures { result ≡ (memory self.now).largest_append }
    {
        self.largest_append
    }

    /// Sets trait call number `call` to fail. Trait calls are counted from 0.
    pub fn fail(&mut self, call: u64) -> Result<(), OutOfMemory>
        ensures ok { let calls = (memory self.old).calls in OnOk result (memory self.new
            ≡ record (memory self.old) {
              calls = record calls {
                failing = calls.failing ++ call
                    ∷ [];
              };
            }) }
        ensures unchanged { OnErr result (memory self.new ≡ memory self.old) }
    {
        self.calls.fail(call)
    }
}

/// The bytes of the first entry named `name`.
fn newest<'a>(log: &'a VecDeque<(Bytes, Bytes)>, name: &str) -> Option<&'a [u8]>
    ensures { option_copied result ≡ find (slice_cmp nat_cmp) name.now log.now.items }
{
    for entry in log.iter() {
        if name.as_bytes() == entry.0.as_slice() {
            return Some(entry.1.as_slice());
        }
    }
    None
}

impl Files for MemFiles {
    ghost use Rattle.pme_base.specs.Memory.{memory, mem_published, mem_pending, is_failing, called};

    ghost published = { λ m. Some (mem_published m) };

    ghost pending = { λ m. Some (mem_pending m) };

    ghost given = { λ m. (memory m).given };

    ghost faults = { λ m. (memory m).calls.faults };

    ghost bytes = { λ m. m.files_hold_bytes };

    ghost pending_bytes = { λ m. m.pending_are_bytes };

    fn size(&mut self, name: &str) -> Result<Option<u64>, Trouble>
        ensures answered { IfOk result (λ size. size
            ≡ option_map length (get (mem_published self.old) name.now)) }
        ensures published { Some (mem_published self.new) ≡ Some (mem_published self.old) }
        ensures pending { OnOk result (Some (mem_pending self.new) ≡ Some (mem_pending self.old)) }
        ensures given { (memory self.new).given ≡ (memory self.old).given }
        ensures cause { HasCause (memory self.old).calls.faults
            (memory self.new).calls.faults result }
        ensures fails { IsErrOf result Trouble.Failed ↔ (is_failing (memory self.old).calls ≡ true) }
        ensures only { IsOkUnless result Trouble.Failed }
        ensures memory { let calls = (memory self.old).calls in memory self.new
            ≡ record (memory self.old) { calls = called (is_failing calls) calls } }
    {
        self.calls.begin()?;
        match self.held(name) {
            Some(bytes) => Ok(Some(bytes.len() as u64)),
            None => Ok(None),
        }
    }

    fn read_at(&mut self, name: &str, at: u64, into: &mut [u8]) -> Result<usize, Trouble>
        ensures within { IfOk result (λ count. count ≤ length into.new) }
        ensures answered { IfOk result (λ count.
            IsReadAt (bytes_of (mem_published self.old) name.now) at count into.new) }
        ensures published { Some (mem_published self.new) ≡ Some (mem_published self.old) }
        ensures pending { OnOk result (Some (mem_pending self.new) ≡ Some (mem_pending self.old)) }
        ensures given { (memory self.new).given ≡ given_after (memory self.old).given result }
        ensures cause { HasCause (memory self.old).calls.faults
            (memory self.new).calls.faults result }
        ensures fails { IsErrOf result Trouble.Failed ↔ (is_failing (memory self.old).calls ≡ true) }
        ensures only { IsOkUnless result Trouble.Failed }
        ensures most { IfOk result (λ count. count
            ≡ min (length into.new) (length (bytes_of (mem_published self.old) name.now) - at)) }
        ensures memory { let calls = (memory self.old).calls in memory self.new
            ≡ record (memory self.old) { given = given_after (memory self.old).given result; largest_read = max (memory self.old).largest_read (length into.new); calls = called (is_failing calls) calls } }
    {
        self.largest_read = self.largest_read.max(into.len() as u64);
        self.calls.begin()?;
        let count = match self.held(name) {
            Some(bytes) => copy_front(rest_from(bytes, at), into),
            None => 0,
        };
        self.given = self.given.saturating_add(count as u64);
        Ok(count)
    }

    fn begin(&mut self) -> Result<(), Trouble>
        ensures pending { OnOk result (Some (mem_pending self.new)
            ≡ nothing_pending (Some (mem_published self.old))) }
        ensures published { Some (mem_published self.new) ≡ Some (mem_published self.old) }
        ensures given { (memory self.new).given ≡ (memory self.old).given }
        ensures cause { HasCause (memory self.old).calls.faults
            (memory self.new).calls.faults result }
        ensures fails { IsErrOf result Trouble.Failed ↔ (is_failing (memory self.old).calls ≡ true) }
        ensures only { IsOkUnless result Trouble.Failed }
        ensures memory { let calls = (memory self.old).calls in memory self.new
            ≡ record (memory self.old) { pending = (if is_ok result then [] else mem_pending self.old); calls = called (is_failing calls) calls } }
    {
        self.calls.begin()?;
        self.pending = Bytes::new(self.alloc);
        Ok(())
    }

    fn append(&mut self, bytes: &[u8]) -> Result<(), Trouble>
        ensures pending { OnOk result (Some (mem_pending self.new)
            ≡ followed_by bytes.now (Some (mem_pending self.old))) }
        ensures published { Some (mem_published self.new) ≡ Some (mem_published self.old) }
        ensures given { (memory self.new).given ≡ (memory self.old).given }
        ensures cause { HasCause (memory self.old).calls.faults
            (memory self.new).calls.faults result }
        ensures fails { IsErrOf result Trouble.Failed ↔ (is_failing (memory self.old).calls ≡ true) }
        ensures memory { let calls = (memory self.old).calls in memory self.new
            ≡ record (memory self.old) {
              pending = mem_pending self.old
                  ++ (if is_ok result then bytes.now else []);
              largest_append = max (memory self.old).largest_append (length bytes.now);
              calls = called (is_failing calls) calls;
            } }
    {
        self.largest_append = self.largest_append.max(bytes.len() as u64);
        self.calls.begin()?;
        self.pending.extend(bytes)?;
        Ok(())
    }

    fn publish(&mut self, name: &str) -> Result<(), Trouble>
        ensures file { OnOk result (Some (mem_published self.new)
            ≡ with_file (Some (mem_published self.old)) name.now (Some (mem_pending self.old))) }
        ensures pending { OnOk result (Some (mem_pending self.new)
            ≡ nothing_pending (Some (mem_published self.old))) }
        ensures unchanged { OnErr result (Some (mem_published self.new)
            ≡ Some (mem_published self.old)) }
        ensures given { (memory self.new).given ≡ (memory self.old).given }
        ensures cause { HasCause (memory self.old).calls.faults
            (memory self.new).calls.faults result }
        ensures fails { IsErrOf result Trouble.Failed ↔ (is_failing (memory self.old).calls ≡ true) }
        ensures memory { let calls = (memory self.old).calls in OnOk result (memory self.new
            ≡ record (memory self.old) { published = insert (mem_published self.old) name.now (mem_pending self.old); pending = []; calls = called (is_failing calls) calls }) }
        ensures refused { let calls = (memory self.old).calls in OnErr result (memory self.new
            ≡ record (memory self.old) { pending = mem_pending self.new; calls = called (is_failing calls) calls }) }
    {
        self.calls.begin()?;
        let name = Bytes::copy_of(self.alloc, name.as_bytes())?;
        let bytes = mem::replace(&mut self.pending, Bytes::new(self.alloc));
        self.log.push_front((name, bytes))?;
        Ok(())
    }
}
