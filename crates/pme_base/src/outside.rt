// The traits of the objects outside: files, random bytes and output streams.
ghost use Rattle.std.specs.Prelude.{◌≡◌, ℕ, ◌≤◌, List, length, drop, Option, option_map, OnOk, OnErr, IfOk, IfSome};
ghost use Rattle.std.specs.FinMap.{get};
ghost use Rattle.pme_base.specs.Outside.{Published, AreBytes, HoldBytes, bytes_of, nothing_pending, followed_by, with_file, given_after, IsReadAt, IsDrawn, PutsFront, HasCause};
ghost use Rattle.pme_base.specs.Counts.{Rose};

use crate::memory_error::OutOfMemory;
use std::alloc::{AllocError, AllocFailed};
use thiserror::Error;

/// An input or output call failed, where no other error is possible.
#[derive(Clone, Copy, Debug, PartialEq, Eq, Drop, Error)]
#[error("Failed")]
pub struct Failed;

/// Why an input or output call failed: a fault of the object, or an allocation failed.
#[derive(Clone, Copy, Debug, PartialEq, Eq, Drop, Error)]
pub enum Trouble {
    #[error("Failed")]
    Failed,
    #[error("OutOfMemory")]
    OutOfMemory,
}

impl From<AllocError> for Trouble {
    ghost use Rattle.pme_base.specs.declared.outside.Trouble.TheVariants as trouble;

    ghost from_gives = { λ _ t. t ≡ trouble.OutOfMemory };

    fn from(_error: AllocError) -> Trouble {
        Trouble::OutOfMemory
    }
}

impl<T: Drop> From<AllocFailed<T>> for Trouble {
    ghost use Rattle.pme_base.specs.declared.outside.Trouble.TheVariants as trouble;

    ghost from_gives = { λ _ t. t ≡ trouble.OutOfMemory };

    fn from(_error: AllocFailed<T>) -> Trouble {
        Trouble::OutOfMemory
    }
}

impl From<OutOfMemory> for Trouble {
    ghost use Rattle.pme_base.specs.declared.outside.Trouble.TheVariants as trouble;

    ghost from_gives = { λ _ t. t ≡ trouble.OutOfMemory };

    fn from(_error: OutOfMemory) -> Trouble {
        Trouble::OutOfMemory
    }
}

impl From<Failed> for Trouble {
    ghost use Rattle.pme_base.specs.declared.outside.Trouble.TheVariants as trouble;

    ghost from_gives = { λ _ t. t ≡ trouble.Failed };

    fn from(_error: Failed) -> Trouble {
        Trouble::Failed
    }
}

/// Files by name, read at any offset and published as a whole. The bytes of a new file are collected as pending
/// bytes first.
///
/// A call that fails leaves the published files unchanged; the pending bytes are then unspecified.
pub trait Files {
    /// The published files; None where contracts don't see them.
    ghost published: { Self → Option Published };

    /// The pending bytes; None where contracts don't see them.
    ghost pending: { Self → Option (List ℕ) };

    /// The number of bytes that `read_at` has given, capped at 2^64 - 1.
    ghost given: { Self → ℕ };

    /// The number of calls that have failed, capped at 2^64 - 1.
    ghost faults: { Self → ℕ };

    /// The length of the file `name` in bytes; None where no such file is published.
    fn size(&mut self, name: &str) -> Result<Option<u64>, Trouble>
        ensures answered { IfOk result (λ size. IfSome (published self.old)
            (λ files. size ≡ option_map length (get files name.now))) }
        ensures published { published self.new ≡ published self.old }
        ensures pending { OnOk result (pending self.new ≡ pending self.old) }
        ensures given { given self.new ≡ given self.old }
        ensures cause { HasCause (faults self.old) (faults self.new) result };

    /// Reads bytes of the file `name` at offset `at` to the front of `into`, and returns their number: at least one,
    /// unless `into` is empty or the file ends at `at` or before, or doesn't exist.
    fn read_at(&mut self, name: &str, at: u64, into: &mut [u8]) -> Result<usize, Trouble>
        ensures within { IfOk result (λ count. count ≤ length into.new) }
        ensures answered { IfOk result (λ count. IfSome (published self.old)
            (λ files. IsReadAt (bytes_of files name.now) at count into.new)) }
        ensures published { published self.new ≡ published self.old }
        ensures pending { OnOk result (pending self.new ≡ pending self.old) }
        ensures given { given self.new ≡ given_after (given self.old) result }
        ensures cause { HasCause (faults self.old) (faults self.new) result };

    /// Begins a new file: discards pending bytes.
    fn begin(&mut self) -> Result<(), Trouble>
        ensures pending { OnOk result (pending self.new ≡ nothing_pending (published self.old)) }
        ensures published { published self.new ≡ published self.old }
        ensures given { given self.new ≡ given self.old }
        ensures cause { HasCause (faults self.old) (faults self.new) result };

    /// Appends `bytes` to the pending bytes.
    fn append(&mut self, bytes: &[u8]) -> Result<(), Trouble>
        ensures pending { OnOk result (pending self.new ≡ followed_by bytes.now (pending self.old)) }
        ensures published { published self.new ≡ published self.old }
        ensures given { given self.new ≡ given self.old }
        ensures cause { HasCause (faults self.old) (faults self.new) result };

    /// Makes the pending bytes the file `name` in one step, replacing an older file of that name. Nothing is
    /// pending afterwards.
    fn publish(&mut self, name: &str) -> Result<(), Trouble>
        ensures file { OnOk result (published self.new
            ≡ with_file (published self.old) name.now (pending self.old)) }
        ensures pending { OnOk result (pending self.new ≡ nothing_pending (published self.old)) }
        ensures unchanged { OnErr result (published self.new ≡ published self.old) }
        ensures given { given self.new ≡ given self.old }
        ensures cause { HasCause (faults self.old) (faults self.new) result };

    /// Every number in a published file is below 256.
    ghost bytes: { (files : Self) → IfSome (published files) HoldBytes };

    /// Every number of the pending bytes is below 256.
    ghost pending_bytes: { (files : Self) → IfSome (pending files) AreBytes };
}

/// A source of random bytes.
pub trait Random {
    /// The bytes still to come; None where contracts don't see them.
    ghost to_come: { Self → Option (List ℕ) };

    /// The number of calls that have failed, capped at 2^64 - 1.
    ghost faults: { Self → ℕ };

    /// Fills `into` with the next bytes. It fails where fewer bytes are to come.
    fn fill(&mut self, into: &mut [u8]) -> Result<(), Failed>
        ensures answered { OnOk result (IfSome (to_come self.old)
            (λ bytes. IsDrawn bytes into.new)) }
        ensures rest { OnOk result (to_come self.new
            ≡ option_map (drop (length into.new)) (to_come self.old)) }
        ensures later { faults self.old ≤ faults self.new }
        ensures failed { OnErr result (Rose (faults self.old) (faults self.new)) };

    /// Every number of the bytes to come is below 256.
    ghost bytes: { (random : Self) → IfSome (to_come random) AreBytes };
}

/// An output that bytes are written to in order.
pub trait Sink {
    /// The bytes written so far; None where contracts don't see them.
    ghost written: { Self → Option (List ℕ) };

    /// The number of calls that have failed, capped at 2^64 - 1.
    ghost faults: { Self → ℕ };

    /// Writes all of `bytes`. If it fails, a prefix of them may have been written.
    fn put(&mut self, bytes: &[u8]) -> Result<(), Trouble>
        ensures all { OnOk result (written self.new ≡ followed_by bytes.now (written self.old)) }
        ensures part { OnErr result (PutsFront bytes.now (written self.old) (written self.new)) }
        ensures cause { HasCause (faults self.old) (faults self.new) result };
}
