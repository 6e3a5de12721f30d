// The error of reading the compact protocol.
ghost use Rattle.std.specs.Prelude.{◌≡◌};

use pme_base::{OutOfMemory, ThriftFault};
use std::alloc::{AllocError, AllocFailed};

/// Why bytes of the compact protocol could not be read.
#[derive(Clone, Copy, Debug, PartialEq, Eq, Drop)]
pub enum ThriftRefusal {
    /// The first fault of the bytes is `why`, at the byte offset `at`.
    Bad { at: u64, why: ThriftFault },
    /// An allocation failed.
    OutOfMemory,
}
