// The associated data of the modules of a file, and the part that all of them share.
ghost use Rattle.std.specs.Prelude.{◌≡◌, ◌+◌, ◌++◌, ◌<◌, ◌≤◌, ◌↔◌, length, take, drop, IfOk, IsErrOf};
ghost use Rattle.module_aad.specs.Aad.{IsModuleKind, aad};

use crate::suffix::suffix;
use pme_base::{Bytes, PREFIX_LIMIT, Place, UNIQUE_LIMIT};
use std::alloc::Global;
use std::marker::Model;
use thiserror::Error;

/// Why the associated data of a file can't be built.
#[derive(Clone, Copy, Debug, PartialEq, Eq, Drop, Error)]
pub enum AadRefusal {
    /// The prefix has more than 1,024 bytes.
    #[error("PrefixTooLarge")]
    PrefixTooLarge,
    /// There are more than 64 unique bytes.
    #[error("UniqueTooLarge")]
    UniqueTooLarge,
    /// Memory was refused.
    #[error("OutOfMemory")]
    OutOfMemory,
}

/// The start of the associated data of every module in a file: the AAD prefix, then the bytes that are unique to the file
/// (`aad_file_unique`). Contracts see it as the list of these bytes, at most 1,088.
#[derive(Drop)]
pub struct FileAad {
    bytes: Bytes,
}

impl Model for FileAad {
    ghost use Rattle.std.specs.Prelude.{ℕ, List, ◌+◌, ◌≤◌, length};
    ghost use Rattle.pme_base.specs.declared.limits.TheConstants.{PREFIX_LIMIT, UNIQUE_LIMIT};

    ghost Value = { List ℕ };

    ghost view = { λ f. f.bytes };

    ghost invariant = { λ f. length f.bytes ≤ PREFIX_LIMIT + UNIQUE_LIMIT };
}

impl FileAad {
    /// Joins a prefix of at most 1,024 bytes and at most 64 unique bytes. PrefixTooLarge is checked before
    /// UniqueTooLarge.
    pub fn new(alloc: Global, prefix: &[u8], unique: &[u8]) -> Result<FileAad, AadRefusal>
        ensures prefix { IsErrOf result AadRefusal.PrefixTooLarge ↔ (PREFIX_LIMIT < length prefix.now) }
        ensures unique { IsErrOf result AadRefusal.UniqueTooLarge ↔ ((length prefix.now ≤ PREFIX_LIMIT) ×
            (UNIQUE_LIMIT < length unique.now)) }
        ensures joined { IfOk result (λ file. file ≡ prefix.now ++ unique.now) }
    {
        if prefix.len() > PREFIX_LIMIT {
            return Err(AadRefusal::PrefixTooLarge);
        }
        if unique.len() > UNIQUE_LIMIT {
            return Err(AadRefusal::UniqueTooLarge);
        }
        let mut bytes = match Bytes::copy_of(alloc, prefix) {
            Ok(bytes) => bytes,
            Err(_) => return Err(AadRefusal::OutOfMemory),
        };
        match bytes.extend(unique) {
            Ok(()) => {}
            Err(_) => return Err(AadRefusal::OutOfMemory),
        }
        Ok(FileAad { bytes })
    }

    /// The prefix, followed by the unique bytes.
    pub fn joined(&self) -> &[u8]
        ensures bytes { result.now ≡ self.now }
        ensures short { length self.now ≤ PREFIX_LIMIT + UNIQUE_LIMIT }
    {
        self.bytes.as_slice()
    }

    /// Writes the associated data of the module at `place` to the front of `into` and gives its length in bytes. The bytes
    /// after it are unchanged. `place` must be one that holds a module.
    pub fn write_aad(&self, place: &Place, into: &mut [u8; 1095]) -> usize
        requires { IsModuleKind place.now.kind }
        ensures long { result ≡ length (aad self.now place.now) }
        ensures fits { result ≤ 1095 }
        ensures written { take result into.new ≡ aad self.now place.now }
        ensures after { drop result into.new ≡ drop result into.old }
    {
        let file = self.joined();
        let (suffix, length) = suffix(place);
        put(into, 0, file);
        put(into, file.len(), &suffix[..length]);
        file.len() + length
    }
}

// Copies the bytes into `into` from index `at` on.
fn put(into: &mut [u8; 1095], at: usize, bytes: &[u8])
    requires { at + length bytes.now ≤ 1095 }
    ensures written { take (at + length bytes.now) into.new ≡ take at into.old ++ bytes.now }
    ensures after { drop (at + length bytes.now) into.new ≡ drop (at + length bytes.now) into.old }
{
    into[at..at + bytes.len()].copy_from_slice(bytes);
}
