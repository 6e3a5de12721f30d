// The set of nonces that each key has used.
ghost use Rattle.std.specs.Prelude.{◌≡◌, true, false, OnOk, OnErr, IfOk, IsErrOf};
ghost use Rattle.std.specs.FinSet as set;
ghost use Rattle.key_rights.specs.Nonces.{entry as entry_of, is_taken, with_taken};

use pme_base::{Bytes, OutOfMemory};
use std::alloc::Global;
use std::collections::BTreeSet;
use std::marker::Model;
use thiserror::Error;

/// The key whose nonces must not repeat.
#[derive(Drop)]
pub enum NonceOwner {
    /// A key, identified by its bytes.
    Key(Bytes),
    /// A master key of a key service, identified by its id.
    Master(Bytes),
}

/// Why a nonce can't be taken.
#[derive(Clone, Copy, Debug, PartialEq, Eq, Drop, Error)]
pub enum NonceRefusal {
    /// The owner has already used this nonce.
    #[error("Repeated")]
    Repeated,
    /// Memory was refused.
    #[error("OutOfMemory")]
    OutOfMemory,
}

/// A set of used nonces, each with its owner. Taking a nonce takes time logarithmic in the size of the set.
#[derive(Drop)]
pub struct NonceSet {
    alloc: Global,
    taken: BTreeSet<Vec<u8>>,
}

impl Model for NonceSet {
    ghost use Rattle.std.specs.Prelude.{ℕ, map};
    ghost use Rattle.std.specs.Ordering.{nat_cmp};
    ghost use Rattle.std.specs.Cmp.Lexicographic.{slice_cmp};
    ghost use Rattle.std.specs.Coded.{coded_list, coded_ℕ};
    ghost use Rattle.std.specs.FinSet as set;

    ghost Value = { set.FinSet (slice_cmp nat_cmp) };

    ghost coded = { set.code (coded_list coded_ℕ) };

    ghost view = { λ s. set.from_list (map (λ v. v.items) s.taken.keys) };
}

impl NonceSet {
    /// The empty set. It allocates nothing.
    pub fn new(alloc: Global) -> NonceSet
        ensures { result ≡ set.empty }
    {
        NonceSet {
            alloc,
            taken: BTreeSet::new(alloc),
        }
    }

    /// Records that the owner uses a nonce. Repeated if the owner has used it before. An error leaves the set unchanged.
    pub fn take(&mut self, owner: &NonceOwner, nonce: [u8; 12]) -> Result<(), NonceRefusal>
        ensures fresh { OnOk result (is_taken self.old owner.now nonce ≡ false) }
        ensures taken { OnOk result (self.new ≡ with_taken self.old owner.now nonce) }
        ensures repeated { IsErrOf result NonceRefusal.Repeated →
            is_taken self.old owner.now nonce ≡ true }
        ensures same { OnErr result (self.new ≡ self.old) }
    {
        let entry = match entry(self.alloc, owner, &nonce) {
            Ok(entry) => entry,
            Err(_) => return Err(NonceRefusal::OutOfMemory),
        };
        match self.taken.insert(entry) {
            Ok(true) => {}
            Ok(false) => return Err(NonceRefusal::Repeated),
            Err(_) => return Err(NonceRefusal::OutOfMemory),
        }
        Ok(())
    }
}

// The set's entry for a nonce and its owner.
fn entry(alloc: Global, owner: &NonceOwner, nonce: &[u8; 12]) -> Result<Vec<u8>, OutOfMemory>
    ensures { IfOk result (λ entry. entry.items ≡ entry_of owner.now nonce.now) }
{
    let (kind, bytes) = match owner {
        NonceOwner::Key(bytes) => (0, bytes.as_slice()),
        NonceOwner::Master(id) => (1, id.as_slice()),
    };
    let mut entry = Vec::with_capacity(alloc, bytes.len() + 13)?;
    entry.push(kind)?;
    entry.extend_from_slice(bytes)?;
    entry.extend_from_slice(nonce)?;
    Ok(entry)
}
