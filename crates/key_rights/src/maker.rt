// The interface of key makers, which make the keys of a new file.
ghost use Rattle.std.specs.Prelude.{◌≡◌, ◌≤◌, [], true, false, length, IfOk, IsErrOf};
ghost use Rattle.pme_base.specs.Counts.{Rose};
ghost use Rattle.key_rights.specs.Making.{Behaviour, Denies, Draws, Makes, TakesDrawn, draws_of, finished};
ghost use Rattle.key_rights.specs.declared.maker.MakeRefusal.TheVariants as refusal_is;

use crate::nonces::NonceSet;
use aes_block::AesKey;
use pme_base::{Bytes, OutOfMemory, Random};
use std::alloc::Global;
use thiserror::Error;

/// A key that was made for a footer or a column, with the key metadata that the file stores for it.
#[derive(Drop)]
pub struct MadeKey {
    pub key: AesKey,
    pub metadata: Bytes,
}

/// Why a key can't be made.
#[derive(Clone, Copy, Debug, PartialEq, Eq, Drop, Error)]
pub enum MakeRefusal {
    /// The maker has no master key with this id.
    #[error("Denied")]
    Denied,
    /// A nonce that was drawn has been used before under the same key.
    #[error("NonceRepeated")]
    NonceRepeated([u8; 12]),
    /// Drawing random bytes failed.
    #[error("RandomFault")]
    RandomFault,
    /// A call of the key service failed.
    #[error("ServiceFault")]
    ServiceFault,
    /// Memory was refused.
    #[error("OutOfMemory")]
    OutOfMemory,
}

impl From<OutOfMemory> for MakeRefusal {
    ghost from_gives = { λ _ r. r ≡ refusal_is.OutOfMemory };

    fn from(_error: OutOfMemory) -> MakeRefusal {
        MakeRefusal::OutOfMemory
    }
}

/// Makes the keys of a file, one call for each. What the calls together make is the maker's behaviour: a function of the
/// requests in their order, the random bytes to come and the nonces already used.
pub trait KeyMaker {
    ghost use Rattle.std.specs.Prelude.{ℕ, Bool, List};

    /// The keys that the maker makes for the requests to come.
    ghost behaves: { Self → Behaviour };

    /// Whether the maker has a master key with this id.
    ghost has: { Self → List ℕ → Bool };

    /// The number of calls of the key service that have failed, capped at 2^64 - 1.
    ghost faults: { Self → ℕ };

    /// Makes the key of the footer, for the master key `id` of at most 256 bytes. Its metadata has at most 16,384 bytes.
    /// Every nonce that the maker uses is drawn from `random` and taken in `nonces`.
    fn make_footer<N: Random>(
        &mut self,
        alloc: Global,
        id: &str,
        random: &mut N,
        nonces: &mut NonceSet,
    ) -> Result<MadeKey, MakeRefusal>
        requires { length id.now ≤ 256 }
        ensures makes { Makes (behaves self.old) (behaves self.new)
            (record { footer = true; id = id.now }) (draws_of (N.to_come random.old) nonces.old)
            (draws_of (N.to_come random.new) nonces.new) result }
        ensures denied { Denies (has self.old id.now) result }
        ensures has { (other : List ℕ) → has self.new other ≡ has self.old other }
        ensures metadata { IfOk result (λ made. length made.metadata ≤ 16384) }
        ensures nonces { TakesDrawn nonces.old nonces.new (N.to_come random.old) }
        ensures draws { N.faults random.old ≤ N.faults random.new }
        ensures random { IsErrOf result refusal_is.RandomFault
            → Rose (N.faults random.old) (N.faults random.new) }
        ensures later { faults self.old ≤ faults self.new }
        ensures service { IsErrOf result refusal_is.ServiceFault → Rose (faults self.old) (faults self.new) };

    /// Makes the key of a column, as `make_footer` makes that of the footer.
    fn make_column<N: Random>(
        &mut self,
        alloc: Global,
        id: &str,
        random: &mut N,
        nonces: &mut NonceSet,
    ) -> Result<MadeKey, MakeRefusal>
        requires { length id.now ≤ 256 }
        ensures makes { Makes (behaves self.old) (behaves self.new)
            (record { footer = false; id = id.now }) (draws_of (N.to_come random.old) nonces.old)
            (draws_of (N.to_come random.new) nonces.new) result }
        ensures denied { Denies (has self.old id.now) result }
        ensures has { (other : List ℕ) → has self.new other ≡ has self.old other }
        ensures metadata { IfOk result (λ made. length made.metadata ≤ 16384) }
        ensures nonces { TakesDrawn nonces.old nonces.new (N.to_come random.old) }
        ensures draws { N.faults random.old ≤ N.faults random.new }
        ensures random { IsErrOf result refusal_is.RandomFault
            → Rose (N.faults random.old) (N.faults random.new) }
        ensures later { faults self.old ≤ faults self.new }
        ensures service { IsErrOf result refusal_is.ServiceFault → Rose (faults self.old) (faults self.new) };

    /// The text of the key material file after the keys were made; None if the maker stores no such file.
    fn external_text(&self, alloc: Global) -> Result<Option<Bytes>, OutOfMemory>
        ensures { IfOk result (λ text. (draws : Draws) → behaves self.now [] draws ≡ finished text draws) };
}
