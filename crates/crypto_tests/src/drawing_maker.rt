// A key maker that draws its keys and nonces, for tests of the interface.
ghost use Rattle.std.specs.Prelude.{◌≡◌, ◌≤◌, ◌<◌, nat_le, true, false, length, IfOk, IsErrOf};
ghost use Rattle.pme_base.specs.Counts.{Rose};
ghost use Rattle.key_rights.specs.Making.{Denies, Makes, TakesDrawn, behaviour_of, draws_of};
ghost use Rattle.key_rights.specs.declared.maker.MakeRefusal.TheVariants as refusal_is;
ghost use Rattle.crypto_tests.specs.Drawing.{drawing_step};

use aes_block::AesKey;
use key_rights::{KeyMaker, MadeKey, MakeRefusal, NonceOwner, NonceRefusal, NonceSet};
use pme_base::{Bytes, OutOfMemory, Random};
use std::alloc::Global;

/// Makes each key of sixteen random bytes, with a random nonce as its metadata. The empty id is denied.
#[derive(Drop)]
pub struct DrawingMaker {}

impl DrawingMaker {
    fn made<N: Random>(
        &self,
        alloc: Global,
        footer: bool,
        id: &str,
        random: &mut N,
        nonces: &mut NonceSet,
    ) -> Result<MadeKey, MakeRefusal>
        ensures makes { Makes (behaviour_of drawing_step (λ _. None) tt)
            (behaviour_of drawing_step (λ _. None) tt) (record { footer = footer; id = id.now })
            (draws_of (N.to_come random.old) nonces.old)
            (draws_of (N.to_come random.new) nonces.new) result }
        ensures denied { Denies (nat_le 1 (length id.now)) result }
        ensures metadata { IfOk result (λ made. length made.metadata ≤ 16384) }
        ensures nonces { TakesDrawn nonces.old nonces.new (N.to_come random.old) }
        ensures draws { N.faults random.old ≤ N.faults random.new }
        ensures random { IsErrOf result refusal_is.RandomFault
            → Rose (N.faults random.old) (N.faults random.new) }
        ensures service { IsErrOf result refusal_is.ServiceFault → ⊥ }
    {
        if id.is_empty() {
            return Err(MakeRefusal::Denied);
        }
        let mut key = [0; 16];
        match random.fill(&mut key) {
            Ok(()) => {}
            Err(_) => return Err(MakeRefusal::RandomFault),
        }
        let mut nonce = [0; 12];
        match random.fill(&mut nonce) {
            Ok(()) => {}
            Err(_) => return Err(MakeRefusal::RandomFault),
        }
        let owner = NonceOwner::Master(Bytes::copy_of(alloc, id.as_bytes())?);
        match nonces.take(&owner, nonce) {
            Ok(()) => {}
            Err(NonceRefusal::Repeated) => return Err(MakeRefusal::NonceRepeated(nonce)),
            Err(NonceRefusal::OutOfMemory) => return Err(MakeRefusal::OutOfMemory),
        }
        let metadata = Bytes::copy_of(alloc, &nonce)?;
        let key = match AesKey::new(&key) {
            Ok(key) => key,
            Err(_) => return Err(MakeRefusal::OutOfMemory),
        };
        Ok(MadeKey { key, metadata })
    }
}

impl KeyMaker for DrawingMaker {
    ghost use Rattle.std.specs.Prelude.{None, nat_le, length};

    ghost behaves = { λ _. behaviour_of drawing_step (λ _. None) tt };

    ghost has = { λ _ id. nat_le 1 (length id) };

    ghost faults = { λ _. 0 };

    fn make_footer<N: Random>(
        &mut self,
        alloc: Global,
        id: &str,
        random: &mut N,
        nonces: &mut NonceSet,
    ) -> Result<MadeKey, MakeRefusal> {
        self.made(alloc, true, id, random, nonces)
    }

    fn make_column<N: Random>(
        &mut self,
        alloc: Global,
        id: &str,
        random: &mut N,
        nonces: &mut NonceSet,
    ) -> Result<MadeKey, MakeRefusal> {
        self.made(alloc, false, id, random, nonces)
    }

    fn external_text(&self, _alloc: Global) -> Result<Option<Bytes>, OutOfMemory> {
        Ok(None)
    }
}
