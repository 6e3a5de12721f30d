// The interface of key finders, which answer which key a part of a file has.
ghost use Rattle.std.specs.Prelude.{◌≡◌, true, IfOk};
ghost use Rattle.std.specs.Option.{option_copied};
ghost use Rattle.key_rights.specs.Finding.{Asked, footer, column, is_key_answer, KeyFaults};

use aes_block::AesKey;
use pme_base::{Cause, Detail, OutOfMemory};
use std::alloc::Global;
use thiserror::Error;

/// A finder's answer to the question for a key.
#[derive(Drop)]
pub enum KeyAnswer {
    /// The key.
    Held(AesKey),
    /// The finder doesn't have the key or may not give it.
    Absent,
    /// The key's metadata or the key material file that it names is invalid: BadMaterial, NoMaterial, WrapTag or KeyLength.
    Refused(Cause, Detail),
}

/// Why a finder couldn't answer: the key service or a file read by the finder failed, or memory was refused.
#[derive(Clone, Copy, Debug, PartialEq, Eq, Drop, Error)]
pub enum KeyTrouble {
    #[error("Failed")]
    Failed,
    #[error("OutOfMemory")]
    OutOfMemory,
}

impl From<OutOfMemory> for KeyTrouble {
    ghost use Rattle.key_rights.specs.declared.finder.KeyTrouble.TheVariants as trouble;

    ghost from_gives = { λ _ t. t ≡ trouble.OutOfMemory };

    fn from(_error: OutOfMemory) -> KeyTrouble {
        KeyTrouble::OutOfMemory
    }
}

/// Finds keys. The answer depends only on the question, and no call changes later answers.
pub trait KeyFinder {
    ghost use Rattle.std.specs.Prelude.{ℕ};
    ghost use Rattle.key_rights.specs.declared.finder.KeyAnswer.{KeyAnswer};

    /// The answer to each question.
    ghost answer: { Self → Asked → KeyAnswer };

    /// The number of calls that have failed, which stops at 2^64 - 1.
    ghost faults: { Self → ℕ };

    /// The key of a file's footer. `metadata` is the key metadata in the file, if there is any.
    fn footer_key(
        &mut self,
        alloc: Global,
        metadata: Option<&[u8]>,
    ) -> Result<KeyAnswer, KeyTrouble>
        ensures answer { IfOk result (λ key. key ≡ answer self.old
            (footer (option_copied metadata.entry))) }
        ensures same { answer self.new ≡ answer self.old }
        ensures cause { KeyFaults (faults self.old) (faults self.new) result };

    /// The key of the column at `path`, whose parts are joined by `.`. `metadata` is the key metadata in the file, if there
    /// is any.
    fn column_key(
        &mut self,
        alloc: Global,
        metadata: Option<&[u8]>,
        path: &str,
    ) -> Result<KeyAnswer, KeyTrouble>
        ensures answer { IfOk result (λ key. key ≡ answer self.old
            (column (option_copied metadata.entry) path.now)) }
        ensures same { answer self.new ≡ answer self.old }
        ensures cause { KeyFaults (faults self.old) (faults self.new) result };

    /// An answer that is a refusal has one of the four causes of `KeyAnswer::Refused`.
    ghost causes: { (finder : Self) (asked : Asked) → is_key_answer (answer finder asked) ≡ true };
}
