// Loading the keys of a keys file.
ghost use Rattle.std.specs.Prelude.{◌≡◌, ◌≤◌, ◌+◌, length, IfSome, IfErr};
ghost use Rattle.std.specs.FinMap.{get};
ghost use Rattle.pme_base.specs.Causes.{CausedBy};
ghost use Rattle.pme_base.specs.Outside.{bytes_of};
ghost use Rattle.pme_base.specs.Steps.{Answers, ReadsFail, Quiet};
ghost use Rattle.key_rights.specs.KeysFile.{keys_of_file};
ghost use Rattle.command_parts.specs.SmallFile.{small_bytes};
ghost use Rattle.command_parts.specs.KeysInput as defined;

use crate::small_file::read_small;
use key_rights::{IdKeys, KeysRefusal};
use pme_base::{Cause, Detail, Files, Place, Refusal, SMALL_FILE_LIMIT, plain_refusal, refusal_at};
use std::alloc::Global;

/// Loads the keys of the keys file `name`. A file that isn't an object of keys is refused as BadKeys, with the first id
/// that has no valid key. A file over `SMALL_FILE_LIMIT` bytes is refused as TooLarge and not read.
pub fn load_keys<F: Files>(alloc: Global, files: &mut F, name: &str) -> Result<IdKeys, Refusal>
    ensures answer { IfSome (F.published files.old)
        (λ published. Answers result (defined.loaded_keys (get published name.now))) }
    ensures unread { IfSome (F.published files.old)
        (λ published. IfErr (small_bytes (get published name.now))
        (λ _. F.given files.new ≡ F.given files.old)) }
    ensures own { IfSome (F.published files.old) (λ published. F.given files.new
        ≤ F.given files.old + length (bytes_of published name.now)) }
    ensures reads { ReadsFail (F.faults files.old) (F.faults files.new) result }
    ensures causes { CausedBy defined.is_keys_cause result }
    ensures published { F.published files.new ≡ F.published files.old }
    ensures given { F.given files.new ≤ F.given files.old + SMALL_FILE_LIMIT }
{
    match read_small(alloc, files, name) {
        Ok(bytes) => keys_of(alloc, bytes.as_slice()),
        Err(refusal) => Err(refusal),
    }
}

/// Parses the bytes of a keys file.
fn keys_of(alloc: Global, bytes: &[u8]) -> Result<IdKeys, Refusal>
    ensures answer { Answers result (defined.keys_or_bad (keys_of_file bytes.now)) }
    ensures quiet { Quiet result }
    ensures causes { CausedBy defined.is_keys_cause result }
{
    match IdKeys::parse(alloc, bytes) {
        Ok(keys) => Ok(keys),
        Err(KeysRefusal::Bad(id)) => {
            Err(refusal_at(Cause::BadKeys, Place::file(), 0, Detail::Name(id)))
        }
        Err(KeysRefusal::OutOfMemory) => Err(plain_refusal(Cause::OutOfMemory)),
    }
}
