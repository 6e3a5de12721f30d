// Reading a given number of bytes of a file.
ghost use Rattle.std.specs.Prelude.{◌≡◌, ◌+◌, ◌<◌, ◌≤◌, ◌^◌, true, length, take, drop, OnOk, IfErr, IfSome};
ghost use Rattle.pme_base.specs.Causes.{CausedBy};
ghost use Rattle.pme_base.specs.Outside.{bytes_of};
ghost use Rattle.pme_base.specs.Refusals.{is_free};
ghost use Rattle.pme_base.specs.Steps.{ReadsFail};
ghost use Rattle.pme_base.specs.declared.refusal.Cause.TheVariants.{Truncated};
ghost use Rattle.footer_modes.specs.Causes.{is_ends_cause, IsShortRead};

use pme_base::{Cause, Detail, Files, Place, Refusal, read_full, read_refusal, refusal_at};

/// Fills `into` with bytes of the file `name` from offset `at`. A file that gives fewer bytes than its size promised is
/// Truncated at `place`.
pub(crate) fn read_exactly<F: Files>(
    files: &mut F,
    name: &str,
    place: Place,
    at: u64,
    into: &mut [u8],
) -> Result<(), Refusal>
    ensures answered { OnOk result (IfSome (F.published files.old)
        (λ published. into.new ≡ take (length into.new) (drop at (bytes_of published name.now)))) }
    ensures whole { IfErr result (λ refusal. IfSome (F.published files.old)
        (λ published. length (bytes_of published name.now) < 2 ^ 64 → at + length into.new
        ≤ length (bytes_of published name.now) → is_free refusal.cause ≡ true)) }
    ensures short { IfErr result (λ refusal. refusal.cause ≡ Truncated
        → IsShortRead place at (length into.new) refusal) }
    ensures published { F.published files.new ≡ F.published files.old }
    ensures pending { OnOk result (F.pending files.new ≡ F.pending files.old) }
    ensures given { F.given files.new ≤ F.given files.old + length into.new }
    ensures reads { ReadsFail (F.faults files.old) (F.faults files.new) result }
    ensures causes { CausedBy is_ends_cause result }
{
    let needed = into.len();
    match read_full(files, name, at, into) {
        Ok(count) if count == needed => Ok(()),
        Ok(count) => {
            let detail = Detail::Pair(needed as u64, count as u64);
            Err(refusal_at(Cause::Truncated, place, at, detail))
        }
        Err(trouble) => Err(read_refusal(trouble)),
    }
}
