// Reading a named file: filling a buffer, and the size of the file.
ghost use Rattle.std.specs.Prelude.{◌≡◌, ◌+◌, ◌≤◌, length, vec_len, OnOk, IfOk, IfSome};
ghost use Rattle.std.specs.FinMap.{get};
ghost use Rattle.pme_base.specs.Causes.{CausedBy};
ghost use Rattle.pme_base.specs.Outside.{bytes_of, IsReadFull, RoseBy, HasCause};
ghost use Rattle.pme_base.specs.Steps.{Answers, ReadsFail};
ghost use Rattle.pme_base.specs.Reading as defined;

use crate::memory_error::OutOfMemory;
use crate::outside::{Files, Trouble};
use crate::refusal::{Cause, Refusal, plain_refusal};
use std::alloc::Global;

/// Reads bytes of the file `name` from offset `at` until `into` is full or a read returns 0. Returns the number of
/// bytes read: fewer than the length of `into` only at the end of the file, and 0 where there is no such file.
pub fn read_full<F: Files>(
    files: &mut F,
    name: &str,
    at: u64,
    into: &mut [u8],
) -> Result<usize, Trouble>
    ensures within { IfOk result (λ count. count ≤ length into.new) }
    ensures answered { IfOk result (λ count. IfSome (F.published files.old)
        (λ published. IsReadFull (bytes_of published name.now) at count into.new)) }
    ensures published { F.published files.new ≡ F.published files.old }
    ensures pending { OnOk result (F.pending files.new ≡ F.pending files.old) }
    ensures given { IfOk result (λ count. RoseBy count (F.given files.old) (F.given files.new)) }
    ensures bound { F.given files.new ≤ F.given files.old + length into.new }
    ensures cause { HasCause (F.faults files.old) (F.faults files.new) result }
{
    let mut done = 0;
    while done < into.len() {
        let Some(place) = at.checked_add(done as u64) else {
            break;
        };
        let count = files.read_at(name, place, &mut into[done..])?;
        if count == 0 {
            break;
        }
        done += count;
    }
    Ok(done)
}

/// The refusal for a read that failed: ReadFault, or OutOfMemory.
pub fn read_refusal(trouble: Trouble) -> Refusal
    ensures { result ≡ defined.read_refusal trouble }
{
    match trouble {
        Trouble::Failed => plain_refusal(Cause::ReadFault),
        Trouble::OutOfMemory => plain_refusal(Cause::OutOfMemory),
    }
}

/// The length of the file `name` in bytes. A file that doesn't exist is refused as NoFile.
pub fn file_size<F: Files>(files: &mut F, name: &str) -> Result<u64, Refusal>
    ensures answer { IfSome (F.published files.old)
        (λ published. Answers result (defined.size_of (get published name.now))) }
    ensures reads { ReadsFail (F.faults files.old) (F.faults files.new) result }
    ensures causes { CausedBy defined.is_reading_cause result }
    ensures published { F.published files.new ≡ F.published files.old }
    ensures pending { OnOk result (F.pending files.new ≡ F.pending files.old) }
    ensures given { F.given files.new ≡ F.given files.old }
{
    match files.size(name) {
        Ok(Some(size)) => Ok(size),
        Ok(None) => Err(plain_refusal(Cause::NoFile)),
        Err(trouble) => Err(read_refusal(trouble)),
    }
}

/// A buffer of `size` bytes, for a read to fill.
pub fn buffer_of(alloc: Global, size: usize) -> Result<Vec<u8>, OutOfMemory>
    ensures { IfOk result (λ buffer. vec_len buffer ≡ size) }
{
    let mut buffer = Vec::new(alloc);
    buffer.resize(size, 0)?;
    Ok(buffer)
}
