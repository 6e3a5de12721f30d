// Reading small files whole.
ghost use Rattle.std.specs.Prelude.{◌≡◌, ◌≤◌, ◌+◌, length, true, Ok, IfSome, IfOk, IfErr};
ghost use Rattle.std.specs.FinMap.{get};
ghost use Rattle.pme_base.specs.Causes.{CausedBy};
ghost use Rattle.pme_base.specs.Outside.{bytes_of};
ghost use Rattle.pme_base.specs.Refusals.{is_free};
ghost use Rattle.pme_base.specs.Steps.{Answers, ReadsFail};
ghost use Rattle.pme_base.specs.Reading.{is_reading_cause};
ghost use Rattle.command_parts.specs.SmallFile.{IsWhole, is_small_cause};
ghost use Rattle.command_parts.specs.SmallFile as defined;

use pme_base::{
    Bytes, Cause, Detail, Files, Place, Refusal, SMALL_FILE_LIMIT, buffer_of, file_size,
    plain_refusal, read_full, read_refusal, refusal_at,
};
use std::alloc::Global;

/// Checks the size of a small file; one over the limit is refused as TooLarge.
fn small_size(size: u64) -> Result<usize, Refusal>
    ensures size { result ≡ defined.small_size size }
    ensures limited { IfOk result (λ whole. whole ≤ SMALL_FILE_LIMIT) }
    ensures causes { CausedBy is_small_cause result }
{
    if size > SMALL_FILE_LIMIT as u64 {
        let detail = Detail::Pair(size, SMALL_FILE_LIMIT as u64);
        return Err(refusal_at(Cause::TooLarge, Place::file(), 0, detail));
    }
    Ok(size as usize)
}

/// Fills the buffer from the start of a file. Returns the number of bytes read.
fn read_front<F: Files>(files: &mut F, name: &str, buffer: &mut [u8]) -> Result<usize, Refusal>
    ensures answered { IfOk result (λ count. IfSome (F.published files.old)
        (λ published. IsWhole (bytes_of published name.now) count buffer.new)) }
    ensures within { IfOk result (λ count. count ≤ length buffer.new) }
    ensures free { IfErr result (λ refusal. is_free refusal.cause ≡ true) }
    ensures reads { ReadsFail (F.faults files.old) (F.faults files.new) result }
    ensures causes { CausedBy is_reading_cause result }
    ensures published { F.published files.new ≡ F.published files.old }
    ensures given { F.given files.new ≤ F.given files.old + length buffer.new }
{
    match read_full(files, name, 0, buffer) {
        Ok(count) => Ok(count),
        Err(trouble) => Err(read_refusal(trouble)),
    }
}

/// Reads the first `size` bytes of a file, or all of it where it is shorter.
fn read_bytes<F: Files>(
    alloc: Global,
    files: &mut F,
    name: &str,
    size: usize,
) -> Result<Bytes, Refusal>
    ensures answer { IfSome (F.published files.old)
        (λ published. length (bytes_of published name.now) ≡ size
        → Answers result (Ok (bytes_of published name.now))) }
    ensures reads { ReadsFail (F.faults files.old) (F.faults files.new) result }
    ensures causes { CausedBy is_reading_cause result }
    ensures published { F.published files.new ≡ F.published files.old }
    ensures given { F.given files.new ≤ F.given files.old + size }
{
    let mut buffer = match buffer_of(alloc, size) {
        Ok(buffer) => buffer,
        Err(_) => return Err(plain_refusal(Cause::OutOfMemory)),
    };
    let count = match read_front(files, name, buffer.as_mut_slice()) {
        Ok(count) => count,
        Err(refusal) => return Err(refusal),
    };
    buffer.truncate(count);
    Ok(Bytes::from_vec(buffer))
}

/// Reads a whole file of at most `SMALL_FILE_LIMIT` bytes. A larger one is refused as TooLarge and not read at all.
pub fn read_small<F: Files>(alloc: Global, files: &mut F, name: &str) -> Result<Bytes, Refusal>
    ensures answer { IfSome (F.published files.old)
        (λ published. Answers result (defined.small_bytes (get published name.now))) }
    ensures unread { IfSome (F.published files.old)
        (λ published. IfErr (defined.small_bytes (get published name.now))
        (λ _. F.given files.new ≡ F.given files.old)) }
    ensures own { IfSome (F.published files.old) (λ published. F.given files.new
        ≤ F.given files.old + length (bytes_of published name.now)) }
    ensures reads { ReadsFail (F.faults files.old) (F.faults files.new) result }
    ensures causes { CausedBy is_small_cause result }
    ensures published { F.published files.new ≡ F.published files.old }
    ensures given { F.given files.new ≤ F.given files.old + SMALL_FILE_LIMIT }
{
    let size = match file_size(files, name) {
        Ok(size) => size,
        Err(refusal) => return Err(refusal),
    };
    let whole = match small_size(size) {
        Ok(whole) => whole,
        Err(refusal) => return Err(refusal),
    };
    read_bytes(alloc, files, name, whole)
}
