// Reading the module that fills a file: its length field first, then the rest.
ghost use Rattle.std.specs.Prelude.{◌≡◌, ◌≤◌, ◌+◌, ◌-◌, length, take, true, vec_len, Ok, IfSome, IfOk, IfErr};
ghost use Rattle.std.specs.FinMap.{get};
ghost use Rattle.pme_base.specs.Causes.{CausedBy};
ghost use Rattle.pme_base.specs.Outside.{bytes_of};
ghost use Rattle.pme_base.specs.Refusals.{is_free};
ghost use Rattle.pme_base.specs.Steps.{Answers, ReadsFail};
ghost use Rattle.pme_base.specs.Reading.{is_reading_cause};
ghost use Rattle.crypto_module.specs.Frames.{is_frame_cause};
ghost use Rattle.read_commands.specs.SealedFile.{IsHead, IsRest, Begins, held_by, is_sealed_cause};
ghost use Rattle.read_commands.specs.SealedFile as defined;

use crypto_module::{ModuleKind, filling_extent};
use pme_base::{
    Cause, Detail, Files, MODULE_LIMIT, OutOfMemory, Place, Refusal, file_size, plain_refusal,
    read_full, read_refusal, refusal_at,
};
use std::alloc::Global;

/// Reads the first four bytes of a file, or all of a shorter one. Returns the number of bytes read.
fn read_head<F: Files>(files: &mut F, name: &str, head: &mut [u8]) -> Result<usize, Refusal>
    requires { length head.old ≡ 4 }
    ensures answered { IfOk result (λ count. IfSome (F.published files.old)
        (λ published. IsHead (bytes_of published name.now) count head.new)) }
    ensures reads { ReadsFail (F.faults files.old) (F.faults files.new) result }
    ensures causes { CausedBy is_reading_cause result }
    ensures free { IfErr result (λ refusal. is_free refusal.cause ≡ true) }
    ensures published { F.published files.new ≡ F.published files.old }
    ensures given { F.given files.new ≤ F.given files.old + 4 }
    ensures within { IfOk result (λ count. count ≤ 4) }
{
    match read_full(files, name, 0, head) {
        Ok(count) => Ok(count),
        Err(trouble) => Err(read_refusal(trouble)),
    }
}

/// Reads the bytes of a file from offset 4 on into the buffer, after its first four bytes. Returns the number of bytes
/// read.
fn read_rest<F: Files>(files: &mut F, name: &str, buffer: &mut [u8]) -> Result<usize, Refusal>
    requires { 4 ≤ length buffer.old }
    ensures answered { IfOk result (λ count. IfSome (F.published files.old)
        (λ published. IsRest (bytes_of published name.now) count buffer.old buffer.new)) }
    ensures reads { ReadsFail (F.faults files.old) (F.faults files.new) result }
    ensures causes { CausedBy is_reading_cause result }
    ensures free { IfErr result (λ refusal. is_free refusal.cause ≡ true) }
    ensures published { F.published files.new ≡ F.published files.old }
    ensures given { F.given files.new ≤ F.given files.old + (length buffer.old - 4) }
    ensures within { IfOk result (λ count. count ≤ length buffer.old - 4) }
{
    match read_full(files, name, 4, &mut buffer[4..]) {
        Ok(count) => Ok(count),
        Err(trouble) => Err(read_refusal(trouble)),
    }
}

/// The size of the module that fills a file of `size` bytes which begins with `head`; a refusal if no module fills it.
fn sealed_size(head: &[u8], size: u64) -> Result<usize, Refusal>
    ensures size { result ≡ defined.sealed_size head.now size }
    ensures fills { IfOk result (λ whole. whole ≡ size) }
    ensures least { IfOk result (λ whole. 32 ≤ whole) }
    ensures limited { IfOk result (λ whole. whole ≤ MODULE_LIMIT + 32) }
    ensures head { IfOk result (λ whole. 4 ≤ length head.now) }
    ensures causes { CausedBy is_frame_cause result }
{
    let room = size.saturating_sub(4);
    let place = Place::loose();
    let whole = filling_extent(ModuleKind::Gcm, &place, 0, MODULE_LIMIT, head, room)?;
    Ok(whole as usize)
}

/// A buffer of `whole` bytes that begins with `head`.
fn buffer_after(alloc: Global, head: &[u8], whole: usize) -> Result<Vec<u8>, OutOfMemory>
    requires { length head.now ≤ whole }
    ensures front { IfOk result (λ buffer. take (length head.now) buffer.items ≡ head.now) }
    ensures len { IfOk result (λ buffer. vec_len buffer ≡ whole) }
{
    let mut buffer = Vec::with_capacity(alloc, whole)?;
    buffer.extend_from_slice(head)?;
    buffer.resize(whole, 0)?;
    Ok(buffer)
}

/// Reads all of a file of `whole` bytes, of which the first four are known.
fn read_whole<F: Files>(
    alloc: Global,
    files: &mut F,
    name: &str,
    head: &[u8],
    whole: usize,
) -> Result<Vec<u8>, Refusal>
    requires four { length head.now ≡ 4 }
    requires whole { 4 ≤ whole }
    ensures answer { IfSome (F.published files.old)
        (λ published. Begins (bytes_of published name.now) whole head.now
        → Answers (held_by result) (Ok (bytes_of published name.now))) }
    ensures len { IfOk result (λ buffer. vec_len buffer ≡ whole) }
    ensures reads { ReadsFail (F.faults files.old) (F.faults files.new) result }
    ensures causes { CausedBy is_sealed_cause result }
    ensures published { F.published files.new ≡ F.published files.old }
    ensures given { F.given files.new ≤ F.given files.old + (whole - 4) }
{
    let mut buffer = match buffer_after(alloc, head, whole) {
        Ok(buffer) => buffer,
        Err(_) => return Err(plain_refusal(Cause::OutOfMemory)),
    };
    let count = match read_rest(files, name, buffer.as_mut_slice()) {
        Ok(count) => count,
        Err(refusal) => return Err(refusal),
    };
    if count < whole - 4 {
        let detail = Detail::Pair(whole as u64, 4 + count as u64);
        return Err(refusal_at(Cause::Truncated, Place::loose(), 0, detail));
    }
    Ok(buffer)
}

/// Reads the file `name`, which one module must fill. If its length field is refused, only that field is read.
pub fn read_sealed<F: Files>(alloc: Global, files: &mut F, name: &str) -> Result<Vec<u8>, Refusal>
    ensures answer { IfSome (F.published files.old)
        (λ published. Answers (held_by result) (defined.sealed_bytes (get published name.now))) }
    ensures field { IfSome (F.published files.old)
        (λ published. IfErr (defined.sealed_bytes (get published name.now))
        (λ _. F.given files.new ≤ F.given files.old + 4)) }
    ensures len { IfOk result (λ buffer. vec_len buffer ≤ MODULE_LIMIT + 32) }
    ensures reads { ReadsFail (F.faults files.old) (F.faults files.new) result }
    ensures causes { CausedBy is_sealed_cause result }
    ensures published { F.published files.new ≡ F.published files.old }
    ensures given { F.given files.new ≤ F.given files.old + (MODULE_LIMIT + 32) }
{
    let size = file_size(files, name)?;
    let mut head = [0; 4];
    let count = match read_head(files, name, &mut head) {
        Ok(count) => count,
        Err(refusal) => return Err(refusal),
    };
    let whole = sealed_size(&head[..count], size)?;
    read_whole(alloc, files, name, &head, whole)
}
