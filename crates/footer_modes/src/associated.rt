// The associated data of the modules of a file: the prefix, which the file stores or the reader supplies, and the file's
// unique bytes.
ghost use Rattle.std.specs.Prelude.{◌≡◌, ◌++◌, ◌≤◌, false, length, Ok, Err, IfOk, IfErr, IfSome};
ghost use Rattle.std.specs.Option.{option_copied};
ghost use Rattle.pme_base.specs.Causes.{CausedBy};
ghost use Rattle.pme_base.specs.declared.refusal.Detail.TheVariants.{Hexes};
ghost use Rattle.pme_base.specs.Refusals.{is_free};
ghost use Rattle.pme_base.specs.Steps.{Answers, Quiet};
ghost use Rattle.footer_modes.specs.Causes.{is_aad_cause};
ghost use Rattle.footer_modes.specs.TailOf as defined;

use crate::head::refused;
use module_aad::{AadRefusal, FileAad};
use parquet_meta::AlgorithmMeta;
use pme_base::{
    Bytes, Cause, Detail, OutOfMemory, PREFIX_LIMIT, Refusal, UNIQUE_LIMIT, plain_refusal,
};
use std::alloc::Global;

/// The start of the associated data of all modules of the file, by its algorithm and the prefix that the reader supplies.
pub(crate) fn aad_of(
    alloc: Global,
    algorithm: &AlgorithmMeta,
    supplied: Option<&[u8]>,
) -> Result<FileAad, Refusal>
    requires { IfSome (option_copied supplied) (λ prefix. length prefix ≤ PREFIX_LIMIT) }
    ensures answer { Answers result (defined.aad_of algorithm.now (option_copied supplied.entry)) }
    ensures quiet { Quiet result }
    ensures causes { CausedBy is_aad_cause result }
{
    stored_within(&algorithm.prefix)?;
    let unique = algorithm.unique.as_slice();
    within_limit(UNIQUE_LIMIT, unique.len())?;
    match prefix_of(alloc, &algorithm.prefix, algorithm.supply, supplied) {
        Ok(prefix) => joined_aad(alloc, prefix, unique),
        Err(refusal) => Err(refusal),
    }
}

fn stored_within(stored: &Option<Bytes>) -> Result<(), Refusal>
    ensures answer { result ≡ defined.stored_within stored.now }
    ensures within { IfOk result (λ _. IfSome stored.now (λ prefix. length prefix ≤ PREFIX_LIMIT)) }
    ensures quiet { Quiet result }
    ensures causes { CausedBy is_aad_cause result }
{
    match stored {
        Some(prefix) => within_limit(PREFIX_LIMIT, prefix.len()),
        None => Ok(()),
    }
}

fn within_limit(limit: usize, count: usize) -> Result<(), Refusal>
    ensures answer { result ≡ defined.within_limit limit count }
    ensures within { IfOk result (λ _. count ≤ limit) }
    ensures quiet { Quiet result }
    ensures causes { CausedBy is_aad_cause result }
{
    if count > limit {
        let detail = Detail::Pair(count as u64, limit as u64);
        return Err(refused(Cause::TooLarge, detail));
    }
    Ok(())
}

/// The prefix that the file stores, or the one that the reader supplies.
fn prefix_of<'a>(
    alloc: Global,
    stored: &'a Option<Bytes>,
    supply: bool,
    supplied: Option<&'a [u8]>,
) -> Result<&'a [u8], Refusal>
    requires stored { IfSome stored.now (λ prefix. length prefix ≤ PREFIX_LIMIT) }
    requires supplied { IfSome (option_copied supplied) (λ prefix. length prefix ≤ PREFIX_LIMIT) }
    ensures ok { IfOk result (λ prefix.
        defined.prefix_of stored.now supply (option_copied supplied.entry) ≡ Ok prefix.now) }
    ensures short { IfOk result (λ prefix. length prefix.now ≤ PREFIX_LIMIT) }
    ensures err { IfErr result (λ refusal. is_free refusal.cause ≡ false
        → defined.prefix_of stored.now supply (option_copied supplied.entry) ≡ Err refusal) }
    ensures quiet { Quiet result }
    ensures causes { CausedBy is_aad_cause result }
{
    match (stored, supplied) {
        (Some(stored), Some(supplied)) => same_prefix(alloc, stored.as_slice(), supplied),
        (Some(stored), None) => Ok(stored.as_slice()),
        (None, Some(supplied)) => {
            if supply {
                Ok(supplied)
            } else {
                Err(refused(Cause::PrefixUnused, Detail::Nothing))
            }
        }
        (None, None) => {
            if supply {
                Err(refused(Cause::PrefixNeeded, Detail::Nothing))
            } else {
                Ok(&[])
            }
        }
    }
}

/// The stored prefix, if the reader supplies the same one.
fn same_prefix<'a>(alloc: Global, stored: &'a [u8], supplied: &[u8]) -> Result<&'a [u8], Refusal>
    ensures ok { IfOk result (λ prefix. defined.same_prefix stored.now supplied.now
        ≡ Ok prefix.now) }
    ensures stored { IfOk result (λ prefix. prefix.now ≡ stored.now) }
    ensures err { IfErr result (λ refusal. is_free refusal.cause ≡ false
        → defined.same_prefix stored.now supplied.now ≡ Err refusal) }
    ensures quiet { Quiet result }
    ensures causes { CausedBy is_aad_cause result }
{
    if stored == supplied {
        return Ok(stored);
    }
    match differing(alloc, stored, supplied) {
        Ok(detail) => Err(refused(Cause::PrefixDiffers, detail)),
        Err(OutOfMemory) => Err(plain_refusal(Cause::OutOfMemory)),
    }
}

fn differing(alloc: Global, stored: &[u8], supplied: &[u8]) -> Result<Detail, OutOfMemory>
    ensures { IfOk result (λ d. d ≡ Hexes stored.now supplied.now) }
{
    let stored = Bytes::copy_of(alloc, stored)?;
    let supplied = Bytes::copy_of(alloc, supplied)?;
    Ok(Detail::Hexes(stored, supplied))
}

fn joined_aad(alloc: Global, prefix: &[u8], unique: &[u8]) -> Result<FileAad, Refusal>
    requires prefix { length prefix.now ≤ PREFIX_LIMIT }
    requires unique { length unique.now ≤ 64 }
    ensures answer { Answers result (Ok (prefix.now ++ unique.now)) }
    ensures quiet { Quiet result }
    ensures causes { CausedBy is_aad_cause result }
{
    match FileAad::new(alloc, prefix, unique) {
        Ok(file) => Ok(file),
        Err(AadRefusal::OutOfMemory) => Err(plain_refusal(Cause::OutOfMemory)),
        Err(AadRefusal::PrefixTooLarge) => unreachable!(),
        Err(AadRefusal::UniqueTooLarge) => unreachable!(),
    }
}
