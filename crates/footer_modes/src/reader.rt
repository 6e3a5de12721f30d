// Reading the tail of a file: its ends, the front of the footer area, and the footer.
ghost use Rattle.std.specs.Prelude.{◌≡◌, ◌+◌, ◌<◌, ◌≤◌, ◌^◌, false, length, Ok, Err, OnOk, IfOk, IfErr, IfSome};
ghost use Rattle.std.specs.FinMap.{get};
ghost use Rattle.std.specs.Option.{option_copied};
ghost use Rattle.pme_base.specs.Causes.{CausedBy};
ghost use Rattle.pme_base.specs.Steps.{Answers, Quiet, ReadsFail};
ghost use Rattle.footer_modes.specs.Causes.{is_head_cause, is_ends_cause, is_metadata_cause, is_tail_cause, is_area_cause, FinderFails, TellsShort};
ghost use Rattle.pme_base.specs.declared.refusal.Cause.TheVariants.{AlgorithmRefused, BadField, OutOfMemory, Truncated};
ghost use Rattle.parquet_meta.specs.Footer.{is_file_cause};
ghost use Rattle.footer_modes.specs.Ends.{footer_place};
ghost use Rattle.footer_modes.specs.IsTail.{HasItsMode, IsTail};
ghost use Rattle.footer_modes.specs.TailOf as defined;
ghost use Rattle.footer_modes.specs.declared.head.AreaHead.TheVariants as head_is;
ghost use Rattle.pme_base.specs.Refusals.{is_free};
ghost use Rattle.std.specs.List.{list_all};

use crate::associated::aad_of;
use crate::ends::{area_of, file_ends};
use crate::head::{AreaHead, Head, head_of, refused};
use crate::mode::{FooterMode, Magic};
use crate::opening::{footer_key, plain_of};
use crate::tail::{Protection, ReadOptions, Tail};
use key_rights::KeyFinder;
use parquet_meta::{AlgorithmMeta, FileMeta, read_file_meta};
use parquet_types::{ChunkCrypto, ChunkMeta, RowGroupMeta};
use pme_base::{
    Bytes, Cause, Detail, FOOTER_AREA_LIMIT, Files, MODULE_LIMIT, PREFIX_LIMIT, Place, Refusal,
    StructName, plain_refusal,
};
use std::alloc::Global;

/// Reads the end of the file `name` and opens its footer with the key that the finder has for it.
///
/// A reader supplies the prefix of the associated data exactly where the file asks for it; where the file stores one, the
/// supplied one must be the same. The prefix has at most 1,024 bytes. The file is judged in the order in which it is
/// read: its ends, the front of the footer area, the algorithm, the associated data, the key, the tag, the footer's
/// fields, and the rules on them. An unencrypted file is NotEncrypted unless `options.allow_plain` is set; then it takes
/// no prefix, no key is asked for, and none of its column chunks may be encrypted. At most 16,842,764 bytes are read. A
/// file that gives fewer bytes of the footer area than its size promised is Truncated at the footer.
pub fn read_tail<F: Files, K: KeyFinder>(
    alloc: Global,
    files: &mut F,
    name: &str,
    prefix: Option<&[u8]>,
    finder: &mut K,
    options: &ReadOptions,
) -> Result<Tail, Refusal>
    requires short_prefix { IfSome (option_copied prefix)
        (λ supplied. length supplied ≤ PREFIX_LIMIT) }
    requires small_limit { options.now.module_limit ≤ MODULE_LIMIT }
    ensures answer { IfSome (F.published files.old) (λ published.
        Answers result (defined.file_tail (defined.asks_with (K.answer finder.old)
        (option_copied prefix.entry) options.now) (get published name.now))) }
    ensures laid_out { IfOk result (λ tail. IfSome (F.published files.old)
        (λ published. IfSome (get published name.now) (λ bytes. IsTail (defined.asks_with
        (K.answer finder.old) (option_copied prefix.entry) options.now) bytes tail))) }
    ensures mode { IfOk result (HasItsMode
        (defined.asks_with (K.answer finder.old) (option_copied prefix.entry) options.now)) }
    ensures short { IfErr result TellsShort }
    ensures published { F.published files.new ≡ F.published files.old }
    ensures pending { OnOk result (F.pending files.new ≡ F.pending files.old) }
    ensures given { F.given files.new ≤ F.given files.old + FOOTER_AREA_LIMIT + 12 }
    ensures same { K.answer finder.new ≡ K.answer finder.old }
    ensures reads { ReadsFail (F.faults files.old) (F.faults files.new) result }
    ensures finder { FinderFails (K.faults finder.old) (K.faults finder.new) result }
    ensures causes { CausedBy is_tail_cause result }
{
    let ends = file_ends(files, name)?;
    let mut area = area_of(alloc, files, name, &ends)?;
    open_area(
        alloc,
        ends.magic,
        ends.data_end,
        area.as_mut_slice(),
        prefix,
        finder,
        options,
    )
}

/// Reads the metadata of the footer key of the file `name`; None where the file has none. The refusals are those of the
/// ends and of the front of the footer area, and an unencrypted file is NotEncrypted; no key is asked for. A file that
/// gives fewer bytes of the footer area than its size promised is Truncated at the footer.
pub fn footer_key_metadata<F: Files>(
    alloc: Global,
    files: &mut F,
    name: &str,
) -> Result<Option<Bytes>, Refusal>
    ensures answer { IfSome (F.published files.old)
        (λ published. Answers result (defined.file_key_metadata (get published name.now))) }
    ensures short { IfErr result TellsShort }
    ensures published { F.published files.new ≡ F.published files.old }
    ensures pending { OnOk result (F.pending files.new ≡ F.pending files.old) }
    ensures given { F.given files.new ≤ F.given files.old + FOOTER_AREA_LIMIT + 12 }
    ensures reads { ReadsFail (F.faults files.old) (F.faults files.new) result }
    ensures causes { CausedBy is_metadata_cause result }
{
    let ends = file_ends(files, name)?;
    let area = area_of(alloc, files, name, &ends)?;
    area_metadata(alloc, ends.magic, ends.data_end, area.as_slice())
}

/// Reads the metadata of the footer key from the footer area.
fn area_metadata(
    alloc: Global,
    magic: Magic,
    data_end: u64,
    area: &[u8],
) -> Result<Option<Bytes>, Refusal>
    requires room { data_end + length area.now < 2 ^ 64 }
    ensures answer { Answers result (defined.area_metadata magic data_end area.now) }
    ensures quiet { Quiet result }
    ensures causes { CausedBy is_head_cause result }
{
    match head_of(alloc, false, magic, data_end, area)? {
        AreaHead::Protected(head) => Ok(head.metadata),
        AreaHead::Bare(_) => Ok(None),
    }
}

/// Reads the footer in its area, which stands at the offset `data_end` of its file.
pub(crate) fn open_area<K: KeyFinder>(
    alloc: Global,
    magic: Magic,
    data_end: u64,
    area: &mut [u8],
    prefix: Option<&[u8]>,
    finder: &mut K,
    options: &ReadOptions,
) -> Result<Tail, Refusal>
    requires room { data_end + length area.old < 2 ^ 64 }
    requires short { length area.old ≤ FOOTER_AREA_LIMIT }
    requires short_prefix { IfSome (option_copied prefix)
        (λ supplied. length supplied ≤ PREFIX_LIMIT) }
    ensures answer { Answers result (defined.area_tail (defined.asks_with (K.answer finder.old)
        (option_copied prefix.entry) options.now) magic data_end area.old) }
    ensures short { IfErr result (λ refusal. refusal.cause ≡ Truncated
        → refusal.place ≡ footer_place) }
    ensures same { K.answer finder.new ≡ K.answer finder.old }
    ensures finder { FinderFails (K.faults finder.old) (K.faults finder.new) result }
    ensures causes { CausedBy is_area_cause result }
{
    match head_of(alloc, options.allow_plain, magic, data_end, area)? {
        AreaHead::Protected(head) => {
            protected_tail(alloc, magic, data_end, head, area, prefix, finder, options)
        }
        AreaHead::Bare(size) => bare_tail(alloc, data_end, &area[..size], prefix),
    }
}

/// Opens an encrypted footer, or checks a signed one.
fn protected_tail<K: KeyFinder>(
    alloc: Global,
    magic: Magic,
    data_end: u64,
    head: Head,
    area: &mut [u8],
    prefix: Option<&[u8]>,
    finder: &mut K,
    options: &ReadOptions,
) -> Result<Tail, Refusal>
    requires room { data_end + length area.old < 2 ^ 64 }
    requires short { length area.old ≤ FOOTER_AREA_LIMIT }
    requires fits { defined.HeadFits magic (length area.old) (head_is.Protected head) }
    requires short_prefix { IfSome (option_copied prefix)
        (λ supplied. length supplied ≤ PREFIX_LIMIT) }
    ensures answer { Answers result (defined.protected_tail (defined.asks_with
        (K.answer finder.old)
        (option_copied prefix.entry) options.now) magic data_end area.old head) }
    ensures short { IfErr result (λ refusal. refusal.cause ≡ Truncated
        → refusal.place ≡ footer_place) }
    ensures same { K.answer finder.new ≡ K.answer finder.old }
    ensures finder { FinderFails (K.faults finder.old) (K.faults finder.new) result }
    ensures causes { CausedBy is_area_cause result }
{
    let Head {
        algorithm,
        metadata,
        size,
    } = head;
    check_algorithm(options.gcm_only, &algorithm)?;
    let file_aad = aad_of(alloc, &algorithm, prefix)?;
    let footer_key = footer_key(alloc, finder, &metadata)?;
    let crypto_bytes = crypto_of(alloc, magic, size, area)?;
    let at = data_end + size as u64;
    let (footer, footer_bytes) = match plain_of(
        magic,
        footer_key.key(),
        &file_aad,
        at,
        size,
        area,
    ) {
        Ok(plain) => footer_with_bytes(alloc, plain)?,
        Err(refusal) => return Err(refusal),
    };
    Ok(Tail {
        mode: magic.mode(),
        protection: Some(Protection {
            algorithm,
            file_aad,
            footer_key,
            crypto_bytes,
        }),
        footer,
        footer_bytes,
        data_end,
        at,
    })
}

/// Parses an unencrypted footer. A supplied `prefix` is refused, and so is an encrypted column chunk.
fn bare_tail(
    alloc: Global,
    data_end: u64,
    bytes: &[u8],
    prefix: Option<&[u8]>,
) -> Result<Tail, Refusal>
    ensures answer { Answers result (defined.bare_tail
        (option_copied prefix.entry) data_end bytes.now) }
    ensures whole { IfErr result (λ refusal. refusal.cause ≡ Truncated → ⊥) }
    ensures quiet { Quiet result }
    ensures causes { CausedBy is_area_cause result }
{
    if prefix.is_some() {
        return Err(refused(Cause::PrefixUnused, Detail::Nothing));
    }
    let (footer, footer_bytes) = footer_with_bytes(alloc, bytes)?;
    check_unsealed(&footer)?;
    Ok(Tail {
        mode: FooterMode::Unencrypted,
        protection: None,
        footer,
        footer_bytes,
        data_end,
        at: data_end,
    })
}

/// Refuses a footer with an encrypted column chunk as BadField.
fn check_unsealed(footer: &FileMeta) -> Result<(), Refusal>
    ensures answer { result ≡ defined.unsealed footer.now }
    ensures quiet { Quiet result }
    ensures causes { IfErr result (λ refusal. refusal.cause ≡ BadField) }
{
    if groups_are_plain(footer.groups.as_slice()) {
        return Ok(());
    }
    Err(refused(Cause::BadField, Detail::Field(StructName::ColumnChunk, 8)))
}

/// Whether no column chunk of the row groups is encrypted.
fn groups_are_plain(groups: &[RowGroupMeta]) -> bool
    ensures { result ≡ defined.are_plain groups.now }
{
    groups.iter().all(|group| are_plain(group))
}

/// Whether no column chunk of the row group is encrypted.
fn are_plain(group: &RowGroupMeta) -> bool
    ensures { result ≡ list_all (λ chunk. defined.is_plain chunk.crypto) group.now.chunks }
{
    group.chunks.as_slice().iter().all(|chunk| is_plain(chunk))
}

fn is_plain(chunk: &ChunkMeta) -> bool
    ensures { result ≡ defined.is_plain chunk.now.crypto }
{
    match &chunk.crypto {
        ChunkCrypto::Plain => true,
        ChunkCrypto::FooterKey => false,
        ChunkCrypto::ColumnKey(_) => false,
    }
}

/// A copy of the bytes of FileCryptoMetaData, which are the first `size` bytes of the area of an encrypted footer.
fn crypto_of(alloc: Global, magic: Magic, size: usize, area: &[u8]) -> Result<Bytes, Refusal>
    requires { size ≤ length area.now }
    ensures answer { Answers result (Ok (defined.crypto_of magic size area.now)) }
    ensures quiet { Quiet result }
    ensures causes { IfErr result (λ refusal. refusal.cause ≡ OutOfMemory) }
{
    match magic {
        Magic::Pare => copy_of(alloc, &area[..size]),
        Magic::Par1 => Ok(Bytes::new(alloc)),
    }
}

fn copy_of(alloc: Global, bytes: &[u8]) -> Result<Bytes, Refusal>
    ensures answer { Answers result (Ok bytes.now) }
    ensures quiet { Quiet result }
    ensures causes { IfErr result (λ refusal. refusal.cause ≡ OutOfMemory) }
{
    match Bytes::copy_of(alloc, bytes) {
        Ok(copy) => Ok(copy),
        Err(_) => Err(plain_refusal(Cause::OutOfMemory)),
    }
}

/// Refuses AES_GCM_CTR_V1 where the reader accepts AES_GCM_V1 alone.
fn check_algorithm(gcm_only: bool, algorithm: &AlgorithmMeta) -> Result<(), Refusal>
    ensures answer { result ≡ defined.check_algorithm gcm_only algorithm.now }
    ensures quiet { Quiet result }
    ensures causes { IfErr result (λ refusal. refusal.cause ≡ AlgorithmRefused) }
{
    if gcm_only && algorithm.ctr {
        return Err(refused(Cause::AlgorithmRefused, Detail::Nothing));
    }
    Ok(())
}

/// Parses the footer at the front of its bytes, and copies the bytes.
fn footer_with_bytes(alloc: Global, plain: &[u8]) -> Result<(FileMeta, Bytes), Refusal>
    ensures answer { IfOk result (λ read. (defined.footer_of plain.now ≡ Ok read.0)
        × (read.1 ≡ plain.now)) }
    ensures refused { IfErr result (λ refusal. is_free refusal.cause ≡ false
        → defined.footer_of plain.now ≡ Err refusal) }
    ensures quiet { Quiet result }
    ensures causes { CausedBy is_file_cause result }
{
    let (footer, _) = read_file_meta(alloc, &Place::footer(), plain)?;
    let bytes = copy_of(alloc, plain)?;
    Ok((footer, bytes))
}
