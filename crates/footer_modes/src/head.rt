// The front of the footer area: how the footer is encrypted or signed, or that it is unencrypted.
ghost use Rattle.std.specs.Prelude.{◌≡◌, ◌+◌, ◌<◌, ◌^◌, false, length, IfOk};
ghost use Rattle.pme_base.specs.Causes.{CausedBy};
ghost use Rattle.pme_base.specs.Refusals.{refusal_at};
ghost use Rattle.pme_base.specs.Steps.{Answers, Quiet};
ghost use Rattle.footer_modes.specs.Causes.{is_head_cause};
ghost use Rattle.footer_modes.specs.Ends.{footer_place};
ghost use Rattle.footer_modes.specs.TailOf as defined;
ghost use Rattle.footer_modes.specs.declared.mode.Magic.TheVariants as magic_is;

use crate::mode::Magic;
use parquet_meta::{AlgorithmMeta, FileCrypto, read_file_crypto, read_signing};
use pme_base::{Bytes, Cause, Detail, Place, Refusal, refusal_at};
use std::alloc::Global;

/// Bytes of a signature: a nonce of 12 and a tag of 16.
const SIGNATURE: usize = 28;

/// How a footer is encrypted or signed.
#[derive(Debug, Drop)]
pub(crate) struct Head {
    pub algorithm: AlgorithmMeta,
    /// The metadata of the footer key.
    pub metadata: Option<Bytes>,
    /// The number of bytes in the footer area before the module, or before the signature.
    pub size: usize,
}

/// The front of a footer area, parsed.
#[derive(Debug, Drop)]
pub(crate) enum AreaHead {
    /// An encrypted or signed footer.
    Protected(Head),
    /// An unencrypted footer of this number of bytes.
    Bare(usize),
}

/// A refusal of the footer as a whole.
pub(crate) fn refused(cause: Cause, detail: Detail) -> Refusal
    ensures { result ≡ refusal_at cause footer_place 0 «detail» }
{
    refusal_at(cause, Place::footer(), 0, detail)
}

/// Reads the front of a footer area, which stands at the offset `data_end` of its file. A footer in plain that names no
/// algorithm is NotEncrypted, unless `allow_plain` is set.
pub(crate) fn head_of(
    alloc: Global,
    allow_plain: bool,
    magic: Magic,
    data_end: u64,
    area: &[u8],
) -> Result<AreaHead, Refusal>
    requires { data_end + length area.now < 2 ^ 64 }
    ensures answer { Answers result (defined.head_of allow_plain magic data_end area.now) }
    ensures within { IfOk result (defined.HeadFits magic (length area.now)) }
    ensures quiet { Quiet result }
    ensures causes { CausedBy is_head_cause result }
{
    match magic {
        Magic::Pare => sealed_head(alloc, area),
        Magic::Par1 => plain_head(alloc, allow_plain, data_end, area),
    }
}

/// Parses the FileCryptoMetaData in front of an encrypted footer.
fn sealed_head(alloc: Global, area: &[u8]) -> Result<AreaHead, Refusal>
    ensures answer { Answers result (defined.head_of false magic_is.Pare 0 area.now) }
    ensures within { IfOk result (defined.HeadFits magic_is.Pare (length area.now)) }
    ensures quiet { Quiet result }
    ensures causes { CausedBy is_head_cause result }
{
    let (crypto, size) = read_file_crypto(alloc, area)?;
    let FileCrypto {
        algorithm,
        key_metadata,
    } = crypto;
    Ok(AreaHead::Protected(Head {
        algorithm,
        metadata: key_metadata,
        size,
    }))
}

/// Parses a plaintext footer. If it is signed, a nonce and a tag fill the rest of the area.
fn plain_head(
    alloc: Global,
    allow_plain: bool,
    data_end: u64,
    area: &[u8],
) -> Result<AreaHead, Refusal>
    requires { data_end + length area.now < 2 ^ 64 }
    ensures answer { Answers result (defined.head_of allow_plain magic_is.Par1 data_end area.now) }
    ensures within { IfOk result (defined.HeadFits magic_is.Par1 (length area.now)) }
    ensures quiet { Quiet result }
    ensures causes { CausedBy is_head_cause result }
{
    let (algorithm, metadata, size) = read_signing(alloc, area)?;
    let Some(algorithm) = algorithm else {
        if allow_plain {
            return Ok(AreaHead::Bare(size));
        }
        return Err(refused(Cause::NotEncrypted, Detail::Nothing));
    };
    let whole = size + SIGNATURE;
    if area.len() != whole {
        let at = data_end + area.len() as u64;
        let detail = Detail::Pair(area.len() as u64, whole as u64);
        return Err(refusal_at(Cause::BadFooterLength, Place::footer(), at, detail));
    }
    Ok(AreaHead::Protected(Head {
        algorithm,
        metadata,
        size,
    }))
}
