// Reads a footer: its fields, and then the rules on their values.
ghost use Rattle.parquet_meta.specs.Footer.{file_meta_at, is_file_cause};
ghost use Rattle.pme_base.specs.Causes.{CausedBy};
ghost use Rattle.pme_base.specs.Steps.{Answers, Quiet};

use footer_rules::file_of;
use parquet_fields::read_raw_file_meta;
use parquet_types::FileMeta;
use pme_base::{Place, Refusal};
use std::alloc::Global;

/// Reads the footer at the start of `bytes` and gives its size in bytes. Refusals are those of the fields and then
/// those of the rules on their values, at `place`; OutOfMemory has no place.
pub fn read_file_meta(
    alloc: Global,
    place: &Place,
    bytes: &[u8],
) -> Result<(FileMeta, usize), Refusal>
    ensures answer { Answers result (file_meta_at place.now bytes.now) }
    ensures quiet { Quiet result }
    ensures causes { CausedBy is_file_cause result }
{
    let (fields, size) = read_raw_file_meta(alloc, place, bytes)?;
    let file = file_of(alloc, *place, fields)?;
    Ok((file, size))
}
