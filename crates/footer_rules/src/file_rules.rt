// The rules on a footer, in their order. The values of its fields are moved into the result, not copied.
ghost use Rattle.std.specs.Prelude.{◌≡◌};
ghost use Rattle.pme_base.specs.Causes.{CausedBy};
ghost use Rattle.pme_base.specs.Steps.{Answers, Quiet};
ghost use Rattle.footer_rules.specs.FileRules as rules;

use crate::column_rules::schema_of;
use crate::group_rules::{all_rows, check_rows, groups_of};
use crate::value_rules::{check_count, check_not_negative};
use parquet_types::{FileMeta, RawFileMeta};
use pme_base::{Place, Refusal, StructName};
use std::alloc::Global;

/// Applies the rules on a footer in their order and gives the footer that passes, or the first refusal, at `place`:
/// MissingField, BadField, Unsupported, Mismatch, TooLarge, or OutOfMemory, which has no place.
pub fn file_of(alloc: Global, place: Place, fields: RawFileMeta) -> Result<FileMeta, Refusal>
    ensures answer { Answers result (rules.file_of place fields) }
    ensures quiet { Quiet result }
    ensures causes { CausedBy rules.is_rule_cause result }
{
    let RawFileMeta {
        schema,
        num_rows,
        groups,
        algorithm,
        signing_key_metadata,
    } = fields;
    let columns = schema_of(alloc, place, schema)?;
    check_not_negative(place, StructName::FileMetaData, 3, num_rows)?;
    check_count(place, groups.as_slice().len())?;
    let groups = groups_of(alloc, place, columns.as_slice(), groups.into_items())?;
    check_rows(place, all_rows(groups.as_slice()), num_rows)?;
    Ok(FileMeta {
        schema: columns,
        num_rows,
        groups,
        algorithm,
        signing_key_metadata,
    })
}
