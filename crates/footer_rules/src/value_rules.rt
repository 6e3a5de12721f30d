// Rules that several parts of a footer share.
ghost use Rattle.std.specs.Prelude.{◌≡◌, ◌≤◌, ◌≤ℤ◌, pos, OnOk};
ghost use Rattle.pme_base.specs.Causes.{CausedBy};
ghost use Rattle.pme_base.specs.Steps.{Quiet};
ghost use Rattle.parquet_types.specs.FieldRefusals as fields;
ghost use Rattle.footer_rules.specs.FileRules as rules;

use parquet_types::{FieldRefusal, field_refusal};
use pme_base::{COLUMN_LIMIT, Cause, Detail, Place, Refusal, StructName, refusal_at};

/// The refusal of the field of a struct, at `place`.
pub fn bad_value(place: Place, cause: Cause, name: StructName, field: i16) -> Refusal
    ensures { result ≡ fields.field_refusal place (fields.refused cause name field) }
{
    field_refusal(place, FieldRefusal { cause, name, field })
}

/// Refuses two numbers that differ, as a Mismatch.
pub fn check_equal(place: Place, found: i64, wanted: i64) -> Result<(), Refusal>
    ensures answer { result ≡ rules.check_equal place found wanted }
    ensures quiet { Quiet result }
    ensures causes { CausedBy rules.is_rule_cause result }
{
    if found == wanted {
        return Ok(());
    }
    let detail = Detail::Signed(found, wanted);
    Err(refusal_at(Cause::Mismatch, place, 0, detail))
}

/// Refuses more than 32,768 columns or row groups, as TooLarge.
pub fn check_count(place: Place, count: usize) -> Result<(), Refusal>
    ensures answer { result ≡ rules.check_count place count }
    ensures within { OnOk result (count ≤ COLUMN_LIMIT) }
    ensures quiet { Quiet result }
    ensures causes { CausedBy rules.is_rule_cause result }
{
    let count = count as u64;
    if count > COLUMN_LIMIT as u64 {
        let detail = Detail::Pair(count, COLUMN_LIMIT as u64);
        return Err(refusal_at(Cause::TooLarge, place, 0, detail));
    }
    Ok(())
}

/// Refuses a negative count, as BadField.
pub fn check_not_negative(
    place: Place,
    name: StructName,
    field: i16,
    count: i64,
) -> Result<(), Refusal>
    ensures answer { result ≡ rules.check_not_negative place name field count }
    ensures least { OnOk result (pos 0 ≤ℤ count) }
    ensures quiet { Quiet result }
    ensures causes { CausedBy rules.is_rule_cause result }
{
    if count < 0 {
        return Err(bad_value(place, Cause::BadField, name, field));
    }
    Ok(())
}
