// The refusal of a field of a struct.
ghost use Rattle.std.specs.Prelude.{◌≡◌};
ghost use Rattle.parquet_types.specs.FieldRefusals as defined;

use pme_base::{Cause, Detail, Place, Refusal, StructName, refusal_at};

/// Why a field of a struct is refused: the cause (missing, bad or unsupported), the struct, and the field id.
#[derive(Clone, Copy, Debug, PartialEq, Eq, Drop)]
pub struct FieldRefusal {
    pub cause: Cause,
    pub name: StructName,
    pub field: i16,
}

/// The refusal of a field of the metadata at `place`.
pub fn field_refusal(place: Place, refused: FieldRefusal) -> Refusal
    ensures { result ≡ defined.field_refusal place refused }
{
    let detail = Detail::Field(refused.name, refused.field);
    refusal_at(refused.cause, place, 0, detail)
}
