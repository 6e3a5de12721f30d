// The state of one field of a struct.
ghost use Rattle.std.specs.Prelude.{◌≡◌};
ghost use Rattle.parquet_fields.specs.Fields as defined;
ghost use Rattle.parquet_fields.specs.Reads.{bad_items};

use parquet_types::FieldRefusal;
use pme_base::{Cause, Sequence, StructName};

/// What a struct holds in one of its fields.
#[derive(Debug, Drop)]
pub enum FieldState<T> {
    /// The struct doesn't have the field.
    Absent,
    /// The field holds a value of the wrong type.
    WrongType,
    /// The field holds a struct or a list that is refused.
    Refused(FieldRefusal),
    Value(T),
}

impl<T: Drop> FieldState<T> {
    /// The state of a field whose struct has been judged.
    pub(crate) fn of(checked: Result<T, FieldRefusal>) -> FieldState<T>
        ensures { result ≡ defined.of_checked checked }
    {
        match checked {
            Ok(value) => FieldState::Value(value),
            Err(refused) => FieldState::Refused(refused),
        }
    }

    /// The state of a list whose first bad item has this state.
    pub(crate) fn as_items(self) -> FieldState<Sequence<T>>
        ensures { result ≡ bad_items self }
    {
        match self {
            FieldState::Refused(refused) => FieldState::Refused(refused),
            _ => FieldState::WrongType,
        }
    }

    /// The value of an optional field. `name` and `field` say where a BadField is reported.
    pub fn optional(self, name: StructName, field: i16) -> Result<Option<T>, FieldRefusal>
        ensures { result ≡ defined.optional name field self }
    {
        match self {
            FieldState::Absent => Ok(None),
            FieldState::WrongType => Err(FieldRefusal {
                cause: Cause::BadField,
                name,
                field,
            }),
            FieldState::Refused(refused) => Err(refused),
            FieldState::Value(value) => Ok(Some(value)),
        }
    }

    /// The value of a required field. `name` and `field` say where a MissingField or BadField is reported.
    pub fn needed(self, name: StructName, field: i16) -> Result<T, FieldRefusal>
        ensures { result ≡ defined.needed name field self }
    {
        match self {
            FieldState::Absent => Err(FieldRefusal {
                cause: Cause::MissingField,
                name,
                field,
            }),
            FieldState::WrongType => Err(FieldRefusal {
                cause: Cause::BadField,
                name,
                field,
            }),
            FieldState::Refused(refused) => Err(refused),
            FieldState::Value(value) => Ok(value),
        }
    }
}
