// The structs and lists that a typed reader has open, and the head of a field.
use crate::ids::Ids;
use crate::kind::TKind;

/// A part that a typed reader has open: a struct, with the ids of the fields read so far, or a list or set. Outside means
/// that no part is open.
#[derive(Drop)]
pub(crate) enum Frame {
    Outside,
    Struct(Ids),
    List,
}

/// The head of a field: its id and the kind of its value.
#[derive(Clone, Copy, Debug, PartialEq, Eq, Drop)]
pub struct FieldHead {
    pub id: i16,
    pub kind: TKind,
}
