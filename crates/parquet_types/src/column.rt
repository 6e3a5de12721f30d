// The columns of a flat schema.
use pme_base::{Bytes, Sequence};

/// The physical type of a column, as `parquet.thrift`'s `Type` names it.
#[derive(Clone, Copy, Debug, PartialEq, Eq, Drop)]
pub enum ColumnKind {
    Boolean,
    Int32,
    Int64,
    Int96,
    Float,
    Double,
    ByteArray,
    /// A byte array of fixed length, in bytes.
    Fixed(u32),
}

/// A column of a flat schema: its name, its physical type, whether its values may be null, and whether they are
/// annotated as UTF-8 text.
#[derive(Debug, Drop)]
pub struct ColumnSpec {
    pub name: Bytes,
    pub kind: ColumnKind,
    pub optional: bool,
    pub text: bool,
}

/// The columns of a file, in order.
pub type FlatSchema = Sequence<ColumnSpec>;
