// The column types that a table's header can name.
ghost use Rattle.std.specs.Prelude.{◌≡◌};
ghost use Rattle.table_text.specs.Types as types;

use crate::numbers::plain_read;
use parquet_types::ColumnKind;

/// A column's type: its physical type, whether it may hold nulls, and whether its byte arrays are text.
#[derive(Clone, Copy, Debug, PartialEq, Eq, Drop)]
pub struct ColumnType {
    pub kind: ColumnKind,
    pub optional: bool,
    pub text: bool,
}

/// Parses the name of a type; a trailing `?` makes the column OPTIONAL.
#[tactic(auto, unfolding(crate::specs::Types::type_read))]
pub fn type_read(word: &[u8]) -> Option<ColumnType>
    ensures { result ≡ types.type_read word.now }
{
    match word.last() {
        Some(b'?') => type_named(true, &word[..word.len() - 1]),
        _ => type_named(false, word),
    }
}

/// Parses the name of a type without `?`.
#[tactic(auto, unfolding(crate::specs::Types::type_named))]
fn type_named(optional: bool, word: &[u8]) -> Option<ColumnType>
    ensures { result ≡ types.type_named optional word.now }
{
    if word == b"bool".as_slice() {
        Some(column_type(optional, false, ColumnKind::Boolean))
    } else if word == b"int32".as_slice() {
        Some(column_type(optional, false, ColumnKind::Int32))
    } else if word == b"int64".as_slice() {
        Some(column_type(optional, false, ColumnKind::Int64))
    } else if word == b"int96".as_slice() {
        Some(column_type(optional, false, ColumnKind::Int96))
    } else if word == b"float".as_slice() {
        Some(column_type(optional, false, ColumnKind::Float))
    } else if word == b"double".as_slice() {
        Some(column_type(optional, false, ColumnKind::Double))
    } else if word == b"bytes".as_slice() {
        Some(column_type(optional, false, ColumnKind::ByteArray))
    } else if word == b"text".as_slice() {
        Some(column_type(optional, true, ColumnKind::ByteArray))
    } else {
        let size = fixed_read(word)?;
        Some(column_type(optional, false, ColumnKind::Fixed(size)))
    }
}

fn column_type(optional: bool, text: bool, kind: ColumnKind) -> ColumnType
    ensures { result ≡ types.column_type optional text kind }
{
    ColumnType {
        kind,
        optional,
        text,
    }
}

/// Parses `fixed(SIZE)` and gives the size.
#[tactic(auto, unfolding(crate::specs::Types::fixed_read))]
fn fixed_read(word: &[u8]) -> Option<u32>
    ensures { result ≡ types.fixed_read word.now }
{
    if word.len() < 7 || &word[..6] != b"fixed(".as_slice() || word[word.len() - 1] != b')' {
        return None;
    }
    size_read(&word[6..word.len() - 1])
}

/// Parses a size of 1 to 65,536 in decimal.
#[tactic(auto, unfolding(crate::specs::Types::size_read))]
fn size_read(digits: &[u8]) -> Option<u32>
    ensures { result ≡ types.size_read digits.now }
{
    when_size(plain_read(digits)?)
}

fn when_size(size: u64) -> Option<u32>
    ensures { result ≡ types.when_size size }
{
    if 1 <= size && size <= 65536 {
        Some(size as u32)
    } else {
        None
    }
}
