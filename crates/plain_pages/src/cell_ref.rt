// A borrowed cell of a column or a page.

/// A borrowed cell. INT96, FLOAT, DOUBLE, BYTE_ARRAY and FIXED_LEN_BYTE_ARRAY are the bytes as the file has them.
#[derive(Clone, Copy, Debug, PartialEq, Eq, Drop)]
pub enum CellRef<'a> {
    Null,
    Bool(bool),
    Int32(i32),
    Int64(i64),
    Bytes(&'a [u8]),
}
