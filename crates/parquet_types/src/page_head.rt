// Page headers.

/// The header of a data page. Sizes are in bytes; encodings are the numbers of `Encoding` in `parquet.thrift`.
#[derive(Clone, Copy, Debug, PartialEq, Eq, Drop)]
pub struct DataHead {
    pub uncompressed: i32,
    pub compressed: i32,
    pub num_values: i32,
    pub encoding: i32,
    pub level_encoding: i32,
}

/// The header of a dictionary page, with sizes and encoding as in `DataHead`.
#[derive(Clone, Copy, Debug, PartialEq, Eq, Drop)]
pub struct DictionaryHead {
    pub uncompressed: i32,
    pub compressed: i32,
    pub num_values: i32,
    pub encoding: i32,
}

/// The header of a page.
#[derive(Clone, Copy, Debug, PartialEq, Eq, Drop)]
pub enum PageHead {
    Data(DataHead),
    Dictionary(DictionaryHead),
}
