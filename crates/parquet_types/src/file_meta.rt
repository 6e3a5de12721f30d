// A footer as a reader gets it, after the rules on its values.
use crate::column::FlatSchema;
use pme_base::{Bytes, Sequence};

/// The names of a column's path, outermost first.
pub type PathList = Sequence<Bytes>;

/// The algorithm that encrypts a file's modules: AES_GCM_CTR_V1 if `ctr`, else AES_GCM_V1. `prefix` is the AAD prefix
/// if the file stores it, `unique` the file's own part of the AAD, and `supply` says that the reader must supply the
/// prefix.
#[derive(Debug, Drop)]
pub struct AlgorithmMeta {
    pub ctr: bool,
    pub prefix: Option<Bytes>,
    pub unique: Bytes,
    pub supply: bool,
}

/// FileCryptoMetaData, which precedes an encrypted footer.
#[derive(Debug, Drop)]
pub struct FileCrypto {
    pub algorithm: AlgorithmMeta,
    pub key_metadata: Option<Bytes>,
}

/// The key of a column chunk: none, the footer key, or a column key with its key metadata.
#[derive(Debug, Drop)]
pub enum ChunkCrypto {
    Plain,
    FooterKey,
    ColumnKey(Option<Bytes>),
}

/// The metadata of a column chunk. Offsets are in bytes from the start of the file; `num_values` counts nulls too.
#[derive(Debug, Drop)]
pub struct ColumnMeta {
    pub kind: i32,
    pub path: PathList,
    pub codec: i32,
    pub num_values: i64,
    pub data_page_offset: i64,
    pub dictionary_page_offset: Option<i64>,
}

/// A column chunk: its key, its metadata if they stand in plain in the footer, and its encrypted ColumnMetaData
/// module if there is one.
#[derive(Debug, Drop)]
pub struct ChunkMeta {
    pub crypto: ChunkCrypto,
    pub plain_meta: Option<ColumnMeta>,
    pub sealed_meta: Option<Bytes>,
}

/// The column chunks of a row group, in the order of the columns.
pub type ChunkList = Sequence<ChunkMeta>;

/// A row group that has passed the rules on footers.
#[derive(Debug, Drop)]
pub struct RowGroupMeta {
    pub chunks: ChunkList,
    pub num_rows: i64,
    pub ordinal: Option<i16>,
}

/// The row groups of a file, in order.
pub type GroupList = Sequence<RowGroupMeta>;

/// A footer that has passed the rules on footers.
#[derive(Debug, Drop)]
pub struct FileMeta {
    pub schema: FlatSchema,
    pub num_rows: i64,
    pub groups: GroupList,
    pub algorithm: Option<AlgorithmMeta>,
    pub signing_key_metadata: Option<Bytes>,
}
