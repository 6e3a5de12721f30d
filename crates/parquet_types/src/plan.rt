// The plan of a footer that is to be written.
use crate::column::{ColumnSpec, FlatSchema};
use crate::file_meta::{AlgorithmMeta, ChunkCrypto};
use pme_base::{Bytes, Sequence};

/// A column chunk as it was written. `uncompressed` is the size of its page headers and bodies before encryption,
/// `stored` its size in the file, and `start` its offset there, all in bytes. `sealed_meta` is its encrypted
/// ColumnMetaData module, and `show_meta` says whether its metadata also stand in plain in the footer.
#[derive(Debug, Drop)]
pub struct WrittenChunk {
    pub spec: ColumnSpec,
    pub num_values: i64,
    pub uncompressed: i64,
    pub stored: i64,
    pub start: i64,
    pub crypto: ChunkCrypto,
    pub sealed_meta: Option<Bytes>,
    pub show_meta: bool,
}

/// The column chunks of a row group, in the order of the columns.
pub type WrittenChunks = Sequence<WrittenChunk>;

/// A row group as it was written.
#[derive(Debug, Drop)]
pub struct WrittenGroup {
    pub chunks: WrittenChunks,
    pub num_rows: i64,
}

/// The row groups of a file, in order.
pub type WrittenGroups = Sequence<WrittenGroup>;

/// What the footer of a written file holds. `algorithm` and `signing_key_metadata` are set if the footer is signed.
#[derive(Debug, Drop)]
pub struct FooterPlan {
    pub schema: FlatSchema,
    pub num_rows: i64,
    pub groups: WrittenGroups,
    pub algorithm: Option<AlgorithmMeta>,
    pub signing_key_metadata: Option<Bytes>,
}
