//! A Parquet file's metadata: the structs of `parquet.thrift` as types, read from their bytes with one fixed order of
//! refusals, and written in canonical spelling. The crates of the types, the fields, the rules and the writers are
//! joined here, and here is proved that what is written is read back.
#![tactic(auto)]

mod footer;
mod footer_laws;
mod number_ranges;
mod writing;
mod writing_laws;

pub use footer::read_file_meta;
pub use footer_laws::read_footers_are_shaped;
pub use parquet_fields::{read_column_meta, read_file_crypto, read_page_head, read_signing};
pub use parquet_types::{
    AlgorithmMeta, ChunkCrypto, ChunkList, ChunkMeta, ColumnKind, ColumnMeta, ColumnSpec, DataHead,
    DictionaryHead, FileCrypto, FileMeta, FlatSchema, FooterPlan, GroupList, PageHead, PathList,
    RowGroupMeta, WrittenChunk, WrittenChunks, WrittenGroup, WrittenGroups,
};
pub use writing::{write_column_meta, write_file_crypto, write_file_meta, write_page_head};
pub use writing_laws::{what_is_planned_is_read, what_is_written_is_read};
