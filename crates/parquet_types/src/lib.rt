//! The types of a Parquet file's metadata: columns, keys, row groups and page headers as a reader gets them, the raw
//! structs of a footer before the rules on their values, the plan of a footer to be written, and the refusal of a
//! field.
#![tactic(auto)]

mod column;
mod field_refusals;
mod file_meta;
mod page_head;
mod plan;
mod raw_footer;

pub use column::{ColumnKind, ColumnSpec, FlatSchema};
pub use field_refusals::{FieldRefusal, field_refusal};
pub use file_meta::{
    AlgorithmMeta, ChunkCrypto, ChunkList, ChunkMeta, ColumnMeta, FileCrypto, FileMeta, GroupList,
    PathList, RowGroupMeta,
};
pub use page_head::{DataHead, DictionaryHead, PageHead};
pub use plan::{FooterPlan, WrittenChunk, WrittenChunks, WrittenGroup, WrittenGroups};
pub use raw_footer::{ColumnChunk, ColumnCrypto, RawFileMeta, RowGroup, SchemaElement};
