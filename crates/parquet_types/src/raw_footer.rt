// The structs of a footer with their fields as read, before the rules on the values.
use crate::file_meta::{AlgorithmMeta, ColumnMeta, PathList};
use pme_base::{Bytes, Sequence};

/// A SchemaElement of `parquet.thrift`.
#[derive(Debug, Drop)]
pub struct SchemaElement {
    pub kind: Option<i32>,
    pub type_length: Option<i32>,
    pub repetition: Option<i32>,
    pub name: Bytes,
    pub num_children: Option<i32>,
    pub converted: Option<i32>,
}

/// The union ColumnCryptoMetaData of `parquet.thrift`.
#[derive(Debug, Drop)]
pub enum ColumnCrypto {
    FooterKey,
    ColumnKey {
        path: PathList,
        key_metadata: Option<Bytes>,
    },
}

/// A ColumnChunk of `parquet.thrift`.
#[derive(Debug, Drop)]
pub struct ColumnChunk {
    pub file_path: Option<Bytes>,
    pub plain_meta: Option<ColumnMeta>,
    pub crypto: Option<ColumnCrypto>,
    pub sealed_meta: Option<Bytes>,
}

/// A RowGroup of `parquet.thrift`.
#[derive(Debug, Drop)]
pub struct RowGroup {
    pub chunks: Sequence<ColumnChunk>,
    pub num_rows: i64,
    pub ordinal: Option<i16>,
}

/// A FileMetaData of `parquet.thrift`, the struct of a footer.
#[derive(Debug, Drop)]
pub struct RawFileMeta {
    pub schema: Sequence<SchemaElement>,
    pub num_rows: i64,
    pub groups: Sequence<RowGroup>,
    pub algorithm: Option<AlgorithmMeta>,
    pub signing_key_metadata: Option<Bytes>,
}
