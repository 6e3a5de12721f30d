// The writers of the metadata, each with what a reader gets from the bytes. The callers need not show that the
// numbers of a struct fit their fields: the clause `numbers` proves it, since each lies in the range of its type.
ghost use Rattle.std.specs.Prelude.{◌≡◌, length, IfOk};
ghost use Rattle.thrift_compact.specs.Proper.{IsSmall};
ghost use Rattle.thrift_compact.specs.Spelling.{canonical};
ghost use Rattle.thrift_compact.specs.Tree.{struct as struct_tree};
ghost use Rattle.parquet_writing.specs.Fitting.{FitsAlgorithm, FitsChunk, FitsFooter};
ghost use Rattle.parquet_writing.specs.Plans.{page_header, file_crypto_meta_data, column_meta_data, file_meta_data};
ghost use Rattle.parquet_meta.specs.PlanRules.{IsFooterOf};
ghost use Rattle.parquet_meta.specs.ReadBack.{NumbersFit, IsPageHeadOf, IsFileCryptoOf, IsColumnMetaOf};

use crate::number_ranges::{chunk_in_range, head_in_range, plan_in_range};
use parquet_types::{AlgorithmMeta, DataHead, FooterPlan, WrittenChunk};
use pme_base::{Bytes, OutOfMemory};
use std::alloc::Global;

/// The header of a data page as a PageHeader in canonical spelling. It is read back as `head`.
pub fn write_page_head(alloc: Global, head: &DataHead) -> Result<Bytes, OutOfMemory>
    ensures bytes { IfOk result (λ bytes. bytes ≡ canonical (struct_tree (page_header head.now))) }
    ensures read_back { IfOk result (λ bytes. IsPageHeadOf head.now bytes) }
    ensures numbers { NumbersFit (struct_tree (page_header head.now)) }
{
    head_in_range(head);
    parquet_writing::write_page_head(alloc, head)
}

/// A FileCryptoMetaData in canonical spelling: the algorithm that encrypts the file's modules, and the metadata of
/// the footer key. Both are read back.
pub fn write_file_crypto(
    alloc: Global,
    algorithm: &AlgorithmMeta,
    key_metadata: &[u8],
) -> Result<Bytes, OutOfMemory>
    requires { FitsAlgorithm algorithm.now × IsSmall (length key_metadata.now) }
    ensures bytes { IfOk result (λ bytes. bytes ≡
        canonical (struct_tree (file_crypto_meta_data algorithm.now key_metadata.now))) }
    ensures read_back { IfOk result (λ bytes. IsFileCryptoOf algorithm.now key_metadata.now bytes) }
{
    parquet_writing::write_file_crypto(alloc, algorithm, key_metadata)
}

/// The metadata of a column chunk as a ColumnMetaData in canonical spelling. They are read back.
pub fn write_column_meta(alloc: Global, chunk: &WrittenChunk) -> Result<Bytes, OutOfMemory>
    requires { FitsChunk chunk.now }
    ensures bytes { IfOk result
        (λ bytes. bytes ≡ canonical (struct_tree (column_meta_data chunk.now))) }
    ensures read_back { IfOk result (λ bytes. IsColumnMetaOf chunk.now bytes) }
    ensures numbers { NumbersFit (struct_tree (column_meta_data chunk.now)) }
{
    chunk_in_range(chunk);
    parquet_writing::write_column_meta(alloc, chunk)
}

/// A footer as a FileMetaData in canonical spelling. Each row group holds the sums of its column chunks' sizes, the
/// offset of its first chunk, and its position as ordinal. It is read back as the plan if the plan keeps the rules on
/// footers.
pub fn write_file_meta(alloc: Global, plan: &FooterPlan) -> Result<Bytes, OutOfMemory>
    requires { FitsFooter plan.now }
    ensures bytes { IfOk result
        (λ bytes. bytes ≡ canonical (struct_tree (file_meta_data plan.now))) }
    ensures read_back { IfOk result (λ bytes. IsFooterOf plan.now bytes) }
    ensures numbers { NumbersFit (struct_tree (file_meta_data plan.now)) }
{
    plan_in_range(plan);
    parquet_writing::write_file_meta(alloc, plan)
}
