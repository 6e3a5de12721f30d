// The numbers of a plan lie in the ranges of their types. Contracts see numbers without a range, so these functions,
// which read each number of a plan, prove it for the whole plan.
ghost use Rattle.parquet_meta.specs.Ranges.{HeadInRange, ChunkInRange, GroupInRange, PlanInRange};

use parquet_types::{DataHead, FooterPlan, WrittenChunk, WrittenGroup};

/// Proves that the numbers of a page header are in range.
pub fn head_in_range(head: &DataHead)
    ensures { HeadInRange head.now }
{
    let _uncompressed = head.uncompressed;
    let _compressed = head.compressed;
    let _num_values = head.num_values;
    let _encoding = head.encoding;
    let _level_encoding = head.level_encoding;
}

/// Proves that the numbers of a column chunk are in range.
pub fn chunk_in_range(chunk: &WrittenChunk)
    ensures { ChunkInRange chunk.now }
{
    let _num_values = chunk.num_values;
    let _uncompressed = chunk.uncompressed;
    let _stored = chunk.stored;
    let _start = chunk.start;
}

fn group_in_range(group: &WrittenGroup)
    ensures { GroupInRange group.now }
{
    let _num_rows = group.num_rows;
    let items = group.chunks.as_slice();
    for chunk in items {
        chunk_in_range(chunk);
    }
}

/// Proves that the numbers of a plan are in range.
pub fn plan_in_range(plan: &FooterPlan)
    ensures { PlanInRange plan.now }
{
    let _num_rows = plan.num_rows;
    let items = plan.groups.as_slice();
    for group in items {
        group_in_range(group);
    }
}
