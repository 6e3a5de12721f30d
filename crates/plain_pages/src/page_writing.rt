// The body of a PLAIN data page from definition levels and stored values.
ghost use Rattle.std.specs.Prelude.{◌≡◌, ◌≤◌, ◌++◌, length, take, OnOk, OnErr};
ghost use Rattle.plain_pages.specs.Columns as columns;

use crate::table_column::put_bytes;
use hybrid_runs::{run_length, write_bits, write_run};
use parquet_types::{ColumnKind, ColumnSpec};
use pme_base::OutOfMemory;

/// Appends a page body with these definition levels and stored values to `bytes`. An error may leave part of the page
/// after the previous bytes.
#[tactic(auto, unfolding(crate::specs::Columns::page_of))]
pub fn append_page(
    spec: &ColumnSpec,
    levels: &[u8],
    values: &[u8],
    bytes: &mut Vec<u8>,
) -> Result<(), OutOfMemory>
    requires { length levels.now ≤ 16777216 }
    ensures appended { OnOk result (bytes.new.items ≡ bytes.old.items ++
        columns.page_of spec.now levels.now values.now) }
    ensures kept { OnErr result (take (length bytes.old.items) bytes.new.items ≡ bytes.old.items) }
{
    if spec.optional {
        append_levels(levels, bytes)?;
    }
    append_values(spec.kind, values, bytes)
}

/// Appends definition levels as one bit-packed run, preceded by its length in four bytes.
fn append_levels(levels: &[u8], bytes: &mut Vec<u8>) -> Result<(), OutOfMemory>
    requires { length levels.now ≤ 16777216 }
    ensures appended { OnOk result (bytes.new.items ≡ bytes.old.items ++
        columns.levels_text levels.now) }
    ensures kept { OnErr result (take (length bytes.old.items) bytes.new.items ≡ bytes.old.items) }
{
    put_bytes(&run_length(levels.len()).to_le_bytes(), bytes)?;
    write_run(levels, bytes)
}

/// Appends stored values in the PLAIN encoding: only booleans are packed into bits.
fn append_values(kind: ColumnKind, values: &[u8], bytes: &mut Vec<u8>) -> Result<(), OutOfMemory>
    ensures appended { OnOk result (bytes.new.items ≡ bytes.old.items ++
        columns.plain_text kind values.now) }
    ensures kept { OnErr result (take (length bytes.old.items) bytes.new.items ≡ bytes.old.items) }
{
    match kind {
        ColumnKind::Boolean => write_bits(values, bytes),
        _ => put_bytes(values, bytes),
    }
}
