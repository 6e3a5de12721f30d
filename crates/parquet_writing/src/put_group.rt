// Writes RowGroups.
ghost use Rattle.std.specs.Prelude.{◌≡◌, ◌<◌, ◌≤◌, ◌+◌, ◌+ℤ◌, ℕ, pos, None, length, map, FitsSigned, OnOk};
ghost use Rattle.std.specs.Int.{w64};
ghost use Rattle.std.specs.List.{All};
ghost use Rattle.thrift_compact.specs.declared.kind.TKind.TheVariants as kind;
ghost use Rattle.thrift_compact.specs.declared.writer.Part.TheVariants as part;
ghost use Rattle.thrift_compact.specs.Proper.{IsSmall};
ghost use Rattle.thrift_compact.specs.Spelling.{spelling};
ghost use Rattle.thrift_compact.specs.Tree.{struct as struct_tree, list as list_tree};
ghost use Rattle.thrift_compact.specs.Writing.{Follows, Awaits, with_item};
ghost use Rattle.parquet_writing.specs.Fitting.{FitsChunk, FitsGroup};
ghost use Rattle.parquet_writing.specs.Plans.{structs, column_chunk, row_group, row_groups, total_uncompressed, total_stored, first_start};
ghost use Rattle.parquet_writing.specs.Putting.{with_value, with_fields, HasDepth, IsUpTo, IsWithin};

use crate::put_column::put_chunk_fields;
use parquet_types::{WrittenChunk, WrittenChunks, WrittenGroup, WrittenGroups};
use pme_base::OutOfMemory;
use thrift_compact::{TKind, Writer};

#[tactic(auto, using(crate::proofs::PutLists::item_put, crate::proofs::PutLists::around_length, crate::proofs::PutFields::in_struct_still))]
fn put_chunk(writer: &mut Writer, chunk: &WrittenChunk) -> Result<(), OutOfMemory>
    requires { Awaits kind.Struct writer.old.inner × HasDepth 4 writer.old × FitsChunk chunk.now }
    ensures { OnOk result (writer.new ≡
        with_item (spelling (struct_tree (column_chunk chunk.now))) writer.old) }
{
    writer.struct_begin()?;
    put_chunk_fields(writer, chunk)?;
    writer.struct_end()
}

fn put_chunks(writer: &mut Writer, chunks: &WrittenChunks) -> Result<(), OutOfMemory>
    requires { Follows (pos 1) writer.old.inner × HasDepth 5 writer.old ×
        IsSmall (length chunks.now) × All FitsChunk chunks.now }
    ensures { OnOk result (writer.new ≡
        with_value (pos 1) (list_tree (structs (map column_chunk chunks.now))) writer.old) }
{
    let items = chunks.as_slice();
    writer.list_field(1, TKind::Struct, items.len() as u32)?;
    for chunk in items {
        put_chunk(writer, chunk)?;
    }
    Ok(())
}

/// The size of a row group in bytes, before encryption and in the file.
#[derive(Clone, Copy, Drop)]
struct GroupSize {
    uncompressed: i64,
    stored: i64,
}

/// A sum of chunk sizes. Partial sums may exceed the range of i64, even where the whole sum does not.
#[derive(Clone, Copy, Drop)]
struct WideSize {
    uncompressed: i128,
    stored: i128,
}

fn add_size(sum: i128, size: i64) -> i128
    requires { IsWithin 2147483648 sum }
    ensures sum { result ≡ sum +ℤ size }
    ensures within { (n : ℕ) → IsWithin n sum → IsWithin (n + 1) result }
{
    sum + i128::from(size)
}

impl WideSize {
    fn with(self, chunk: &WrittenChunk) -> WideSize
        requires { IsWithin 2147483648 self.uncompressed × IsWithin 2147483648 self.stored }
        ensures uncompressed { result.uncompressed ≡ self.uncompressed +ℤ chunk.now.uncompressed }
        ensures stored { result.stored ≡ self.stored +ℤ chunk.now.stored }
        ensures within_uncompressed { (n : ℕ) → IsWithin n self.uncompressed →
            IsWithin (n + 1) result.uncompressed }
        ensures within_stored { (n : ℕ) → IsWithin n self.stored → IsWithin (n + 1) result.stored }
    {
        WideSize {
            uncompressed: add_size(self.uncompressed, chunk.uncompressed),
            stored: add_size(self.stored, chunk.stored),
        }
    }

    fn narrow(self) -> GroupSize
        requires { FitsSigned w64 self.uncompressed × FitsSigned w64 self.stored }
        ensures uncompressed { result.uncompressed ≡ self.uncompressed }
        ensures stored { result.stored ≡ self.stored }
    {
        GroupSize {
            uncompressed: self.uncompressed as i64,
            stored: self.stored as i64,
        }
    }
}

fn size_of(chunks: &WrittenChunks) -> GroupSize
    requires { IsSmall (length chunks.now) × FitsSigned w64 (total_uncompressed chunks.now) ×
        FitsSigned w64 (total_stored chunks.now) }
    ensures uncompressed { result.uncompressed ≡ total_uncompressed chunks.now }
    ensures stored { result.stored ≡ total_stored chunks.now }
{
    let items = chunks.as_slice();
    let mut size = WideSize {
        uncompressed: 0,
        stored: 0,
    };
    for chunk in items {
        size = size.with(chunk);
    }
    size.narrow()
}

fn first_start(chunks: &WrittenChunks) -> i64
    ensures { result ≡ first_start chunks.now }
{
    match chunks.as_slice().first() {
        None => 0,
        Some(chunk) => chunk.start,
    }
}

fn put_group_fields(
    writer: &mut Writer,
    position: u16,
    group: &WrittenGroup,
) -> Result<(), OutOfMemory>
    requires { (writer.old.inner ≡ part.Struct None) × HasDepth 5 writer.old × FitsGroup group.now ×
        (position < 32768) }
    ensures fields { OnOk result (writer.new ≡
        with_fields (row_group position group.now) writer.old) }
    ensures last { OnOk result (IsUpTo (pos 7) writer.new.inner) }
    ensures outer { OnOk result (writer.new.outer ≡ writer.old.outer) }
{
    let size = size_of(&group.chunks);
    put_chunks(writer, &group.chunks)?;
    writer.whole(2, TKind::I64, size.uncompressed)?;
    writer.whole(3, TKind::I64, group.num_rows)?;
    writer.whole(5, TKind::I64, first_start(&group.chunks))?;
    writer.whole(6, TKind::I64, size.stored)?;
    writer.whole(7, TKind::I16, i64::from(position))
}

#[tactic(auto, using(crate::proofs::PutLists::item_put, crate::proofs::PutLists::around_length, crate::proofs::PutFields::in_struct_still))]
fn put_group(writer: &mut Writer, position: u16, group: &WrittenGroup) -> Result<(), OutOfMemory>
    requires { Awaits kind.Struct writer.old.inner × HasDepth 6 writer.old × FitsGroup group.now ×
        (position < 32768) }
    ensures { OnOk result (writer.new ≡
        with_item (spelling (struct_tree (row_group position group.now))) writer.old) }
{
    writer.struct_begin()?;
    put_group_fields(writer, position, group)?;
    writer.struct_end()
}

/// Writes the row groups of a file, each with its position as ordinal.
pub fn put_groups(writer: &mut Writer, groups: &WrittenGroups) -> Result<(), OutOfMemory>
    requires { Follows (pos 4) writer.old.inner × HasDepth 7 writer.old ×
        (length groups.now ≤ 32768) × All FitsGroup groups.now }
    ensures { OnOk result (writer.new ≡
        with_value (pos 4) (list_tree (structs (row_groups 0 groups.now))) writer.old) }
{
    let items = groups.as_slice();
    writer.list_field(4, TKind::Struct, items.len() as u32)?;
    for position in 0..items.len() {
        put_group(writer, position as u16, &items[position])?;
    }
    Ok(())
}
