// Writes ColumnChunk, ColumnMetaData and ColumnCryptoMetaData.
ghost use Rattle.std.specs.Prelude.{◌≡◌, pos, None, length, OnOk, IfOk};
ghost use Rattle.thrift_compact.specs.declared.writer.Part.TheVariants as part;
ghost use Rattle.thrift_compact.specs.Proper.{IsSmall};
ghost use Rattle.thrift_compact.specs.Spelling.{spelling, canonical};
ghost use Rattle.thrift_compact.specs.Tree.{struct as struct_tree, list as list_tree, no_fields};
ghost use Rattle.thrift_compact.specs.Writing.{Follows, Awaits, with_item};
ghost use Rattle.parquet_writing.specs.Fitting.{FitsOptional, FitsCrypto, FitsChunk};
ghost use Rattle.parquet_writing.specs.Plans.{where_some, where_true, kind_number, encodings, path_in_schema, column_meta_data, column_key, column_crypto, column_chunk};
ghost use Rattle.parquet_writing.specs.Putting.{with_value, with_fields, HasDepth, IsUpTo};

use crate::put_fields::put_optional;
use parquet_types::{ChunkCrypto, ColumnKind, WrittenChunk};
use pme_base::{Bytes, OutOfMemory};
use std::alloc::Global;
use thrift_compact::{TKind, Writer};

/// The number of a physical type in `Type` of `parquet.thrift`.
pub fn kind_number(kind: ColumnKind) -> i32
    ensures { result ≡ kind_number kind }
{
    match kind {
        ColumnKind::Boolean => 0,
        ColumnKind::Int32 => 1,
        ColumnKind::Int64 => 2,
        ColumnKind::Int96 => 3,
        ColumnKind::Float => 4,
        ColumnKind::Double => 5,
        ColumnKind::ByteArray => 6,
        ColumnKind::Fixed(_) => 7,
    }
}

/// Writes the field `encodings`: PLAIN (0) for values and RLE (3) for levels.
fn put_encodings(writer: &mut Writer) -> Result<(), OutOfMemory>
    requires { Follows (pos 2) writer.old.inner × HasDepth 1 writer.old }
    ensures { OnOk result (writer.new ≡ with_value (pos 2) (list_tree encodings) writer.old) }
{
    writer.list_field(2, TKind::I32, 2)?;
    writer.item_whole(0)?;
    writer.item_whole(3)
}

/// Writes the path of a column of a flat schema: a list of its single name.
fn put_path(writer: &mut Writer, id: i16, name: &Bytes) -> Result<(), OutOfMemory>
    requires { Follows id writer.old.inner × HasDepth 1 writer.old × IsSmall (length name.now) }
    ensures { OnOk result (writer.new ≡
        with_value id (list_tree (path_in_schema name.now)) writer.old) }
{
    writer.list_field(id, TKind::Binary, 1)?;
    writer.item_binary(name.as_slice())
}

fn put_column_meta(writer: &mut Writer, chunk: &WrittenChunk) -> Result<(), OutOfMemory>
    requires { (writer.old.inner ≡ part.Struct None) × HasDepth 1 writer.old ×
        IsSmall (length chunk.now.spec.name) }
    ensures fields { OnOk result (writer.new ≡
        with_fields (column_meta_data chunk.now) writer.old) }
    ensures last { OnOk result (IsUpTo (pos 9) writer.new.inner) }
    ensures outer { OnOk result (writer.new.outer ≡ writer.old.outer) }
{
    writer.whole(1, TKind::I32, i64::from(kind_number(chunk.spec.kind)))?;
    put_encodings(writer)?;
    put_path(writer, 3, &chunk.spec.name)?;
    writer.whole(4, TKind::I32, 0)?;
    writer.whole(5, TKind::I64, chunk.num_values)?;
    writer.whole(6, TKind::I64, chunk.uncompressed)?;
    writer.whole(7, TKind::I64, chunk.stored)?;
    writer.whole(9, TKind::I64, chunk.start)
}

/// The metadata of a column chunk as a ColumnMetaData in canonical spelling.
#[tactic(auto, using(crate::proofs::PutFields::struct_put))]
pub fn write_column_meta(alloc: Global, chunk: &WrittenChunk) -> Result<Bytes, OutOfMemory>
    requires { FitsChunk chunk.now }
    ensures { IfOk result (λ bytes. bytes ≡ canonical (struct_tree (column_meta_data chunk.now))) }
{
    let mut writer = Writer::new(alloc);
    writer.struct_begin()?;
    put_column_meta(&mut writer, chunk)?;
    writer.struct_end()?;
    Ok(writer.finish())
}

/// Writes the metadata of a column chunk into its ColumnChunk if they are shown in plain.
#[tactic(auto, using(crate::proofs::PutFields::field_put, crate::proofs::PutFields::in_struct_still, crate::proofs::PutFields::follows_later))]
fn put_shown_meta(writer: &mut Writer, chunk: &WrittenChunk) -> Result<(), OutOfMemory>
    requires { Follows (pos 3) writer.old.inner × HasDepth 2 writer.old ×
        IsSmall (length chunk.now.spec.name) }
    ensures fields { OnOk result (writer.new ≡ with_fields (where_true (pos 3)
        (struct_tree (column_meta_data chunk.now)) chunk.now.show_meta no_fields) writer.old) }
    ensures last { OnOk result (IsUpTo (pos 3) writer.new.inner) }
    ensures outer { OnOk result (writer.new.outer ≡ writer.old.outer) }
{
    if !chunk.show_meta {
        return Ok(());
    }
    writer.struct_field(3)?;
    put_column_meta(writer, chunk)?;
    writer.struct_end()
}

/// Writes an EncryptionWithColumnKey: the path of the column, and its key metadata if there is any.
fn put_column_key_fields(
    writer: &mut Writer,
    name: &Bytes,
    metadata: &Option<Bytes>,
) -> Result<(), OutOfMemory>
    requires { (writer.old.inner ≡ part.Struct None) × HasDepth 1 writer.old ×
        IsSmall (length name.now) × FitsOptional metadata.now }
    ensures fields { OnOk result (writer.new ≡
        with_fields (column_key name.now metadata.now) writer.old) }
    ensures last { OnOk result (IsUpTo (pos 2) writer.new.inner) }
    ensures outer { OnOk result (writer.new.outer ≡ writer.old.outer) }
{
    put_path(writer, 1, name)?;
    put_optional(writer, 2, metadata)
}

#[tactic(auto, using(crate::proofs::PutFields::field_put, crate::proofs::PutFields::in_struct_still))]
fn put_column_key(
    writer: &mut Writer,
    name: &Bytes,
    metadata: &Option<Bytes>,
) -> Result<(), OutOfMemory>
    requires { (writer.old.inner ≡ part.Struct None) × HasDepth 2 writer.old ×
        IsSmall (length name.now) × FitsOptional metadata.now }
    ensures { OnOk result (writer.new ≡
        with_value (pos 2) (struct_tree (column_key name.now metadata.now)) writer.old) }
{
    writer.struct_field(2)?;
    put_column_key_fields(writer, name, metadata)?;
    writer.struct_end()
}

fn put_footer_key(writer: &mut Writer) -> Result<(), OutOfMemory>
    requires { (writer.old.inner ≡ part.Struct None) × HasDepth 1 writer.old }
    ensures { OnOk result (writer.new ≡ with_value (pos 1) (struct_tree no_fields) writer.old) }
{
    writer.struct_field(1)?;
    writer.struct_end()
}

/// Writes the ColumnCryptoMetaData of a column chunk if the chunk is encrypted.
#[tactic(auto, using(crate::proofs::PutFields::field_put, crate::proofs::PutFields::in_struct_still, crate::proofs::PutFields::follows_later))]
fn put_crypto(writer: &mut Writer, name: &Bytes, crypto: &ChunkCrypto) -> Result<(), OutOfMemory>
    requires { Follows (pos 8) writer.old.inner × HasDepth 3 writer.old ×
        IsSmall (length name.now) × FitsCrypto crypto.now }
    ensures fields { OnOk result (writer.new ≡ with_fields
        (where_some (pos 8) struct_tree (column_crypto name.now crypto.now) no_fields) writer.old) }
    ensures last { OnOk result (IsUpTo (pos 8) writer.new.inner) }
    ensures outer { OnOk result (writer.new.outer ≡ writer.old.outer) }
{
    match crypto {
        ChunkCrypto::Plain => Ok(()),
        ChunkCrypto::FooterKey => {
            writer.struct_field(8)?;
            put_footer_key(writer)?;
            writer.struct_end()
        }
        ChunkCrypto::ColumnKey(metadata) => {
            writer.struct_field(8)?;
            put_column_key(writer, name, metadata)?;
            writer.struct_end()
        }
    }
}

#[tactic(auto, using(crate::proofs::PutFields::some_first, crate::proofs::PutFields::true_first))]
pub fn put_chunk_fields(writer: &mut Writer, chunk: &WrittenChunk) -> Result<(), OutOfMemory>
    requires { (writer.old.inner ≡ part.Struct None) × HasDepth 3 writer.old × FitsChunk chunk.now }
    ensures fields { OnOk result (writer.new ≡ with_fields (column_chunk chunk.now) writer.old) }
    ensures last { OnOk result (IsUpTo (pos 9) writer.new.inner) }
    ensures outer { OnOk result (writer.new.outer ≡ writer.old.outer) }
{
    writer.whole(2, TKind::I64, chunk.start)?;
    put_shown_meta(writer, chunk)?;
    put_crypto(writer, &chunk.spec.name, &chunk.crypto)?;
    put_optional(writer, 9, &chunk.sealed_meta)
}
