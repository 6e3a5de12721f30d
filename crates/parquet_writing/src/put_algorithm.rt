// Writes EncryptionAlgorithm and FileCryptoMetaData.
ghost use Rattle.std.specs.Prelude.{◌≡◌, pos, None, length, OnOk, IfOk};
ghost use Rattle.thrift_compact.specs.declared.writer.Part.TheVariants as part;
ghost use Rattle.thrift_compact.specs.Proper.{IsSmall};
ghost use Rattle.thrift_compact.specs.Spelling.{canonical};
ghost use Rattle.thrift_compact.specs.Tree.{struct as struct_tree};
ghost use Rattle.thrift_compact.specs.Writing.{Follows};
ghost use Rattle.parquet_writing.specs.Fitting.{FitsAlgorithm};
ghost use Rattle.parquet_writing.specs.Plans.{aes_gcm, encryption_algorithm, file_crypto_meta_data};
ghost use Rattle.parquet_writing.specs.Putting.{with_value, with_fields, HasDepth, IsUpTo};

use crate::put_fields::{put_flag, put_optional};
use parquet_types::AlgorithmMeta;
use pme_base::{Bytes, OutOfMemory};
use std::alloc::Global;
use thrift_compact::Writer;

#[tactic(auto, using(crate::proofs::PutFields::some_first))]
fn put_aes_gcm_fields(writer: &mut Writer, algorithm: &AlgorithmMeta) -> Result<(), OutOfMemory>
    requires { (writer.old.inner ≡ part.Struct None) × FitsAlgorithm algorithm.now }
    ensures fields { OnOk result (writer.new ≡ with_fields (aes_gcm algorithm.now) writer.old) }
    ensures last { OnOk result (IsUpTo (pos 3) writer.new.inner) }
    ensures outer { OnOk result (writer.new.outer ≡ writer.old.outer) }
{
    put_optional(writer, 1, &algorithm.prefix)?;
    writer.binary(2, algorithm.unique.as_slice())?;
    put_flag(writer, 3, algorithm.supply)
}

#[tactic(auto, using(crate::proofs::PutFields::field_put, crate::proofs::PutFields::in_struct_still))]
fn put_algorithm_fields(writer: &mut Writer, algorithm: &AlgorithmMeta) -> Result<(), OutOfMemory>
    requires { (writer.old.inner ≡ part.Struct None) × HasDepth 1 writer.old ×
        FitsAlgorithm algorithm.now }
    ensures fields { OnOk result (writer.new ≡
        with_fields (encryption_algorithm algorithm.now) writer.old) }
    ensures last { OnOk result (IsUpTo (pos 2) writer.new.inner) }
{
    let id = if algorithm.ctr { 2 } else { 1 };
    writer.struct_field(id)?;
    put_aes_gcm_fields(writer, algorithm)?;
    writer.struct_end()
}

/// Writes an EncryptionAlgorithm as the field `id`.
#[tactic(auto, using(crate::proofs::PutFields::field_put, crate::proofs::PutFields::in_struct_still))]
pub fn put_algorithm(
    writer: &mut Writer,
    id: i16,
    algorithm: &AlgorithmMeta,
) -> Result<(), OutOfMemory>
    requires { Follows id writer.old.inner × HasDepth 2 writer.old × FitsAlgorithm algorithm.now }
    ensures { OnOk result (writer.new ≡
        with_value id (struct_tree (encryption_algorithm algorithm.now)) writer.old) }
{
    writer.struct_field(id)?;
    put_algorithm_fields(writer, algorithm)?;
    writer.struct_end()
}

fn put_file_crypto(
    writer: &mut Writer,
    algorithm: &AlgorithmMeta,
    key_metadata: &[u8],
) -> Result<(), OutOfMemory>
    requires { (writer.old.inner ≡ part.Struct None) × HasDepth 2 writer.old ×
        FitsAlgorithm algorithm.now × IsSmall (length key_metadata.now) }
    ensures fields { OnOk result (writer.new ≡
        with_fields (file_crypto_meta_data algorithm.now key_metadata.now) writer.old) }
    ensures last { OnOk result (IsUpTo (pos 2) writer.new.inner) }
{
    put_algorithm(writer, 1, algorithm)?;
    writer.binary(2, key_metadata)
}

/// A FileCryptoMetaData in canonical spelling: the algorithm that encrypts the file's modules, and the metadata of
/// the footer key.
#[tactic(auto, using(crate::proofs::PutFields::struct_put))]
pub fn write_file_crypto(
    alloc: Global,
    algorithm: &AlgorithmMeta,
    key_metadata: &[u8],
) -> Result<Bytes, OutOfMemory>
    requires { FitsAlgorithm algorithm.now × IsSmall (length key_metadata.now) }
    ensures { IfOk result (λ bytes. bytes ≡
        canonical (struct_tree (file_crypto_meta_data algorithm.now key_metadata.now))) }
{
    let mut writer = Writer::new(alloc);
    writer.struct_begin()?;
    put_file_crypto(&mut writer, algorithm, key_metadata)?;
    writer.struct_end()?;
    Ok(writer.finish())
}
