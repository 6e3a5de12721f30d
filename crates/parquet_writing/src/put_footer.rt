// Writes FileMetaData.
ghost use Rattle.std.specs.Prelude.{◌≡◌, pos, None, OnOk, IfOk};
ghost use Rattle.thrift_compact.specs.declared.writer.Part.TheVariants as part;
ghost use Rattle.thrift_compact.specs.Spelling.{canonical};
ghost use Rattle.thrift_compact.specs.Tree.{struct as struct_tree, no_fields};
ghost use Rattle.thrift_compact.specs.Writing.{Follows};
ghost use Rattle.parquet_writing.specs.Fitting.{FitsIfSome, FitsFooter};
ghost use Rattle.parquet_writing.specs.Plans.{where_some, signing_algorithm, file_meta_data};
ghost use Rattle.parquet_writing.specs.Putting.{with_fields, HasDepth, IsUpTo};

use crate::put_algorithm::put_algorithm;
use crate::put_fields::put_optional;
use crate::put_group::put_groups;
use crate::put_schema::put_schema;
use parquet_types::{AlgorithmMeta, FooterPlan};
use pme_base::{Bytes, OutOfMemory};
use std::alloc::Global;
use thrift_compact::{TKind, Writer};

/// Writes the algorithm of a signed footer; there is none if the footer isn't signed.
#[tactic(auto, using(crate::proofs::PutFields::follows_later))]
fn put_signing_algorithm(
    writer: &mut Writer,
    algorithm: &Option<AlgorithmMeta>,
) -> Result<(), OutOfMemory>
    requires { Follows (pos 8) writer.old.inner × HasDepth 2 writer.old × FitsIfSome algorithm.now }
    ensures fields { OnOk result (writer.new ≡ with_fields
        (where_some (pos 8) struct_tree (signing_algorithm algorithm.now) no_fields) writer.old) }
    ensures last { OnOk result (IsUpTo (pos 8) writer.new.inner) }
    ensures outer { OnOk result (writer.new.outer ≡ writer.old.outer) }
{
    match algorithm {
        None => Ok(()),
        Some(algorithm) => put_algorithm(writer, 8, algorithm),
    }
}

#[tactic(auto, using(crate::proofs::PutFields::some_first))]
fn put_file_meta(writer: &mut Writer, plan: &FooterPlan) -> Result<(), OutOfMemory>
    requires { (writer.old.inner ≡ part.Struct None) × HasDepth 7 writer.old × FitsFooter plan.now }
    ensures fields { OnOk result (writer.new ≡ with_fields (file_meta_data plan.now) writer.old) }
    ensures last { OnOk result (IsUpTo (pos 9) writer.new.inner) }
{
    writer.whole(1, TKind::I32, 1)?;
    put_schema(writer, &plan.schema)?;
    writer.whole(3, TKind::I64, plan.num_rows)?;
    put_groups(writer, &plan.groups)?;
    writer.binary(6, b"pme")?;
    put_signing_algorithm(writer, &plan.algorithm)?;
    put_optional(writer, 9, &plan.signing_key_metadata)
}

/// A footer as a FileMetaData in canonical spelling. Each row group holds the sums of its column chunks' sizes, the
/// offset of its first chunk, and its position as ordinal.
#[tactic(auto, using(crate::proofs::PutFields::struct_put))]
pub fn write_file_meta(alloc: Global, plan: &FooterPlan) -> Result<Bytes, OutOfMemory>
    requires { FitsFooter plan.now }
    ensures { IfOk result (λ bytes. bytes ≡ canonical (struct_tree (file_meta_data plan.now))) }
{
    let mut writer = Writer::new(alloc);
    writer.struct_begin()?;
    put_file_meta(&mut writer, plan)?;
    writer.struct_end()?;
    Ok(writer.finish())
}
