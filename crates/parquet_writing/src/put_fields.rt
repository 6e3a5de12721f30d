// Writes optional fields.
ghost use Rattle.std.specs.Prelude.{◌≡◌, true, OnOk};
ghost use Rattle.thrift_compact.specs.Tree.{binary as binary_tree, truth as truth_tree, no_fields};
ghost use Rattle.thrift_compact.specs.Writing.{Follows};
ghost use Rattle.parquet_writing.specs.Fitting.{FitsOptional};
ghost use Rattle.parquet_writing.specs.Plans.{where_some, where_true};
ghost use Rattle.parquet_writing.specs.Putting.{with_fields, IsUpTo};

use pme_base::{Bytes, OutOfMemory};
use thrift_compact::Writer;

/// Writes a binary field if there are bytes.
#[tactic(auto, using(crate::proofs::PutFields::follows_later))]
pub fn put_optional(writer: &mut Writer, id: i16, bytes: &Option<Bytes>) -> Result<(), OutOfMemory>
    requires { Follows id writer.old.inner × FitsOptional bytes.now }
    ensures fields { OnOk result (writer.new ≡
        with_fields (where_some id binary_tree bytes.now no_fields) writer.old) }
    ensures last { OnOk result (IsUpTo id writer.new.inner) }
    ensures outer { OnOk result (writer.new.outer ≡ writer.old.outer) }
{
    match bytes {
        None => Ok(()),
        Some(bytes) => writer.binary(id, bytes.as_slice()),
    }
}

/// Writes a boolean field that is true if the flag is set, and nothing otherwise.
#[tactic(auto, using(crate::proofs::PutFields::follows_later))]
pub fn put_flag(writer: &mut Writer, id: i16, flag: bool) -> Result<(), OutOfMemory>
    requires { Follows id writer.old.inner }
    ensures fields { OnOk result (writer.new ≡
        with_fields (where_true id (truth_tree true) flag no_fields) writer.old) }
    ensures last { OnOk result (IsUpTo id writer.new.inner) }
    ensures outer { OnOk result (writer.new.outer ≡ writer.old.outer) }
{
    if !flag {
        return Ok(());
    }
    writer.truth(id, true)
}
