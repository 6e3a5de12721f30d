// Writes the PageHeader of a data page.
ghost use Rattle.std.specs.Prelude.{◌≡◌, pos, None, OnOk, IfOk};
ghost use Rattle.thrift_compact.specs.declared.writer.Part.TheVariants as part;
ghost use Rattle.thrift_compact.specs.Spelling.{canonical};
ghost use Rattle.thrift_compact.specs.Tree.{struct as struct_tree};
ghost use Rattle.thrift_compact.specs.Writing.{Follows};
ghost use Rattle.parquet_writing.specs.Plans.{page_header, data_page_header};
ghost use Rattle.parquet_writing.specs.Putting.{with_value, with_fields, HasDepth, IsUpTo};

use parquet_types::DataHead;
use pme_base::{Bytes, OutOfMemory};
use std::alloc::Global;
use thrift_compact::{TKind, Writer};

fn put_counts(writer: &mut Writer, head: &DataHead) -> Result<(), OutOfMemory>
    requires { writer.old.inner ≡ part.Struct None }
    ensures fields { OnOk result (writer.new ≡ with_fields (data_page_header head.now) writer.old) }
    ensures last { OnOk result (IsUpTo (pos 4) writer.new.inner) }
{
    writer.whole(1, TKind::I32, i64::from(head.num_values))?;
    writer.whole(2, TKind::I32, i64::from(head.encoding))?;
    writer.whole(3, TKind::I32, i64::from(head.level_encoding))?;
    writer.whole(4, TKind::I32, 3)
}

#[tactic(auto, using(crate::proofs::PutFields::field_put))]
fn put_data_page_header(writer: &mut Writer, head: &DataHead) -> Result<(), OutOfMemory>
    requires { Follows (pos 5) writer.old.inner × HasDepth 1 writer.old }
    ensures { OnOk result (writer.new ≡
        with_value (pos 5) (struct_tree (data_page_header head.now)) writer.old) }
{
    writer.struct_field(5)?;
    put_counts(writer, head)?;
    writer.struct_end()
}

fn put_head(writer: &mut Writer, head: &DataHead) -> Result<(), OutOfMemory>
    requires { (writer.old.inner ≡ part.Struct None) × HasDepth 1 writer.old }
    ensures fields { OnOk result (writer.new ≡ with_fields (page_header head.now) writer.old) }
    ensures last { OnOk result (IsUpTo (pos 5) writer.new.inner) }
{
    writer.whole(1, TKind::I32, 0)?;
    writer.whole(2, TKind::I32, i64::from(head.uncompressed))?;
    writer.whole(3, TKind::I32, i64::from(head.compressed))?;
    put_data_page_header(writer, head)
}

/// The header of a data page as a PageHeader in canonical spelling.
#[tactic(auto, using(crate::proofs::PutFields::struct_put))]
pub fn write_page_head(alloc: Global, head: &DataHead) -> Result<Bytes, OutOfMemory>
    ensures { IfOk result (λ bytes. bytes ≡ canonical (struct_tree (page_header head.now))) }
{
    let mut writer = Writer::new(alloc);
    writer.struct_begin()?;
    put_head(&mut writer, head)?;
    writer.struct_end()?;
    Ok(writer.finish())
}
