// Writes the SchemaElements of a flat schema.
ghost use Rattle.std.specs.Prelude.{◌≡◌, ◌+◌, pos, None, length, OnOk};
ghost use Rattle.std.specs.List.{All};
ghost use Rattle.thrift_compact.specs.declared.kind.TKind.TheVariants as kind;
ghost use Rattle.thrift_compact.specs.declared.writer.Part.TheVariants as part;
ghost use Rattle.thrift_compact.specs.Proper.{IsSmall};
ghost use Rattle.thrift_compact.specs.Spelling.{spelling};
ghost use Rattle.thrift_compact.specs.Tree.{struct as struct_tree, list as list_tree, int32 as int32_tree, no_fields};
ghost use Rattle.thrift_compact.specs.Writing.{Follows, Awaits, with_item};
ghost use Rattle.parquet_writing.specs.Fitting.{FitsKind, FitsColumn};
ghost use Rattle.parquet_writing.specs.Plans.{structs, where_some, where_true, kind_number, fixed_length, repetition, schema_root, schema_column, schema};
ghost use Rattle.parquet_writing.specs.Putting.{with_value, with_fields, HasDepth, IsUpTo};

use crate::put_column::kind_number;
use parquet_types::{ColumnKind, ColumnSpec, FlatSchema};
use pme_base::OutOfMemory;
use thrift_compact::{TKind, Writer};

fn put_root_fields(writer: &mut Writer, columns: u32) -> Result<(), OutOfMemory>
    requires { (writer.old.inner ≡ part.Struct None) × IsSmall columns }
    ensures fields { OnOk result (writer.new ≡ with_fields (schema_root columns) writer.old) }
    ensures last { OnOk result (IsUpTo (pos 5) writer.new.inner) }
    ensures outer { OnOk result (writer.new.outer ≡ writer.old.outer) }
{
    writer.binary(4, b"schema")?;
    writer.whole(5, TKind::I32, i64::from(columns))
}

/// Writes the root element, whose count of children is the number of columns.
#[tactic(auto, using(crate::proofs::PutLists::item_put, crate::proofs::PutLists::around_length, crate::proofs::PutFields::in_struct_still))]
fn put_root(writer: &mut Writer, columns: u32) -> Result<(), OutOfMemory>
    requires { Awaits kind.Struct writer.old.inner × HasDepth 1 writer.old × IsSmall columns }
    ensures { OnOk result (writer.new ≡
        with_item (spelling (struct_tree (schema_root columns))) writer.old) }
{
    writer.struct_begin()?;
    put_root_fields(writer, columns)?;
    writer.struct_end()
}

/// Writes the length in bytes of a FIXED_LEN_BYTE_ARRAY, and nothing for other types.
#[tactic(auto, using(crate::proofs::PutFields::follows_later))]
fn put_fixed_length(writer: &mut Writer, kind: ColumnKind) -> Result<(), OutOfMemory>
    requires { Follows (pos 2) writer.old.inner × FitsKind kind }
    ensures fields { OnOk result (writer.new ≡
        with_fields (where_some (pos 2) int32_tree (fixed_length kind) no_fields) writer.old) }
    ensures last { OnOk result (IsUpTo (pos 2) writer.new.inner) }
    ensures outer { OnOk result (writer.new.outer ≡ writer.old.outer) }
{
    match kind {
        ColumnKind::Fixed(length) => writer.whole(2, TKind::I32, i64::from(length)),
        _ => Ok(()),
    }
}

/// Writes the converted type UTF8 of a text column.
#[tactic(auto, using(crate::proofs::PutFields::follows_later))]
fn put_converted_type(writer: &mut Writer, text: bool) -> Result<(), OutOfMemory>
    requires { Follows (pos 6) writer.old.inner }
    ensures fields { OnOk result (writer.new ≡
        with_fields (where_true (pos 6) (int32_tree (pos 0)) text no_fields) writer.old) }
    ensures last { OnOk result (IsUpTo (pos 6) writer.new.inner) }
    ensures outer { OnOk result (writer.new.outer ≡ writer.old.outer) }
{
    if !text {
        return Ok(());
    }
    writer.whole(6, TKind::I32, 0)
}

fn put_kind(writer: &mut Writer, kind: ColumnKind) -> Result<(), OutOfMemory>
    requires { Follows (pos 1) writer.old.inner }
    ensures { OnOk result (writer.new ≡
        with_value (pos 1) (int32_tree (kind_number kind)) writer.old) }
{
    writer.whole(1, TKind::I32, i64::from(kind_number(kind)))
}

/// Writes the repetition type, REQUIRED (0) or OPTIONAL (1).
fn put_repetition(writer: &mut Writer, optional: bool) -> Result<(), OutOfMemory>
    requires { Follows (pos 3) writer.old.inner }
    ensures { OnOk result (writer.new ≡
        with_value (pos 3) (int32_tree (repetition optional)) writer.old) }
{
    if optional {
        return writer.whole(3, TKind::I32, 1);
    }
    writer.whole(3, TKind::I32, 0)
}

#[tactic(auto, using(crate::proofs::PutFields::some_first, crate::proofs::PutFields::true_first))]
fn put_column_fields(writer: &mut Writer, column: &ColumnSpec) -> Result<(), OutOfMemory>
    requires { (writer.old.inner ≡ part.Struct None) × FitsColumn column.now }
    ensures fields { OnOk result (writer.new ≡ with_fields (schema_column column.now) writer.old) }
    ensures last { OnOk result (IsUpTo (pos 6) writer.new.inner) }
    ensures outer { OnOk result (writer.new.outer ≡ writer.old.outer) }
{
    put_kind(writer, column.kind)?;
    put_fixed_length(writer, column.kind)?;
    put_repetition(writer, column.optional)?;
    writer.binary(4, column.name.as_slice())?;
    put_converted_type(writer, column.text)
}

#[tactic(auto, using(crate::proofs::PutLists::item_put, crate::proofs::PutLists::around_length, crate::proofs::PutFields::in_struct_still))]
fn put_column(writer: &mut Writer, column: &ColumnSpec) -> Result<(), OutOfMemory>
    requires { Awaits kind.Struct writer.old.inner × HasDepth 1 writer.old × FitsColumn column.now }
    ensures { OnOk result (writer.new ≡
        with_item (spelling (struct_tree (schema_column column.now))) writer.old) }
{
    writer.struct_begin()?;
    put_column_fields(writer, column)?;
    writer.struct_end()
}

/// Writes the schema: the root and the columns.
pub fn put_schema(writer: &mut Writer, columns: &FlatSchema) -> Result<(), OutOfMemory>
    requires { Follows (pos 2) writer.old.inner × HasDepth 2 writer.old ×
        IsSmall (length columns.now + 1) × All FitsColumn columns.now }
    ensures { OnOk result (writer.new ≡
        with_value (pos 2) (list_tree (structs (schema columns.now))) writer.old) }
{
    let items = columns.as_slice();
    let count = items.len() as u32;
    writer.list_field(2, TKind::Struct, count + 1)?;
    put_root(writer, count)?;
    for column in items {
        put_column(writer, column)?;
    }
    Ok(())
}
