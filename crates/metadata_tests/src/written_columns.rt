// A footer with a column of each physical type, required and optional, and text columns is read back as planned.
ghost use Rattle.std.specs.Prelude.{◌≤◌, length, IfOk};
ghost use Rattle.std.specs.List.{All};
ghost use Rattle.parquet_writing.specs.Fitting.{FitsKind, FitsColumn, FitsFooter};

use parquet_meta::{
    ColumnKind, ColumnSpec, FileMeta, FlatSchema, FooterPlan, WrittenGroups, read_file_meta,
    write_file_meta,
};
use pme_base::{Bytes, OutOfMemory, Place};
use std::alloc::Global;
use std::test::Fail;

fn kind_at(position: u8) -> ColumnKind
    ensures { FitsKind result }
{
    match position {
        0 => ColumnKind::Boolean,
        1 => ColumnKind::Int32,
        2 => ColumnKind::Int64,
        3 => ColumnKind::Int96,
        4 => ColumnKind::Float,
        5 => ColumnKind::Double,
        6 => ColumnKind::Fixed(5),
        _ => ColumnKind::ByteArray,
    }
}

/// Column `number`: two of each physical type, the second of them optional, and then two text columns. Its name is
/// one letter.
fn column_at(alloc: Global, number: u8) -> Result<ColumnSpec, OutOfMemory>
    ensures { IfOk result (λ column. FitsColumn column) }
{
    let name = Bytes::copy_of(alloc, &[number.saturating_add(b'a')])?;
    Ok(ColumnSpec {
        name,
        kind: kind_at(number / 2),
        optional: number % 2 == 1,
        text: number >= 16,
    })
}

#[tactic(auto, using(crate::proofs::Plans::pushed))]
fn each_column(alloc: Global) -> Result<FlatSchema, OutOfMemory>
    ensures { IfOk result (λ columns. (length columns ≤ 18) × All FitsColumn columns) }
{
    let mut schema = FlatSchema::new(alloc);
    for number in 0..18 {
        schema.push(column_at(alloc, number)?)?;
    }
    Ok(schema)
}

fn columns_plan(alloc: Global) -> Result<FooterPlan, OutOfMemory>
    ensures { IfOk result (λ plan. FitsFooter plan) }
{
    let schema = each_column(alloc)?;
    Ok(FooterPlan {
        schema,
        num_rows: 0,
        groups: WrittenGroups::new(alloc),
        algorithm: None,
        signing_key_metadata: None,
    })
}

fn is_same(found: &ColumnSpec, number: u8, planned: &ColumnSpec) -> bool {
    let shape = found.kind == kind_at(number / 2) && found.optional == (number % 2 == 1);
    shape && found.text == (number >= 16) && found.name.as_slice() == planned.name.as_slice()
}

fn count_of_same(file: &FileMeta, plan: &FooterPlan) -> u8 {
    let planned = plan.schema.as_slice();
    let found = file.schema.as_slice();
    for number in 0..18 {
        let (Some(one), Some(other)) = (found.get(number as usize), planned.get(number as usize))
        else {
            return number;
        };
        if !is_same(one, number, other) {
            return number;
        }
    }
    18
}

#[test]
fn columns_of_each_type_are_read_back(rt: HostRuntime) -> Result<(), Fail> {
    let plan = columns_plan(rt.alloc())?;
    let written = write_file_meta(rt.alloc(), &plan)?;
    let (file, size) = read_file_meta(rt.alloc(), &Place::footer(), written.as_slice())?;
    assert_eq!(rt; size, written.len());
    assert_eq!(rt; file.schema.len(), 18);
    assert_eq!(rt; count_of_same(&file, &plan), 18);
    Ok(())
}
