// The rules on a schema: a root element, and columns that are its only descendants.
ghost use Rattle.std.specs.Prelude.{◌≡◌, OnOk};
ghost use Rattle.std.specs.FinSet as set;
ghost use Rattle.std.specs.Str as str;
ghost use Rattle.pme_base.specs.Causes.{CausedBy};
ghost use Rattle.pme_base.specs.Steps.{Answers, Quiet};
ghost use Rattle.footer_rules.specs.FileRules as rules;

use crate::value_rules::{bad_value, check_count, check_equal};
use parquet_types::{ColumnKind, ColumnSpec, FlatSchema, SchemaElement};
use pme_base::{Cause, NameSet, Place, Refusal, Sequence, SequenceIter, StructName, plain_refusal};
use std::alloc::Global;

fn bad_element(place: Place, cause: Cause, field: i16) -> Refusal
    ensures { result ≡ rules.element_refusal place cause field }
{
    bad_value(place, cause, StructName::SchemaElement, field)
}

/// Refuses an element that has children, since schemas are flat.
fn check_is_leaf(place: Place, num_children: Option<i32>) -> Result<(), Refusal>
    ensures answer { result ≡ rules.check_is_leaf place num_children }
    ensures quiet { Quiet result }
    ensures causes { CausedBy rules.is_rule_cause result }
{
    match num_children {
        None | Some(0) => Ok(()),
        Some(_) => Err(bad_element(place, Cause::Unsupported, 5)),
    }
}

/// FIXED_LEN_BYTE_ARRAY with the given length in bytes.
fn fixed_length(place: Place, length: Option<i32>) -> Result<ColumnKind, Refusal>
    ensures answer { result ≡ rules.fixed_length place length }
    ensures quiet { Quiet result }
    ensures causes { CausedBy rules.is_rule_cause result }
{
    match length {
        None => Err(bad_element(place, Cause::MissingField, 2)),
        Some(length) if length < 1 => Err(bad_element(place, Cause::BadField, 2)),
        Some(length) => Ok(ColumnKind::Fixed(length.unsigned_abs())),
    }
}

/// The physical type with the given number of `Type` in `parquet.thrift`.
fn kind_of(place: Place, number: Option<i32>, length: Option<i32>) -> Result<ColumnKind, Refusal>
    ensures answer { result ≡ rules.kind_of place number length }
    ensures quiet { Quiet result }
    ensures causes { CausedBy rules.is_rule_cause result }
{
    match number {
        None => Err(bad_element(place, Cause::MissingField, 1)),
        Some(0) => Ok(ColumnKind::Boolean),
        Some(1) => Ok(ColumnKind::Int32),
        Some(2) => Ok(ColumnKind::Int64),
        Some(3) => Ok(ColumnKind::Int96),
        Some(4) => Ok(ColumnKind::Float),
        Some(5) => Ok(ColumnKind::Double),
        Some(6) => Ok(ColumnKind::ByteArray),
        Some(7) => fixed_length(place, length),
        Some(_) => Err(bad_element(place, Cause::BadField, 1)),
    }
}

/// Whether a column is OPTIONAL, by its repetition type. REPEATED columns are unsupported.
fn optional_of(place: Place, repetition: Option<i32>) -> Result<bool, Refusal>
    ensures answer { result ≡ rules.optional_of place repetition }
    ensures quiet { Quiet result }
    ensures causes { CausedBy rules.is_rule_cause result }
{
    match repetition {
        None => Err(bad_element(place, Cause::MissingField, 3)),
        Some(0) => Ok(false),
        Some(1) => Ok(true),
        Some(2) => Err(bad_element(place, Cause::Unsupported, 3)),
        Some(_) => Err(bad_element(place, Cause::BadField, 3)),
    }
}

fn is_utf8(bytes: &[u8]) -> bool
    ensures { result ≡ str.is_utf8 bytes.now }
{
    match std::str::from_utf8(bytes) {
        Ok(_) => true,
        Err(_) => false,
    }
}

/// Refuses a column name that isn't UTF-8 or is the name of an earlier column, and adds it to the earlier names.
fn check_name(place: Place, earlier: &mut NameSet, name: &[u8]) -> Result<(), Refusal>
    ensures answer { Answers result (rules.check_name place name.now earlier.old) }
    ensures added { OnOk result (earlier.new ≡ set.insert earlier.old name.now) }
    ensures quiet { Quiet result }
    ensures causes { CausedBy rules.is_rule_cause result }
{
    if !is_utf8(name) {
        return Err(bad_element(place, Cause::BadField, 4));
    }
    match earlier.add(name) {
        Ok(true) => Ok(()),
        Ok(false) => Err(bad_element(place, Cause::BadField, 4)),
        Err(_) => Err(plain_refusal(Cause::OutOfMemory)),
    }
}

/// Whether a column holds text: byte arrays with the converted type UTF8, which is 0.
fn is_text(kind: ColumnKind, converted: Option<i32>) -> bool
    ensures { result ≡ rules.is_text kind converted }
{
    match (kind, converted) {
        (ColumnKind::ByteArray, Some(converted)) => converted == 0,
        _ => false,
    }
}

/// The column of a schema element; `earlier` holds the names of the columns before it.
fn column_of(
    place: Place,
    earlier: &mut NameSet,
    element: SchemaElement,
) -> Result<ColumnSpec, Refusal>
    ensures answer { Answers result (rules.column_of place earlier.old element) }
    ensures added { OnOk result (earlier.new ≡ set.insert earlier.old element.name) }
    ensures quiet { Quiet result }
    ensures causes { CausedBy rules.is_rule_cause result }
{
    check_is_leaf(place, element.num_children)?;
    let kind = kind_of(place, element.kind, element.type_length)?;
    let optional = optional_of(place, element.repetition)?;
    check_name(place, earlier, element.name.as_slice())?;
    Ok(ColumnSpec {
        name: element.name,
        kind,
        optional,
        text: is_text(kind, element.converted),
    })
}

/// The columns of a schema, from its elements after the root.
fn columns_of(
    alloc: Global,
    place: Place,
    elements: SequenceIter<SchemaElement>,
) -> Result<FlatSchema, Refusal>
    ensures answer { Answers result (rules.columns_of place set.empty elements) }
    ensures quiet { Quiet result }
    ensures causes { CausedBy rules.is_rule_cause result }
{
    let mut earlier = NameSet::new(alloc);
    let mut columns = Sequence::new(alloc);
    let mut rest = elements;
    while let Some(element) = rest.next() {
        let column = column_of(place, &mut earlier, element)?;
        match columns.push(column) {
            Ok(()) => {}
            Err(_) => return Err(plain_refusal(Cause::OutOfMemory)),
        }
    }
    Ok(columns)
}

/// The columns of a schema, whose first element is the root. Refuses more than 32,768 columns.
pub fn schema_of(
    alloc: Global,
    place: Place,
    schema: Sequence<SchemaElement>,
) -> Result<FlatSchema, Refusal>
    ensures answer { Answers result (rules.schema_of place schema) }
    ensures quiet { Quiet result }
    ensures causes { CausedBy rules.is_rule_cause result }
{
    let count = schema.as_slice().len();
    let mut elements = schema.into_items();
    let root = match elements.next() {
        Some(root) => root,
        None => return Err(bad_element(place, Cause::MissingField, 4)),
    };
    let columns = count - 1;
    let counted = root.num_children.unwrap_or(0);
    check_equal(place, counted as i64, columns as i64)?;
    check_count(place, columns)?;
    columns_of(alloc, place, elements)
}
