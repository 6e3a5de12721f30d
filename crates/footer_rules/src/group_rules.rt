// The rules on row groups: a column chunk for each column, no chunk in another file, and the counts of rows.
ghost use Rattle.std.specs.Prelude.{◌≡◌, ◌≤◌, ◌≤ℤ◌, pos, length, IfOk};
ghost use Rattle.pme_base.specs.Causes.{CausedBy};
ghost use Rattle.pme_base.specs.Steps.{Answers, Quiet};
ghost use Rattle.footer_rules.specs.FileRules as rules;

use crate::value_rules::{bad_value, check_equal, check_not_negative};
use parquet_types::{
    ChunkCrypto, ChunkList, ChunkMeta, ColumnChunk, ColumnCrypto, ColumnSpec, GroupList, RowGroup,
    RowGroupMeta,
};
use pme_base::{
    Bytes, COLUMN_LIMIT, Cause, Detail, OutOfMemory, Place, Refusal, Sequence, SequenceIter,
    StructName, plain_refusal, refusal_at,
};
use std::alloc::Global;

/// The names of a path joined by dots.
fn path_text(alloc: Global, path: &[Bytes]) -> Result<Bytes, OutOfMemory>
    ensures { IfOk result (λ text. text ≡ rules.path_text path.now) }
{
    let mut text = Bytes::new(alloc);
    if let [first, others @ ..] = path {
        text.extend(first.as_slice())?;
        let mut rest = others;
        while let [part, after @ ..] = rest {
            text.push(b'.')?;
            text.extend(part.as_slice())?;
            rest = after;
        }
    }
    Ok(text)
}

/// Whether the path has the single name `column`.
fn is_path_of(path: &[Bytes], column: &[u8]) -> bool
    ensures { result ≡ rules.is_path_of path.now column.now }
{
    match path {
        [part] => part.as_slice() == column,
        _ => false,
    }
}

/// The detail of a refused path: the path joined by dots, and the column's name.
fn names_detail(alloc: Global, path: &[Bytes], column: &[u8]) -> Result<Detail, OutOfMemory>
    ensures { IfOk result (λ detail. detail ≡ rules.names_detail path.now column.now) }
{
    let found = path_text(alloc, path)?;
    let wanted = Bytes::copy_of(alloc, column)?;
    Ok(Detail::Names(found, wanted))
}

/// Refuses a path other than the single name `column`.
fn check_path(alloc: Global, place: Place, path: &[Bytes], column: &[u8]) -> Result<(), Refusal>
    ensures answer { Answers result (rules.check_path place path.now column.now) }
    ensures quiet { Quiet result }
    ensures causes { CausedBy rules.is_rule_cause result }
{
    if is_path_of(path, column) {
        return Ok(());
    }
    match names_detail(alloc, path, column) {
        Ok(detail) => Err(refusal_at(Cause::Mismatch, place, 0, detail)),
        Err(_) => Err(plain_refusal(Cause::OutOfMemory)),
    }
}

/// The key of a column chunk, whose column has the name `column`.
fn chunk_crypto(
    alloc: Global,
    place: Place,
    column: &[u8],
    crypto: Option<ColumnCrypto>,
) -> Result<ChunkCrypto, Refusal>
    ensures answer { Answers result (rules.chunk_crypto place column.now crypto) }
    ensures quiet { Quiet result }
    ensures causes { CausedBy rules.is_rule_cause result }
{
    match crypto {
        None => Ok(ChunkCrypto::Plain),
        Some(ColumnCrypto::FooterKey) => Ok(ChunkCrypto::FooterKey),
        Some(ColumnCrypto::ColumnKey { path, key_metadata }) => {
            check_path(alloc, place, path.as_slice(), column)?;
            Ok(ChunkCrypto::ColumnKey(key_metadata))
        }
    }
}

/// Refuses a column chunk that is stored in another file.
fn check_same_file(place: Place, file_path: &Option<Bytes>) -> Result<(), Refusal>
    ensures answer { result ≡ rules.check_same_file place file_path.now }
    ensures quiet { Quiet result }
    ensures causes { CausedBy rules.is_rule_cause result }
{
    match file_path {
        None => Ok(()),
        Some(_) => Err(bad_value(place, Cause::Unsupported, StructName::ColumnChunk, 1)),
    }
}

/// The column chunk of the column with the name `column`.
fn chunk_of(
    alloc: Global,
    place: Place,
    column: &[u8],
    chunk: ColumnChunk,
) -> Result<ChunkMeta, Refusal>
    ensures answer { Answers result (rules.chunk_of place column.now chunk) }
    ensures quiet { Quiet result }
    ensures causes { CausedBy rules.is_rule_cause result }
{
    check_same_file(place, &chunk.file_path)?;
    let crypto = chunk_crypto(alloc, place, column, chunk.crypto)?;
    Ok(ChunkMeta {
        crypto,
        plain_meta: chunk.plain_meta,
        sealed_meta: chunk.sealed_meta,
    })
}

/// The column chunks of the given columns, in their order.
fn chunks_of(
    alloc: Global,
    place: Place,
    columns: &[ColumnSpec],
    chunks: SequenceIter<ColumnChunk>,
) -> Result<ChunkList, Refusal>
    ensures answer { Answers result (rules.chunks_of place columns.now chunks) }
    ensures quiet { Quiet result }
    ensures causes { CausedBy rules.is_rule_cause result }
{
    let mut list = Sequence::new(alloc);
    let mut rest = chunks;
    let mut columns = columns;
    while let [column, after @ ..] = columns {
        let chunk = match rest.next() {
            Some(chunk) => chunk,
            None => return Ok(list),
        };
        let meta = chunk_of(alloc, place, column.name.as_slice(), chunk)?;
        match list.push(meta) {
            Ok(()) => {}
            Err(_) => return Err(plain_refusal(Cause::OutOfMemory)),
        }
        columns = after;
    }
    Ok(list)
}

/// Refuses an ordinal that isn't the position of the row group.
fn check_ordinal(place: Place, position: u32, ordinal: Option<i16>) -> Result<(), Refusal>
    ensures answer { result ≡ rules.check_ordinal place position ordinal }
    ensures quiet { Quiet result }
    ensures causes { CausedBy rules.is_rule_cause result }
{
    match ordinal {
        None => Ok(()),
        Some(ordinal) => check_equal(place, ordinal as i64, position as i64),
    }
}

/// The row group at `position`, counted from 0.
fn group_of(
    alloc: Global,
    place: Place,
    columns: &[ColumnSpec],
    position: u32,
    group: RowGroup,
) -> Result<RowGroupMeta, Refusal>
    ensures answer { Answers result (rules.group_of place columns.now position group) }
    ensures least { IfOk result (λ group. pos 0 ≤ℤ group.num_rows) }
    ensures quiet { Quiet result }
    ensures causes { CausedBy rules.is_rule_cause result }
{
    let RowGroup {
        chunks,
        num_rows,
        ordinal,
    } = group;
    let count = chunks.as_slice().len();
    check_equal(place, count as i64, columns.len() as i64)?;
    check_not_negative(place, StructName::RowGroup, 3, num_rows)?;
    check_ordinal(place, position, ordinal)?;
    let chunks = chunks_of(alloc, place, columns, chunks.into_items())?;
    Ok(RowGroupMeta {
        chunks,
        num_rows,
        ordinal,
    })
}

/// The row groups of a file, of which there are at most 32,768.
pub fn groups_of(
    alloc: Global,
    place: Place,
    columns: &[ColumnSpec],
    groups: SequenceIter<RowGroup>,
) -> Result<GroupList, Refusal>
    requires { length groups ≤ COLUMN_LIMIT }
    ensures answer { Answers result (rules.groups_of place columns.now 0 groups) }
    ensures least { IfOk result (λ groups. rules.NoneNegative groups) }
    ensures quiet { Quiet result }
    ensures causes { CausedBy rules.is_rule_cause result }
{
    let mut list = Sequence::new(alloc);
    let mut rest = groups;
    let mut position = 0;
    while let Some(group) = rest.next() {
        let meta = group_of(alloc, place, columns, position, group)?;
        match list.push(meta) {
            Ok(()) => {}
            Err(_) => return Err(plain_refusal(Cause::OutOfMemory)),
        }
        position += 1;
    }
    Ok(list)
}

/// The sum of the row groups' counts of rows. It can't overflow: each is below 2^63, and there are fewer than 2^63
/// row groups.
pub fn all_rows(groups: &[RowGroupMeta]) -> u128
    requires { rules.NoneNegative groups.now }
    ensures { pos result ≡ rules.all_rows groups.now }
{
    let mut sum = 0u128;
    let mut rest = groups;
    while let [group, after @ ..] = rest {
        sum += group.num_rows as u128;
        rest = after;
    }
    sum
}

/// Refuses row groups whose counts of rows don't add up to `num_rows`, the count of the file.
pub fn check_rows(place: Place, sum: u128, num_rows: i64) -> Result<(), Refusal>
    ensures answer { result ≡ rules.check_rows place (pos sum) num_rows }
    ensures quiet { Quiet result }
    ensures causes { CausedBy rules.is_rule_cause result }
{
    if (i64::MAX as u128) < sum {
        return Err(bad_value(place, Cause::BadField, StructName::FileMetaData, 3));
    }
    check_equal(place, sum as i64, num_rows)
}
