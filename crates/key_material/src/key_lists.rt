// The lists of a policy: `id:column,column;id:column` and `column,column`.
ghost use Rattle.std.specs.Prelude.{◌≡◌, ◌++◌, is_some, map, IfOk, OnOk};
ghost use Rattle.std.specs.List.{before_first, after_first};
ghost use Rattle.json_text.specs.View.{view};
ghost use Rattle.key_material.specs.KeyLists as lists;

use crate::policy::{ColumnKeyList, KeyedColumn, NameList};
use crate::values::is_id;
use json_text::Value;
use pme_base::{Bytes, OutOfMemory, Sequence};
use std::alloc::Global;

/// Whether the value is a valid list of key ids with columns.
#[tactic(auto, unfolding(crate::specs::KeyLists::keys_in))]
pub(crate) fn has_key_list(value: &Value) -> bool
    ensures { result ≡ is_some (lists.keys_in (view value.now)) }
{
    match value.as_str() {
        Some(text) => is_key_list(text),
        None => false,
    }
}

/// The columns in such a list, each with the id of its key; None if the list is invalid.
#[tactic(auto, unfolding(crate::specs::KeyLists::keys_in))]
pub(crate) fn keys_in(alloc: Global, value: &Value) -> Result<Option<ColumnKeyList>, OutOfMemory>
    ensures { IfOk result (λ keys. keys ≡ lists.keys_in (view value.now)) }
{
    match value.as_str() {
        Some(text) if is_key_list(text) => {
            let keys = key_list(alloc, text)?;
            Ok(Some(keys))
        }
        _ => Ok(None),
    }
}

/// Whether the value is a valid list of columns.
#[tactic(auto, unfolding(crate::specs::KeyLists::names_in))]
pub(crate) fn has_name_list(value: &Value) -> bool
    ensures { result ≡ is_some (lists.names_in (view value.now)) }
{
    match value.as_str() {
        Some(text) => is_name_list(text),
        None => false,
    }
}

/// The columns in such a list; None if the list is invalid.
#[tactic(auto, unfolding(crate::specs::KeyLists::names_in))]
pub(crate) fn names_in(alloc: Global, value: &Value) -> Result<Option<NameList>, OutOfMemory>
    ensures { IfOk result (λ names. names ≡ lists.names_in (view value.now)) }
{
    match value.as_str() {
        Some(text) if is_name_list(text) => {
            let names = name_list(alloc, text)?;
            Ok(Some(names))
        }
        _ => Ok(None),
    }
}

#[tactic(auto, unfolding(crate::specs::KeyLists::is_key_list))]
fn is_key_list(text: &str) -> bool
    ensures { result ≡ lists.is_key_list text.now }
{
    text.is_empty() || are_groups(text)
}

fn are_groups(text: &str) -> bool
    ensures { result ≡ lists.are_groups text.now }
{
    for group in text.split(';') {
        if !is_group(group) {
            return false;
        }
    }
    true
}

fn is_group(group: &str) -> bool
    ensures { result ≡ lists.is_group group.now }
{
    let (id, columns) = halves(group);
    is_id(id) && are_names(columns)
}

#[tactic(auto, unfolding(crate::specs::KeyLists::is_name_list))]
fn is_name_list(text: &str) -> bool
    ensures { result ≡ lists.is_name_list text.now }
{
    text.is_empty() || are_names(text)
}

fn are_names(text: &str) -> bool
    ensures { result ≡ lists.are_names text.now }
{
    for name in text.split(',') {
        if name.is_empty() {
            return false;
        }
    }
    true
}

// The parts of a group before and after its first colon.
fn halves(group: &str) -> (&str, &str)
    ensures id { result.0.now ≡ before_first lists.is_colon group.now }
    ensures columns { result.1.now ≡ after_first lists.is_colon group.now }
{
    match group.split_once(':') {
        Some(halves) => halves,
        None => (group, ""),
    }
}

#[tactic(auto, unfolding(crate::specs::KeyLists::key_list))]
fn key_list(alloc: Global, text: &str) -> Result<ColumnKeyList, OutOfMemory>
    ensures { IfOk result (λ keys. keys ≡ lists.key_list text.now) }
{
    let mut keys = Sequence::new(alloc);
    if !text.is_empty() {
        push_groups(alloc, text, &mut keys)?;
    }
    Ok(keys)
}

fn push_groups(alloc: Global, text: &str, keys: &mut ColumnKeyList) -> Result<(), OutOfMemory>
    ensures { OnOk result (keys.new ≡ keys.old ++ lists.keys_of_groups text.now) }
{
    for group in text.split(';') {
        let (id, columns) = halves(group);
        push_group(alloc, id, columns, keys)?;
    }
    Ok(())
}

fn push_group(
    alloc: Global,
    id: &str,
    columns: &str,
    keys: &mut ColumnKeyList,
) -> Result<(), OutOfMemory>
    ensures { OnOk result
        (keys.new ≡ keys.old ++ map (lists.under_key id.now) (lists.parts 44 columns.now)) }
{
    for column in columns.split(',') {
        let id = Bytes::copy_of(alloc, id.as_bytes())?;
        let column = Bytes::copy_of(alloc, column.as_bytes())?;
        keys.push(KeyedColumn { id, column })?;
    }
    Ok(())
}

#[tactic(auto, unfolding(crate::specs::KeyLists::name_list))]
fn name_list(alloc: Global, text: &str) -> Result<NameList, OutOfMemory>
    ensures { IfOk result (λ names. names ≡ lists.name_list text.now) }
{
    let mut names = Sequence::new(alloc);
    if !text.is_empty() {
        push_names(alloc, text, &mut names)?;
    }
    Ok(names)
}

fn push_names(alloc: Global, text: &str, names: &mut NameList) -> Result<(), OutOfMemory>
    ensures { OnOk result (names.new ≡ names.old ++ lists.parts 44 text.now) }
{
    for name in text.split(',') {
        names.push(Bytes::copy_of(alloc, name.as_bytes())?)?;
    }
    Ok(())
}
