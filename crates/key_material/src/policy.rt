// A policy: the keys of a new file, its footer mode, and the sizes of its row groups and pages.
ghost use Rattle.std.specs.Prelude.{◌≡◌, Err, Ok, IfOk, IfErr, IfSome, option_map};
ghost use Rattle.json_text.specs.Find.{as_bool};
ghost use Rattle.json_text.specs.View.{view, members_view};
ghost use Rattle.json_text.specs.Json.{object_of};
ghost use Rattle.json_text.specs.Members.{first_bad};
ghost use Rattle.json_text.specs.Order.{AreInByteOrder};
ghost use Rattle.key_material.specs.PolicyRules.{KeepsRules};
ghost use Rattle.key_material.specs.PolicyText as text;
ghost use Rattle.key_material.specs.PolicyValues.{rows_in};

use crate::key_lists::{keys_in, names_in};
use crate::names::{
    ALGORITHM, COLUMN_KEYS, DATA_KEY_BITS, DOUBLE_WRAPPING, FOOTER_COLUMNS, FOOTER_KEY,
    PLAINTEXT_FOOTER, PREFIX, PREFIX_STORED, ROWS_PER_GROUP, ROWS_PER_PAGE, STORE_INTERNALLY,
    UNIFORM_KEY, is_good,
};
use crate::values::{bits_in, ctr_in, id_in, prefix_in, rows_in};
use json_text::{Map, Value, read_json};
use pme_base::{Bytes, OutOfMemory, Sequence};
use std::alloc::Global;
use thiserror::Error;

/// A column under a key of its own.
#[derive(Drop)]
pub struct KeyedColumn {
    /// The id of the key.
    pub id: Bytes,
    /// The name of the column.
    pub column: Bytes,
}

/// Columns with the ids of their keys, in the order in which a policy names them.
pub type ColumnKeyList = Sequence<KeyedColumn>;

/// Names of columns.
pub type NameList = Sequence<Bytes>;

/// How a file is to be written. A column in neither list is plain, or encrypted with the footer key if `uniform` is set.
#[derive(Drop)]
pub struct Policy {
    /// Whether every column is encrypted with the footer key.
    pub uniform: bool,
    /// The id of the footer key.
    pub footer_key: Bytes,
    /// The columns with keys of their own.
    pub column_keys: ColumnKeyList,
    /// The columns that are encrypted with the footer key.
    pub footer_columns: NameList,
    /// Whether the algorithm is AES_GCM_CTR_V1 instead of AES_GCM_V1.
    pub ctr: bool,
    /// Whether the footer is plaintext and signed instead of encrypted.
    pub plaintext_footer: bool,
    /// Whether data keys are wrapped by a key encryption key, which the master key wraps, instead of by the master key.
    pub double: bool,
    /// Whether key material is stored in the file itself.
    pub internal: bool,
    /// The length of data keys in bits: 128, 192 or 256.
    pub bits: u32,
    /// The prefix of associated data, of 1 to 1,024 bytes.
    pub prefix: Option<Bytes>,
    /// Whether the prefix is stored in the file.
    pub stored: bool,
    /// The rows of a row group, from 1 to 16,777,216.
    pub rows_per_group: u32,
    /// The rows of a page, from 1 to 16,777,216.
    pub rows_per_page: u32,
}

/// Why a text isn't a policy.
#[derive(Debug, Drop, Error)]
pub enum PolicyRefusal {
    /// The first name in byte order that is unknown or has an invalid value. If all names are valid and none gives the
    /// footer key, the name of the footer key. If the bytes aren't a JSON object, the empty name.
    #[error("Bad")]
    Bad(Bytes),
    /// Memory was refused.
    #[error("OutOfMemory")]
    OutOfMemory,
}

impl From<OutOfMemory> for PolicyRefusal {
    ghost use Rattle.key_material.specs.declared.policy.PolicyRefusal.TheVariants as refusal;

    ghost from_gives = { λ _ e. e ≡ refusal.OutOfMemory };

    fn from(_error: OutOfMemory) -> PolicyRefusal {
        PolicyRefusal::OutOfMemory
    }
}

impl Policy {
    /// Parses a policy: a JSON object with the names of `docs/FORMAT.md`. If a name is repeated, its last value counts.
    #[tactic(auto, using(crate::proofs::Kept::policies_keep_rules))]
    pub fn parse(alloc: Global, bytes: &[u8]) -> Result<Policy, PolicyRefusal>
        ensures ok { IfOk result (λ policy. text.policy_of_text bytes.now ≡ Ok policy) }
        ensures err { IfErr result (text.IsRefusalOf (text.policy_of_text bytes.now)) }
        ensures rules { IfOk result KeepsRules }
        ensures order { IfSome (object_of bytes.now) AreInByteOrder }
    {
        match policy_of_text(alloc, bytes) {
            Ok(policy) => Ok(policy),
            Err(refusal) => Err(refusal),
        }
    }
}

// The policy of a text. That it keeps the rules follows from its definition.
#[tactic(auto, unfolding(crate::specs::PolicyText::policy_of_text))]
fn policy_of_text(alloc: Global, bytes: &[u8]) -> Result<Policy, PolicyRefusal>
    ensures ok { IfOk result (λ policy. text.policy_of_text bytes.now ≡ Ok policy) }
    ensures err { IfErr result (text.IsRefusalOf (text.policy_of_text bytes.now)) }
    ensures order { IfSome (object_of bytes.now) AreInByteOrder }
{
    let Some(value) = read_json(alloc, bytes)? else {
        return Err(PolicyRefusal::Bad(Bytes::new(alloc)));
    };
    let Some(members) = value.as_object() else {
        return Err(PolicyRefusal::Bad(Bytes::new(alloc)));
    };
    if let Some(name) = first_bad_name(members, is_uniform(&value)) {
        return Err(bad_name(alloc, name));
    }
    let Some(id) = footer_id(&value) else {
        return Err(bad_name(alloc, FOOTER_KEY));
    };
    let policy = settings(alloc, &value, id)?;
    Ok(policy)
}

fn first_bad_name(members: &Map<String, Value>, uniform: bool) -> Option<&str>
    ensures { option_map (λ name. name.now) result
        ≡ first_bad (text.is_good uniform) (members_view members.now.entries) }
{
    for (name, value) in members.iter() {
        if !is_good(uniform, name.as_str(), value) {
            return Some(name.as_str());
        }
    }
    None
}

fn bad_name(alloc: Global, name: &str) -> PolicyRefusal
    ensures { text.IsRefusalOf (Err name.now) result }
{
    match Bytes::copy_of(alloc, name.as_bytes()) {
        Ok(name) => PolicyRefusal::Bad(name),
        Err(_) => PolicyRefusal::OutOfMemory,
    }
}

#[tactic(auto, unfolding(crate::specs::PolicyText::is_uniform))]
fn is_uniform(value: &Value) -> bool
    ensures { result ≡ text.is_uniform (view value.now) }
{
    value.get(UNIFORM_KEY).is_some()
}

// The id of the footer key, by the name for a uniform key or the name for a footer key.
#[tactic(auto, unfolding(crate::specs::PolicyText::footer_id))]
fn footer_id(value: &Value) -> Option<&str>
    ensures { option_map (λ id. id.now) result ≡ text.footer_id (view value.now) }
{
    match value.get(UNIFORM_KEY) {
        Some(id) => id_in(id),
        None => value.get(FOOTER_KEY).and_then(id_in),
    }
}

// The policy of an object whose names are all valid.
#[tactic(auto, unfolding(crate::specs::PolicyText::settings))]
fn settings(alloc: Global, value: &Value, id: &str) -> Result<Policy, OutOfMemory>
    ensures { IfOk result (λ policy. policy ≡ text.settings (view value.now) id.now) }
{
    let footer_key = Bytes::copy_of(alloc, id.as_bytes())?;
    let column_keys = column_keys(alloc, value)?;
    let footer_columns = footer_columns(alloc, value)?;
    let prefix = prefix(alloc, value)?;
    Ok(Policy {
        uniform: is_uniform(value),
        footer_key,
        column_keys,
        footer_columns,
        ctr: value.get(ALGORITHM).and_then(ctr_in).unwrap_or(false),
        plaintext_footer: switch(value, PLAINTEXT_FOOTER, false),
        double: switch(value, DOUBLE_WRAPPING, true),
        internal: switch(value, STORE_INTERNALLY, true),
        bits: value.get(DATA_KEY_BITS).and_then(bits_in).unwrap_or(128),
        prefix,
        stored: switch(value, PREFIX_STORED, true),
        rows_per_group: rows(value, ROWS_PER_GROUP, 100_000),
        rows_per_page: rows(value, ROWS_PER_PAGE, 1_000),
    })
}

fn switch(value: &Value, name: &str, default: bool) -> bool
    ensures { result ≡ text.said as_bool name.now default (view value.now) }
{
    value.get(name).and_then(Value::as_bool).unwrap_or(default)
}

fn rows(value: &Value, name: &str, default: u32) -> u32
    ensures { result ≡ text.said rows_in name.now default (view value.now) }
{
    value.get(name).and_then(rows_in).unwrap_or(default)
}

#[tactic(auto, unfolding(crate::specs::PolicyText::column_keys))]
fn column_keys(alloc: Global, value: &Value) -> Result<ColumnKeyList, OutOfMemory>
    ensures { IfOk result (λ keys. keys ≡ text.column_keys (view value.now)) }
{
    let Some(value) = value.get(COLUMN_KEYS) else {
        return Ok(Sequence::new(alloc));
    };
    match keys_in(alloc, value)? {
        Some(keys) => Ok(keys),
        None => Ok(Sequence::new(alloc)),
    }
}

#[tactic(auto, unfolding(crate::specs::PolicyText::footer_columns))]
fn footer_columns(alloc: Global, value: &Value) -> Result<NameList, OutOfMemory>
    ensures { IfOk result (λ names. names ≡ text.footer_columns (view value.now)) }
{
    let Some(value) = value.get(FOOTER_COLUMNS) else {
        return Ok(Sequence::new(alloc));
    };
    match names_in(alloc, value)? {
        Some(names) => Ok(names),
        None => Ok(Sequence::new(alloc)),
    }
}

#[tactic(auto, unfolding(crate::specs::PolicyText::prefix))]
fn prefix(alloc: Global, value: &Value) -> Result<Option<Bytes>, OutOfMemory>
    ensures { IfOk result (λ prefix. prefix ≡ text.prefix (view value.now)) }
{
    match value.get(PREFIX) {
        Some(value) => prefix_in(alloc, value),
        None => Ok(None),
    }
}
