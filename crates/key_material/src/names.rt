// The names of a policy, and the values that each may have.
ghost use Rattle.std.specs.Prelude.{◌≡◌};
ghost use Rattle.json_text.specs.View.{view};
ghost use Rattle.key_material.specs.PolicyText as text;

use crate::key_lists::{has_key_list, has_name_list};
use crate::values::{bits_in, ctr_in, has_prefix, id_in, rows_in};
use json_text::Value;

// Names of parquet-java.
pub(crate) const FOOTER_KEY: &str = "parquet.encryption.footer.key";

pub(crate) const UNIFORM_KEY: &str = "parquet.encryption.uniform.key";

pub(crate) const COLUMN_KEYS: &str = "parquet.encryption.column.keys";

pub(crate) const ALGORITHM: &str = "parquet.encryption.algorithm";

pub(crate) const PLAINTEXT_FOOTER: &str = "parquet.encryption.plaintext.footer";

pub(crate) const DOUBLE_WRAPPING: &str = "parquet.encryption.double.wrapping";

pub(crate) const STORE_INTERNALLY: &str = "parquet.encryption.key.material.store.internally";

pub(crate) const DATA_KEY_BITS: &str = "parquet.encryption.data.key.length.bits";

// Names of this project.
pub(crate) const FOOTER_COLUMNS: &str = "pme.footer.key.columns";

pub(crate) const PREFIX: &str = "pme.aad.prefix";

pub(crate) const PREFIX_STORED: &str = "pme.aad.prefix.stored";

pub(crate) const ROWS_PER_GROUP: &str = "pme.rows.per.group";

pub(crate) const ROWS_PER_PAGE: &str = "pme.rows.per.page";

/// Whether the name is known and has a valid value. `uniform` says whether the policy has a uniform key, which excludes
/// some other names.
#[tactic(auto, unfolding(crate::specs::PolicyText::is_good))]
pub(crate) fn is_good(uniform: bool, name: &str, value: &Value) -> bool
    ensures { result ≡ text.is_good uniform name.now (view value.now) }
{
    !(uniform && is_replaced(name)) && is_known(name, value)
}

#[tactic(auto, unfolding(crate::specs::PolicyText::is_replaced))]
fn is_replaced(name: &str) -> bool
    ensures { result ≡ text.is_replaced name.now }
{
    name == FOOTER_KEY || name == COLUMN_KEYS || name == FOOTER_COLUMNS
}

#[tactic(auto, unfolding(crate::specs::PolicyText::is_known))]
fn is_known(name: &str, value: &Value) -> bool
    ensures { result ≡ text.is_known name.now (view value.now) }
{
    names_keys(name, value) || names_layout(name, value) || names_switch(name, value)
}

#[tactic(auto, unfolding(crate::specs::PolicyText::names_keys))]
fn names_keys(name: &str, value: &Value) -> bool
    ensures { result ≡ text.names_keys name.now (view value.now) }
{
    (name == FOOTER_KEY && id_in(value).is_some())
        || (name == UNIFORM_KEY && id_in(value).is_some())
        || (name == COLUMN_KEYS && has_key_list(value))
        || (name == FOOTER_COLUMNS && has_name_list(value))
}

#[tactic(auto, unfolding(crate::specs::PolicyText::names_layout))]
fn names_layout(name: &str, value: &Value) -> bool
    ensures { result ≡ text.names_layout name.now (view value.now) }
{
    (name == ALGORITHM && ctr_in(value).is_some())
        || (name == DATA_KEY_BITS && bits_in(value).is_some())
        || (name == PREFIX && has_prefix(value))
        || (name == ROWS_PER_GROUP && rows_in(value).is_some())
        || (name == ROWS_PER_PAGE && rows_in(value).is_some())
}

#[tactic(auto, unfolding(crate::specs::PolicyText::names_switch))]
fn names_switch(name: &str, value: &Value) -> bool
    ensures { result ≡ text.names_switch name.now (view value.now) }
{
    (name == PLAINTEXT_FOOTER
        || name == DOUBLE_WRAPPING
        || name == STORE_INTERNALLY
        || name == PREFIX_STORED)
        && value.is_boolean()
}
