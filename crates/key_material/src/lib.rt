//! The policy of a new file, a JSON text: its keys, its footer mode, and the layout of its pages.
#![tactic(auto)]

mod key_lists;
mod laws;
mod names;
mod policy;
mod values;

pub use laws::policies_are_judged_by_name;
pub use policy::{ColumnKeyList, KeyedColumn, NameList, Policy, PolicyRefusal};
