//! The rules on the values of a footer, in their order: a flat schema, a column chunk for each column in each row
//! group, and counts of rows that add up. The result is the footer, or the refusal by the first rule that is broken.
#![tactic(auto)]

mod column_rules;
mod file_rules;
mod group_rules;
mod shape_laws;
mod value_rules;

pub use file_rules::file_of;
pub use shape_laws::passed_footers_are_shaped;
