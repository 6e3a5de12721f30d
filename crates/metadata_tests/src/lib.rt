//! Tests across the crates of a file's metadata: the compact protocol, the structs of `parquet.thrift`, the rules on
//! footers, and the writers. A crate of their own keeps those crates from being proved twice for their tests.
#![tactic(auto)]

#[cfg(test)]
mod footer_rules_kept;
#[cfg(test)]
mod reading;
#[cfg(test)]
mod spellings;
#[cfg(test)]
mod structs_read;
#[cfg(test)]
mod texts;
#[cfg(test)]
mod written_columns;
#[cfg(test)]
mod written_metadata;
#[cfg(test)]
mod written_structs;
