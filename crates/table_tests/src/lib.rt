//! Tests of plain_pages and table_text. They are in a crate of their own so that neither crate is proved a second time with
//! its tests.
#![tactic(auto)]

#[cfg(test)]
mod pages;
#[cfg(test)]
mod texts;
