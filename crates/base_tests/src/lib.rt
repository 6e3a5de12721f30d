//! Tests of pme_base, json_text, key_material, refusal_lines and hybrid_runs. They are in a crate of their own so that none
//! of those crates is proved a second time with its tests.
#![tactic(auto)]

#[cfg(test)]
mod json;
#[cfg(test)]
mod lines;
#[cfg(test)]
mod outside;
#[cfg(test)]
mod policies;
#[cfg(test)]
mod runs;
