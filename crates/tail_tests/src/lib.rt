//! Tests of reading and writing the tail of a file. They have a crate of their own, so that `footer_modes` isn't proved a
//! second time for them.
#![tactic(auto)]

#[cfg(test)]
mod damaged_tails;
mod failing_finder;
#[cfg(test)]
mod faults_told;
#[cfg(test)]
mod footer_bytes;
mod refusing_finder;
#[cfg(test)]
mod sample_files;
#[cfg(test)]
mod tail_lines;
#[cfg(test)]
mod writing;

pub use failing_finder::FailingFinder;
pub use refusing_finder::{KeyFault, RefusingFinder};
