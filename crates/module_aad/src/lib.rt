//! The associated data that binds an encrypted module to its place in a file (Parquet Modular Encryption, "AAD
//! suffixes"): the prefix and unique bytes of the file, then a suffix with the module's type and ordinals.
#![tactic(auto)]

ghost use Rattle.module_aad.specs.Aad.{DistinctPlaces, DistinctFiles};

mod file_aad;
mod suffix;

pub use file_aad::{AadRefusal, FileAad};

/// Different modules have different associated data: two places in one file, and any places in two files that have the
/// same prefix and different unique bytes of equal length.
pub fn distinct_modules()
    ensures places { DistinctPlaces }
    ensures files { DistinctFiles }
{}
