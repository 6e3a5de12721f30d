//! Reading and writing the end of a Parquet file ("Parquet Modular Encryption", "Encrypted footer mode" and "Plaintext
//! footer mode"): the footer, and how it is encrypted or signed.
#![tactic(auto)]

mod associated;
mod ends;
mod head;
mod laws;
mod mode;
mod opening;
mod reader;
mod reading;
mod tail;
mod tail_laws;
mod writing;

pub use laws::{footer_parts_fix_footers, tails_are_laid_out};
pub use mode::FooterMode;
pub use reader::{footer_key_metadata, read_tail};
pub use tail::{Protection, ReadOptions, Tail};
pub use tail_laws::{footer_areas, planned_tails_are_read, written_tails_are_read};
pub use writing::{write_encrypted_tail, write_signed_tail};
