//! JSON (RFC 8259), base64 and hex (RFC 4648): functions from bytes to values and back. The crates above read and write
//! their files with these calls, and their contracts use the definitions in `specs/`.
//!
//! Values are those of `serde_json`, whose parts can be borrowed without a copy: `value.as_object()` borrows the members,
//! and `for (name, value) in members.iter()` visits them in byte order of their names, as in `first_other_than_text`. A
//! crate whose functions mention `Value` or `Map` lists `serde_json` in crates.txt and imports both names from here.
#![tactic(auto)]

mod access;
mod building;
mod codings;
mod laws;
mod reading;
mod writing;

pub use access::{first_other_than_text, list_at, text_at, truth_at, whole_number_at};
pub use building::{
    ListBuilder, ObjectBuilder, text_value, text_value_of_bytes, truth_value, whole_number_value,
};
pub use codings::{base64_text, bytes_of_base64, bytes_of_hex, hex_text};
pub use laws::{base64_is_exact, hex_is_exact};
pub use reading::read_json;
pub use serde_json::{Map, Value};
pub use writing::write_json;
