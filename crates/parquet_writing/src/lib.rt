//! Writes the structs of a file's metadata, each from its plan and in canonical spelling: each field header and number
//! in its shortest form.
#![tactic(auto)]

mod put_algorithm;
mod put_column;
mod put_fields;
mod put_footer;
mod put_group;
mod put_page_head;
mod put_schema;

pub use put_algorithm::write_file_crypto;
pub use put_column::write_column_meta;
pub use put_footer::write_file_meta;
pub use put_page_head::write_page_head;
