//! Reads the structs of `parquet.thrift` that describe a file, each from the start of a byte slice. The first error is
//! reported: errors of the compact protocol come first, then refused fields by ascending field id, with the fields of
//! a nested struct at the place of their own field.
#![tactic(auto)]

mod algorithm;
mod chunk;
mod field_state;
mod file_crypto;
mod footer;
mod items;
mod page;
mod page_parts;
mod signing;
mod struct_fields;
mod values;

pub use chunk::read_column_meta;
pub use file_crypto::read_file_crypto;
pub use footer::read_raw_file_meta;
pub use page::read_page_head;
pub use signing::read_signing;
