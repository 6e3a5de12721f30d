//! The commands that read one file and print a text: `module`, `thrift` and `footer`.
#![tactic(auto)]

mod footer_command;
mod module_command;
mod opened;
mod sealed_file;
mod tail_text;
mod thrift_command;

pub use footer_command::footer;
pub use module_command::module;
pub use thrift_command::thrift;
