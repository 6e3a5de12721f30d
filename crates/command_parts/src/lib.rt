//! Parts of all commands: why a command stops, reading small files and keys files, printing one text, and the state of
//! the files, the random source and the streams (`World`), over which each command states its guarantees.
#![tactic(auto)]

mod keys_file;
mod printing;
mod small_file;
mod stop;

pub use keys_file::load_keys;
pub use printing::{hex_line, print_text};
pub use small_file::read_small;
pub use stop::{Stop, about, plain_stop, stop_of};
