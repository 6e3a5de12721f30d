//! Parsing of the command line: the commands, their options and flags, and the arguments of each command.
#![tactic(auto)]

mod aad_prefix;
mod associated_data;
mod command;
mod laws;
mod options;
mod values;
mod verb;

pub use aad_prefix::AadPrefix;
pub use associated_data::AssociatedData;
pub use command::{Command, FooterArgs, ModuleArgs, ThriftArgs, command_of};
pub use laws::options_stand_in_any_order;
