// The commands with their arguments, and their parser.
ghost use Rattle.std.specs.Prelude.{◌≡◌, IfOk};
ghost use Rattle.std.specs.Option.{option_copied};
ghost use Rattle.command_line.specs.Commands as defined;

use crate::aad_prefix::AadPrefix;
use crate::associated_data::AssociatedData;
use crate::options::{are_options, has_flag, value_of};
use crate::values::{associated_data_of_hex, key_of_hex, prefix_of_hex};
use crate::verb::{Verb, verb_of};
use aes_block::AesKey;
use pme_base::{OutOfMemory, Text, Words};
use std::alloc::Global;

/// A command with its arguments.
#[derive(Drop)]
pub enum Command {
    /// Decrypt the module that takes up a whole file, and print its plaintext.
    Module(ModuleArgs),
    /// Print the Thrift struct at the start of a file as text.
    Thrift(ThriftArgs),
    /// Print the mode, the algorithm, the columns and the row counts of a file's footer.
    Footer(FooterArgs),
}

/// The arguments of `module`.
#[derive(Drop)]
pub struct ModuleArgs {
    /// The key of the module.
    pub key: AesKey,
    /// The associated data of the module.
    pub associated_data: AssociatedData,
    /// The name of the file with the module.
    pub file: Text,
}

/// The arguments of `thrift`.
#[derive(Drop)]
pub struct ThriftArgs {
    /// The name of the file with the struct.
    pub file: Text,
}

/// The arguments of `footer`.
#[derive(Drop)]
pub struct FooterArgs {
    /// The name of the Parquet file.
    pub file: Text,
    /// The name of the keys file.
    pub keys: Text,
    /// The AAD prefix, if one is supplied.
    pub prefix: Option<AadPrefix>,
    /// Whether files are refused whose pages aren't all authenticated.
    pub gcm_only: bool,
}

/// Parses the words of a command line, without the program's name. None if they aren't a valid command.
pub fn command_of(alloc: Global, words: &Words) -> Result<Option<Command>, OutOfMemory>
    ensures { IfOk result (λ command. command ≡ defined.command_of words.now) }
{
    match words.as_slice() {
        [first, options @ ..] => match verb_of(first.as_str()) {
            Some(verb) => command_with(alloc, verb, options),
            None => Ok(None),
        },
        [] => Ok(None),
    }
}

/// Parses the options of a command.
fn command_with(alloc: Global, verb: Verb, options: &[Text]) -> Result<Option<Command>, OutOfMemory>
    ensures { IfOk result (λ command. command ≡ defined.command_with verb options.now) }
{
    if !are_options(verb, options) {
        return Ok(None);
    }
    match verb {
        Verb::Module => module_of(alloc, options),
        Verb::Thrift => thrift_of(alloc, options),
        Verb::Footer => footer_of(alloc, options),
    }
}

/// Parses the options of `module`.
fn module_of(alloc: Global, options: &[Text]) -> Result<Option<Command>, OutOfMemory>
    ensures { IfOk result (λ command. command ≡ defined.module_of options.now) }
{
    let Some(key) = value_of(Verb::Module, "--key", options) else {
        return Ok(None);
    };
    let Some(data) = value_of(Verb::Module, "--aad", options) else {
        return Ok(None);
    };
    let Some(file) = value_of(Verb::Module, "--file", options) else {
        return Ok(None);
    };
    module_with(alloc, key, data, file)
}

/// Makes the command `module` from the values of its options.
fn module_with(
    alloc: Global,
    key: &str,
    associated_data: &str,
    file: &str,
) -> Result<Option<Command>, OutOfMemory>
    ensures { IfOk result (λ command. command ≡
        defined.module_with key.now associated_data.now file.now) }
{
    let Some(key) = key_of_hex(alloc, key)? else {
        return Ok(None);
    };
    let Some(associated_data) = associated_data_of_hex(alloc, associated_data)? else {
        return Ok(None);
    };
    let file = Text::copy_of(alloc, file)?;
    Ok(Some(Command::Module(ModuleArgs {
        key,
        associated_data,
        file,
    })))
}

/// Parses the options of `thrift`.
fn thrift_of(alloc: Global, options: &[Text]) -> Result<Option<Command>, OutOfMemory>
    ensures { IfOk result (λ command. command ≡ defined.thrift_of options.now) }
{
    let Some(file) = value_of(Verb::Thrift, "--file", options) else {
        return Ok(None);
    };
    let file = Text::copy_of(alloc, file)?;
    Ok(Some(Command::Thrift(ThriftArgs { file })))
}

/// Parses the options of `footer`.
fn footer_of(alloc: Global, options: &[Text]) -> Result<Option<Command>, OutOfMemory>
    ensures { IfOk result (λ command. command ≡ defined.footer_of options.now) }
{
    let Some(file) = value_of(Verb::Footer, "--file", options) else {
        return Ok(None);
    };
    let Some(keys) = value_of(Verb::Footer, "--keys", options) else {
        return Ok(None);
    };
    let prefix = value_of(Verb::Footer, "--prefix", options);
    let gcm_only = has_flag(Verb::Footer, "--gcm-only", options);
    footer_with(alloc, gcm_only, file, keys, prefix)
}

/// Makes the command `footer` from the values of its options and its flag.
fn footer_with(
    alloc: Global,
    gcm_only: bool,
    file: &str,
    keys: &str,
    prefix: Option<&str>,
) -> Result<Option<Command>, OutOfMemory>
    ensures { IfOk result (λ command. command ≡ defined.footer_with gcm_only file.now keys.now
        (option_copied prefix.entry)) }
{
    let Some(prefix) = prefix_with(alloc, prefix)? else {
        return Ok(None);
    };
    let file = Text::copy_of(alloc, file)?;
    let keys = Text::copy_of(alloc, keys)?;
    Ok(Some(Command::Footer(FooterArgs {
        file,
        keys,
        prefix,
        gcm_only,
    })))
}

/// Parses the AAD prefix, if one is supplied. The outer None means that its text is invalid.
fn prefix_with(alloc: Global, text: Option<&str>) -> Result<Option<Option<AadPrefix>>, OutOfMemory>
    ensures { IfOk result (λ prefix. prefix ≡ defined.prefix_with (option_copied text.entry)) }
{
    match text {
        None => Ok(Some(None)),
        Some(text) => match prefix_of_hex(alloc, text)? {
            None => Ok(None),
            Some(prefix) => Ok(Some(Some(prefix))),
        },
    }
}
