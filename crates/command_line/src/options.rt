// Look-up and validation of options and flags.
ghost use Rattle.std.specs.Prelude.{◌≡◌};
ghost use Rattle.std.specs.Option.{option_copied};
ghost use Rattle.command_line.specs.Options as defined;

use crate::verb::{Verb, is_flag, takes};
use pme_base::Text;

/// The value of the option `name`: the word after its first occurrence.
pub fn value_of<'a>(verb: Verb, name: &str, options: &'a [Text]) -> Option<&'a str>
    ensures { option_copied result ≡ defined.value_of verb name.now options.now }
{
    let mut rest = options;
    while let [first, after @ ..] = rest {
        if is_flag(verb, first.as_str()) {
            rest = after;
            continue;
        }
        let [value, after @ ..] = after else {
            return None;
        };
        if first.as_str() == name {
            return Some(value.as_str());
        }
        rest = after;
    }
    None
}

/// Whether the flag `name` is given.
pub fn has_flag(verb: Verb, name: &str, options: &[Text]) -> bool
    ensures { result ≡ defined.has_flag verb name.now options.now }
{
    let mut rest = options;
    while let [first, after @ ..] = rest {
        if is_flag(verb, first.as_str()) {
            if first.as_str() == name {
                return true;
            }
            rest = after;
            continue;
        }
        let [_value, after @ ..] = after else {
            return false;
        };
        rest = after;
    }
    false
}

#[tactic(auto, using(crate::proofs::Flags::flag_again, crate::proofs::Flags::flag_once))]
/// Whether the words are options and flags of the command, each given once, and each option followed by its value.
pub fn are_options(verb: Verb, options: &[Text]) -> bool
    ensures { result ≡ defined.are_options verb options.now }
{
    let mut rest = options;
    while let [first, after @ ..] = rest {
        if is_flag(verb, first.as_str()) {
            if has_flag(verb, first.as_str(), after) {
                return false;
            }
            rest = after;
            continue;
        }
        let [_value, after @ ..] = after else {
            return false; // its value is missing
        };
        if !is_option(verb, first.as_str(), after) {
            return false;
        }
        rest = after;
    }
    true
}

/// Whether the command has an option of this name, which is not given again in the words after it.
#[tactic(auto, unfolding(crate::specs::Options::is_option))]
fn is_option(verb: Verb, name: &str, after: &[Text]) -> bool
    ensures { result ≡ defined.is_option verb name.now after.now }
{
    if !takes(verb, name) {
        return false;
    }
    value_of(verb, name, after).is_none()
}
