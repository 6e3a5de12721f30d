// The names of the commands, and their options and flags.
ghost use Rattle.std.specs.Prelude.{◌≡◌};
ghost use Rattle.command_line.specs.Verbs as defined;

/// A command, without its arguments.
#[derive(Clone, Copy, Drop)]
pub enum Verb {
    Module,
    Thrift,
    Footer,
}

/// The command with the name `word`.
pub fn verb_of(word: &str) -> Option<Verb>
    ensures { result ≡ defined.verb_of word.now }
{
    match word {
        "module" => Some(Verb::Module),
        "thrift" => Some(Verb::Thrift),
        "footer" => Some(Verb::Footer),
        _ => None,
    }
}

/// Whether the command has an option of this name, which takes a value.
pub fn takes(verb: Verb, name: &str) -> bool
    ensures { result ≡ defined.takes verb name.now }
{
    match verb {
        Verb::Module => {
            if name == "--key" {
                return true;
            }
            if name == "--aad" {
                return true;
            }
            name == "--file"
        }
        Verb::Thrift => name == "--file",
        Verb::Footer => {
            if name == "--file" {
                return true;
            }
            if name == "--keys" {
                return true;
            }
            name == "--prefix"
        }
    }
}

/// Whether the command has a flag of this name, which takes no value.
pub fn is_flag(verb: Verb, name: &str) -> bool
    ensures { result ≡ defined.is_flag verb name.now }
{
    match verb {
        Verb::Module => false,
        Verb::Thrift => false,
        Verb::Footer => name == "--gcm-only",
    }
}
