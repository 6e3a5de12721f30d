// Laws of the command-line definitions, as the contract of an empty function.
ghost use Rattle.command_line.specs.Lines.{LinesAreOptions, OptionsAreLines, ValuesAreGiven, FlagsAreGiven, LinesAskByGivens, OrderIsFree, CommandsHaveLines};

/// The words after the name of a command are exactly its options, each followed by its value, and its flags, in any order
/// and each name at most once; a value or a flag is found at any position; so the parsed command doesn't depend on the
/// order.
pub fn options_stand_in_any_order()
    ensures options { LinesAreOptions }
    ensures lines { OptionsAreLines }
    ensures values { ValuesAreGiven }
    ensures flags { FlagsAreGiven }
    ensures asked { LinesAskByGivens }
    ensures order { OrderIsFree }
    ensures whole { CommandsHaveLines }
{}
