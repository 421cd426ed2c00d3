//! Laws of the definitions.

ghost use Rattle.edit_commands.specs.Agreement.{CommandsAgree, FaultsAgree, PartsAgree, ReplaysAgree, StepsAgree};
ghost use Rattle.edit_commands.specs.JudgedCommands.{ScriptsAreJudged};
ghost use Rattle.edit_commands.specs.ScriptCommands.{ScriptsHaveCommands};
ghost use Rattle.edit_commands.specs.Values.{ValuesAreRead};

use value_trees::lists_have_exports;

/// A value is read from exactly its texts: numbers, `true`, `false`, and `(v,w)` of any nesting.
pub fn values_are_read()
    ensures { ValuesAreRead }
{}

/// Entries and the same ones lead to the same core, or are refused at the same entry for the same reason; after their
/// last edit they are equal. Two readings of a script ask for the same.
pub fn entries_agree()
    ensures steps { StepsAgree }
    ensures replays { ReplaysAgree }
    ensures faults { FaultsAgree }
    ensures parts { PartsAgree }
    ensures commands { CommandsAgree }
{}

/// The commands of a script may be given to the cores to which those before them lead: edits are allowed, a device that
/// leaves doesn't fly, rounds are at least one, and the firings stay within their limit.
pub fn scripts_are_judged()
    ensures { ScriptsAreJudged }
{}

/// A script in which no line has a fault has commands, and they may be done.
pub fn scripts_have_commands()
    ensures { ScriptsHaveCommands }
{
    lists_have_exports();
}
