//! Laws of the definitions.

ghost use Rattle.command_frame.specs.Inputs.{OneInput, OneProgramText, OneSource, TextsNameInputs, TextsUnfold};
ghost use Rattle.command_frame.specs.Resuming.{TablesResume};
ghost use Rattle.command_frame.specs.Sections.{SectionsAreWithin};
ghost use Rattle.command_frame.specs.Starts.{InputsAreRead, InputsStart};

use fc_lexer::{one_reading, spans_rise};
use fc_parser::{derived_is_printable, few_declarations, one_meaning};
use fc_types::{one_first_fault, typed_or_at_fault};
use net_json::{accepted_scenes_fit, tables_read_back};
use unfold::programs_unfold;

/// A text derives one program, or is refused for one cause, and not both.
pub fn one_source()
    ensures { OneSource }
{
    one_reading();
    one_meaning();
}

/// A text is one typed program within the limits, or is refused for one cause, and not both.
pub fn one_program_text()
    ensures { OneProgramText }
{
    one_source();
    typed_or_at_fault();
    one_first_fault();
}

/// The texts of a program, within the limit, and a scene are read as one of each, or are refused for one cause, and not
/// both.
pub fn one_input()
    ensures { OneInput }
{
    one_program_text();
}

/// What a program that is read unfolds to is that of a program of nodes.
pub fn texts_unfold()
    ensures { TextsUnfold }
{
    spans_rise();
    derived_is_printable();
    few_declarations();
    programs_unfold();
}

/// The inputs of a program's text have names of the language.
pub fn texts_name_inputs()
    ensures { TextsNameInputs }
{
    derived_is_printable();
}

/// No section is longer than its input.
pub fn sections_are_within()
    ensures { SectionsAreWithin }
{}

/// An accepted input is the program of its text, and a scene that starts a good core of it.
pub fn inputs_start()
    ensures { InputsStart }
{
    accepted_scenes_fit();
}

/// A table that was written, given back as the table of a scene of the same network, is read to the same rows, and the
/// scene starts from the same exports.
pub fn tables_resume()
    ensures { TablesResume }
{
    tables_read_back();
}

/// The texts of a program and a scene are read to one thing, which unfolds and starts.
pub fn inputs_are_read()
    ensures { InputsAreRead }
{
    one_input();
    texts_unfold();
    inputs_start();
}
