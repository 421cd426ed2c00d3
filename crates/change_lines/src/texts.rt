//! The lines of a text of changes.

ghost use Rattle.std.specs.Prelude.{◌≡◌, ◌<◌, ◌^◌, length, map, option_map, IfOk};
ghost use Rattle.fc_values.specs.Types.{input_of};
ghost use Rattle.edit_commands.specs.Lines.{words_of};
ghost use Rattle.change_lines.specs.Changes.{change_of, changes_in};
ghost use Rattle.changes.specs.Code.{change_in, line_in};

use crate::lines::change;
use changes::{Change, ChangeLine};
use edit_commands::line_words;
use fc_io::{first_line, line_text};
use fc_values::{InputDecl, Memory};
use std::alloc::Global;

// What the text of a line says.
fn read_line(alloc: Global, inputs: &[InputDecl], text: &[u8]) -> Result<Option<Change>, Memory>
    requires { length inputs.now < 2 ^ 32 }
    ensures { IfOk result (λ c.
        option_map change_in c ≡ change_of (map input_of inputs.now) (words_of text.now)) }
{
    let words = line_words(alloc, text)?;
    change(alloc, inputs, &words)
}

/// What each line of a text says that isn't empty, with its number, in a program with these inputs.
pub fn read_changes(
    alloc: Global,
    inputs: &[InputDecl],
    text: &[u8],
) -> Result<Vec<ChangeLine>, Memory>
    requires inputs { length inputs.now < 2 ^ 32 }
    requires short { length text.now < 2 ^ 32 }
    ensures { IfOk result (λ ls. map line_in ls.items ≡ changes_in (map input_of inputs.now) text.now) }
{
    let mut lines = Vec::new(alloc);
    let mut number = 0;
    let mut rest = text;
    'lines: while !rest.is_empty() {
        let (front, back) = rest.split_at(first_line(rest));
        let line = line_text(front);
        number += 1;
        if !line.is_empty() {
            let change = read_line(alloc, inputs, line)?;
            lines.push(ChangeLine { number, change })?;
        }
        rest = back;
    }
    Ok(lines)
}
