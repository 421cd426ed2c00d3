//! Scripts.

ghost use Rattle.std.specs.Prelude.{◌≡◌, ◌<◌, ◌^◌, length, map, IfOk, IfErr, OnOk, OnErr, Some, None, is_some};
ghost use Rattle.fc_values.specs.Types.{input_of};
ghost use Rattle.fc_nodes.specs.Program.{unfolding_of};
ghost use Rattle.firing_core.specs.Cores.{EditFits};
ghost use Rattle.firing_core.specs.CoreViews.{core_of, IsCore};
ghost use Rattle.firing_core.specs.Entries.{edit_of};
ghost use Rattle.edit_commands.specs.EditLines.{edit_line};
ghost use Rattle.edit_commands.specs.Judging.{IsEdit};
ghost use Rattle.edit_commands.specs.Code.{line_of, texts, LineFits, ReadsLine, ReadFits, flies_in};
ghost use Rattle.edit_commands.specs.Scripts.{OfFirings, ShowLine, ShowCommand, script_word, written_rounds, if_mixed};
ghost use Rattle.edit_commands.specs.Scripts.{mixed_edit, run_line, scramble_line, show_line, flies, firings_fault};
ghost use Rattle.edit_commands.specs.Scripts.{with_firings, with_edit, IsScript, RefusesScript, AreCommands};
ghost use Rattle.edit_commands.specs.Scripts.{RefusesLines, AllCommandsFit, at_start, command_of, numbered};
ghost use Rattle.edit_commands.specs.ScriptCode.{progress_of, program_in, IsWithin, IsReady, Leaves, IsAtFault};
ghost use Rattle.edit_commands.specs.ScriptCode.{edit_in, mixed_in, mix_in, line_in, text_in, fault_in, IsFaultAt};

use crate::edits::{EditLine, edit_line};
use crate::judging::judge;
use crate::lines::{count_lines, line_words};
use crate::types::{Fault, Line, LineFailure, ScriptCommand, ScriptFault};
use fc_io::{first_line, line_text};
use fc_nodes::Unfolded;
use fc_values::{InputDecl, Memory, number};
use firing_core::{Core, Edit};
use std::alloc::Global;
use topology::Network;

/// The most lines of a script.
pub const MOST_LINES: usize = 4096;

/// The most lines of a script that scramble.
pub const MOST_SCRAMBLES: u32 = 4;

/// The most firings of a script: the sum over its lines of rounds times devices.
pub const MOST_FIRINGS: u64 = 1_000_000;

/// What a line that isn't an edit begins with.
#[derive(Clone, Copy, Debug, PartialEq, Eq)]
pub(crate) enum ScriptWord {
    Run,
    Mix,
    Scramble,
    Show,
}

// The first word of a line that isn't an edit.
fn script_word(word: &[u8]) -> Option<ScriptWord>
    ensures { result ≡ script_word word.now }
{
    if word == b"run".as_slice() {
        return Some(ScriptWord::Run);
    }
    if word == b"mix".as_slice() {
        return Some(ScriptWord::Mix);
    }
    if word == b"scramble".as_slice() {
        return Some(ScriptWord::Scramble);
    }
    if word == b"show".as_slice() {
        return Some(ScriptWord::Show);
    }
    None
}

// The number of rounds that a word writes, at least one.
fn rounds(word: &[u8]) -> Option<u32>
    ensures value { result ≡ written_rounds word.now }
{
    let rounds = number(word)?;
    if rounds >= 1 { Some(rounds) } else { None }
}

/// What the lines before leave: the network, whether a `run` or a `mix` has ended all flights, scrambles and firings.
#[derive(Drop)]
pub(crate) struct Progress {
    net: Network,
    quiet: bool,
    scrambles: u32,
    firings: u64,
}

/// What a line is judged by: the program, the core at the start, and the number of the line.
#[derive(Drop)]
pub(crate) struct LineContext<'a> {
    program: &'a Unfolded,
    core: &'a Core,
    number: u32,
}

// The fault of a line that isn't one of a script's.
fn form(context: &LineContext) -> ScriptFault
    ensures { result ≡ ScriptFault.At context.now.number Fault.Form }
{
    ScriptFault::At {
        line: context.number,
        fault: Fault::Form,
    }
}

// Counts the firings of so many rounds, or the count that passes the limit.
fn add_firings(progress: &mut Progress, rounds: u64) -> Result<(), u64>
    requires rounds { rounds < 2 ^ 33 }
    requires within { IsWithin (progress_of progress.old) }
    ensures ok { OnOk result (progress_of progress.new ≡ with_firings (progress_of progress.old) rounds) }
    ensures allowed { OnOk result (firings_fault (progress_of progress.old) rounds ≡ None) }
    ensures within { OnOk result (IsWithin (progress_of progress.new)) }
    ensures refused { IfErr result (λ n. firings_fault (progress_of progress.old) rounds ≡ Some (OfFirings n)) }
{
    let devices = progress.net.devices().len() as u64;
    let firings = progress.firings + rounds * devices;
    if firings > MOST_FIRINGS {
        return Err(firings);
    }
    progress.firings = firings;
    progress.quiet = true;
    Ok(())
}

// The rounds that words say.
fn run(
    context: &LineContext,
    progress: &mut Progress,
    words: &[&[u8]],
) -> Result<ScriptCommand, ScriptFault>
    requires { IsReady context.now progress.old }
    ensures ok { IfOk result (Leaves context.now progress.old progress.new (run_line (texts words.now))) }
    ensures refused { IfErr result (IsAtFault context.now progress.old (run_line (texts words.now))) }
{
    let [word] = words else {
        return Err(form(context));
    };
    let Some(rounds) = rounds(word) else {
        return Err(form(context));
    };
    match add_firings(progress, u64::from(rounds)) {
        Ok(()) => Ok(ScriptCommand::Run(rounds)),
        Err(count) => Err(ScriptFault::Firings(count)),
    }
}

// The rubbish that words say.
fn scramble(
    context: &LineContext,
    progress: &mut Progress,
    words: &[&[u8]],
) -> Result<ScriptCommand, ScriptFault>
    requires { IsReady context.now progress.old }
    ensures ok { IfOk result (Leaves context.now progress.old progress.new (scramble_line (texts words.now))) }
    ensures refused { IfErr result (IsAtFault context.now progress.old (scramble_line (texts words.now))) }
{
    let [word] = words else {
        return Err(form(context));
    };
    let Some(seed) = number(word) else {
        return Err(form(context));
    };
    if progress.scrambles >= MOST_SCRAMBLES {
        return Err(ScriptFault::Scrambles(progress.scrambles + 1));
    }
    progress.scrambles += 1;
    Ok(ScriptCommand::Scramble(seed))
}

// The values, which no words follow.
fn show(context: &LineContext, words: &[&[u8]]) -> Result<ScriptCommand, ScriptFault>
    ensures ok { IfOk result (λ c. (show_line (texts words.now) ≡ Some ShowLine) × (command_of c ≡ ShowCommand)) }
    ensures none { OnErr result (show_line (texts words.now) ≡ None) }
    ensures form { IfErr result (λ f. f ≡ ScriptFault.At context.now.number Fault.Form) }
{
    match words {
        [] => Ok(ScriptCommand::Show),
        _ => Err(form(context)),
    }
}

// The core whose flights count.
fn known(core: &Core, quiet: bool) -> Option<&Core>
    ensures { flies_in result ≡ flies (core_of core.now) quiet }
{
    if quiet { None } else { Some(core) }
}

// The edit that a line says, which is done to the network.
fn do_line(
    alloc: Global,
    context: &LineContext,
    progress: &mut Progress,
    line: EditLine,
) -> Result<Edit, ScriptFault>
    requires { LineFits (line_of line) }
    ensures says { IfOk result (λ e. IsEdit (program_in context.now) (line_of line) (edit_of e)) }
    ensures fits { IfOk result (λ e. EditFits (program_in context.now) (edit_of e)) }
    ensures allowed { OnOk result (fault_in context.now progress.old (line_of line) ≡ None) }
    ensures after { OnOk result (progress_of progress.new ≡ with_edit (progress_of progress.old) (line_of line)) }
    ensures refused { IfErr result (IsFaultAt context.now.number (fault_in context.now progress.old (line_of line))) }
{
    let start = known(context.core, progress.quiet);
    match judge(alloc, context.program, &mut progress.net, start, line) {
        Ok(edit) => Ok(edit),
        Err(LineFailure::Bad(fault)) => Err(ScriptFault::At {
            line: context.number,
            fault,
        }),
        Err(LineFailure::Memory) => Err(ScriptFault::Memory),
    }
}

// Whether an edit may stand among firings.
fn is_mixed(line: &EditLine) -> bool
    ensures { result ≡ is_some (if_mixed (line_of line.now)) }
{
    match line {
        EditLine::Join(_) | EditLine::Leave(_) => false,
        _ => true,
    }
}

// The edit among firings that words say.
fn mixed_line(
    alloc: Global,
    inputs: &[InputDecl],
    words: &[&[u8]],
) -> Result<Option<EditLine>, Memory>
    requires { length inputs.now < 2 ^ 32 }
    ensures says { IfOk result (ReadsLine (mixed_edit (map input_of inputs.now) (texts words.now))) }
    ensures fits { IfOk result ReadFits }
{
    let Some(line) = edit_line(alloc, inputs, words)? else {
        return Ok(None);
    };
    if is_mixed(&line) {
        Ok(Some(line))
    } else {
        Ok(None)
    }
}

// The edit that the words of a line say, as a command.
fn edit_command(
    alloc: Global,
    context: &LineContext,
    progress: &mut Progress,
    words: &[&[u8]],
) -> Result<ScriptCommand, ScriptFault>
    requires { IsReady context.now progress.old }
    ensures ok { IfOk result (Leaves context.now progress.old progress.new (edit_in progress.old words.now)) }
    ensures refused { IfErr result (IsAtFault context.now progress.old (edit_in progress.old words.now)) }
{
    let inputs = &context.program.declared().inputs;
    let Some(line) = edit_line(alloc, inputs, words)? else {
        return Err(form(context));
    };
    match do_line(alloc, context, progress, line) {
        Ok(edit) => Ok(ScriptCommand::Edit(edit)),
        Err(fault) => Err(fault),
    }
}

// So many rounds after an edit among firings.
fn mix_line(
    alloc: Global,
    context: &LineContext,
    progress: &mut Progress,
    rounds: u32,
    words: &[&[u8]],
) -> Result<ScriptCommand, ScriptFault>
    requires { IsReady context.now progress.old }
    ensures ok { IfOk result (Leaves context.now progress.old progress.new (mixed_in progress.old rounds words.now)) }
    ensures refused { IfErr result (IsAtFault context.now progress.old (mixed_in progress.old rounds words.now)) }
{
    let inputs = &context.program.declared().inputs;
    let Some(line) = mixed_line(alloc, inputs, words)? else {
        return Err(form(context));
    };
    if let Err(count) = add_firings(progress, u64::from(rounds) + 1) {
        return Err(ScriptFault::Firings(count));
    }
    match do_line(alloc, context, progress, line) {
        Ok(edit) => Ok(ScriptCommand::Mix(rounds, edit)),
        Err(fault) => Err(fault),
    }
}

// The edit among firings and the rounds that words say.
fn mix(
    alloc: Global,
    context: &LineContext,
    progress: &mut Progress,
    words: &[&[u8]],
) -> Result<ScriptCommand, ScriptFault>
    requires { IsReady context.now progress.old }
    ensures ok { IfOk result (Leaves context.now progress.old progress.new (mix_in progress.old words.now)) }
    ensures refused { IfErr result (IsAtFault context.now progress.old (mix_in progress.old words.now)) }
{
    let [word, rest @ ..] = words else {
        return Err(form(context));
    };
    let Some(rounds) = rounds(word) else {
        return Err(form(context));
    };
    mix_line(alloc, context, progress, rounds, rest)
}

// The command that the text of a line says.
fn read_command(
    alloc: Global,
    context: &LineContext,
    progress: &mut Progress,
    text: &[u8],
) -> Result<ScriptCommand, ScriptFault>
    requires { IsReady context.now progress.old }
    ensures ok { IfOk result (Leaves context.now progress.old progress.new (text_in progress.old text.now)) }
    ensures refused { IfErr result (IsAtFault context.now progress.old (text_in progress.old text.now)) }
{
    let words = line_words(alloc, text)?;
    read_words(alloc, context, progress, &words)
}

// The command that the words of a line say.
fn read_words(
    alloc: Global,
    context: &LineContext,
    progress: &mut Progress,
    words: &[&[u8]],
) -> Result<ScriptCommand, ScriptFault>
    requires { IsReady context.now progress.old }
    ensures ok { IfOk result (Leaves context.now progress.old progress.new (line_in progress.old words.now)) }
    ensures refused { IfErr result (IsAtFault context.now progress.old (line_in progress.old words.now)) }
{
    let [word, rest @ ..] = words else {
        return Err(form(context));
    };
    let Some(word) = script_word(word) else {
        return edit_command(alloc, context, progress, words);
    };
    match word {
        ScriptWord::Run => run(context, progress, rest),
        ScriptWord::Mix => mix(alloc, context, progress, rest),
        ScriptWord::Scramble => scramble(context, progress, rest),
        ScriptWord::Show => show(context, rest),
    }
}

// The lines of a script that has no more of them than it may.
fn read_lines(
    alloc: Global,
    program: &Unfolded,
    core: &Core,
    text: &[u8],
) -> Result<Vec<Line>, ScriptFault>
    requires program { core.now.program ≡ program.now }
    requires short { length text.now < 2 ^ 32 }
    ensures script { IfOk result (λ ls.
        AreCommands (unfolding_of program.now) (core_of core.now) text.now (map numbered ls.items)) }
    ensures fits { IfOk result (λ ls. AllCommandsFit (unfolding_of program.now) (map numbered ls.items)) }
    ensures refused { IfErr result (RefusesLines (unfolding_of program.now) (core_of core.now) text.now) }
{
    let mut progress = start(alloc, core)?;
    let mut commands = Vec::new(alloc);
    let mut number = 0;
    let mut rest = text;
    'lines: while !rest.is_empty() {
        let (front, back) = rest.split_at(first_line(rest));
        let line = line_text(front);
        number += 1;
        if !line.is_empty() {
            let context = LineContext {
                program,
                core,
                number,
            };
            let command = match read_command(alloc, &context, &mut progress, line) {
                Ok(command) => command,
                Err(fault) => return Err(fault),
            };
            commands.push(Line { number, command })?;
        }
        rest = back;
    }
    Ok(commands)
}

// What there is before the first line.
fn start(alloc: Global, core: &Core) -> Result<Progress, Memory>
    ensures progress { IfOk result (λ p. progress_of p ≡ at_start (core_of core.now).net) }
    ensures core { OnOk result (IsCore core.now) }
{
    let net = core.net().copy(alloc)?;
    Ok(Progress {
        net,
        quiet: false,
        scrambles: 0,
        firings: 0,
    })
}

/// The lines of a script with their commands: each is judged against the network that the lines before it leave.
/// `Lines` comes first; else the first line is named that has a fault or passes a limit.
pub fn read_script(
    alloc: Global,
    program: &Unfolded,
    core: &Core,
    text: &[u8],
) -> Result<Vec<Line>, ScriptFault>
    requires program { core.now.program ≡ program.now }
    requires short { length text.now < 2 ^ 32 }
    ensures script { IfOk result (λ ls.
        IsScript (unfolding_of program.now) (core_of core.now) text.now (map numbered ls.items)) }
    ensures fits { IfOk result (λ ls. AllCommandsFit (unfolding_of program.now) (map numbered ls.items)) }
    ensures refused { IfErr result (RefusesScript (unfolding_of program.now) (core_of core.now) text.now) }
{
    let count = count_lines(text);
    if count > MOST_LINES {
        return Err(ScriptFault::Lines(count as u32));
    }
    read_lines(alloc, program, core, text)
}
