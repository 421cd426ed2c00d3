//! The lines that are edits.

ghost use Rattle.std.specs.Prelude.{◌≡◌, ◌<◌, ◌≤◌, ◌^◌, not, length, IfOk, map, option_map};
ghost use Rattle.std.specs.List.{prefix_len};
ghost use Rattle.std.specs.Str.{bytes_eq};
ghost use Rattle.fc_values.specs.Types.{input_of};
ghost use Rattle.edit_commands.specs.EditLines.{edit_line, edit_word, link_line, unlink_line, set_line};
ghost use Rattle.edit_commands.specs.EditLines.{poke_line, join_line, leave_line, input_index};
ghost use Rattle.edit_commands.specs.Code.{line_of, texts, ReadsLine, ReadFits};

use crate::values::{read_value, read_values};
use crate::words::device_number;
use fc_values::{InputDecl, Local, Memory, is_name, number};
use std::alloc::Global;
use topology::Device;

/// An edit as a line says it. An input is named by its number, and a poke has the value and the kept values of an
/// export.
#[derive(Drop)]
pub(crate) enum EditLine {
    Link(u32, u32, u32),
    Unlink(u32, u32),
    Set(u32, u32, Local),
    Poke(u32, Local, Vec<Local>),
    Join(Device),
    Leave(u32),
}

fn link(words: &[&[u8]]) -> Option<EditLine>
    ensures says { option_map line_of result ≡ link_line (texts words.now) }
    ensures fits { ReadFits result }
{
    let [a, b, weight] = words else {
        return None;
    };
    let (a, b, weight) = (number(a)?, number(b)?, number(weight)?);
    Some(EditLine::Link(a, b, weight))
}

fn unlink(words: &[&[u8]]) -> Option<EditLine>
    ensures says { option_map line_of result ≡ unlink_line (texts words.now) }
    ensures fits { ReadFits result }
{
    let [a, b] = words else {
        return None;
    };
    let (a, b) = (number(a)?, number(b)?);
    Some(EditLine::Unlink(a, b))
}

// Whether an input has a name.
fn is_named(input: &InputDecl, name: &[u8]) -> bool
    ensures { result ≡ bytes_eq (input_of input.now).name name.now }
{
    input.name.text.as_slice() == name
}

// How many inputs come before the first of a name.
fn before_name(inputs: &[InputDecl], name: &[u8]) -> usize
    ensures value { result ≡ prefix_len (λ i. not (bytes_eq (input_of i).name name.now)) inputs.now }
    ensures within { result ≤ length inputs.now }
{
    inputs
        .iter()
        .take_while(|input| !is_named(input, name))
        .count()
}

/// The number of the first input of a name, or the number after the last where no input has it.
#[tactic(auto, using(crate::proofs::Prefixes::prefix_len_mapped))]
pub fn input_number(inputs: &[InputDecl], name: &[u8]) -> u32
    requires { length inputs.now < 2 ^ 32 }
    ensures { result ≡ input_index (map input_of inputs.now) name.now }
{
    before_name(inputs, name) as u32
}

fn set(alloc: Global, inputs: &[InputDecl], words: &[&[u8]]) -> Result<Option<EditLine>, Memory>
    requires { length inputs.now < 2 ^ 32 }
    ensures says { IfOk result (ReadsLine (set_line (map input_of inputs.now) (texts words.now))) }
    ensures fits { IfOk result ReadFits }
{
    let [device, name, value] = words else {
        return Ok(None);
    };
    if !is_name(name) {
        return Ok(None);
    }
    let Some(device) = number(device) else {
        return Ok(None);
    };
    let Some(value) = read_value(alloc, value)? else {
        return Ok(None);
    };
    let input = input_number(inputs, name);
    Ok(Some(EditLine::Set(device, input, value)))
}

fn poke(alloc: Global, words: &[&[u8]]) -> Result<Option<EditLine>, Memory>
    ensures says { IfOk result (ReadsLine (poke_line (texts words.now))) }
    ensures fits { IfOk result ReadFits }
{
    let [device, value, kept @ ..] = words else {
        return Ok(None);
    };
    let Some(device) = number(device) else {
        return Ok(None);
    };
    let Some(value) = read_value(alloc, value)? else {
        return Ok(None);
    };
    let Some(kept) = read_values(alloc, kept)? else {
        return Ok(None);
    };
    Ok(Some(EditLine::Poke(device, value, kept)))
}

fn join(alloc: Global, words: &[&[u8]]) -> Result<Option<EditLine>, Memory>
    ensures says { IfOk result (ReadsLine (join_line (texts words.now))) }
    ensures fits { IfOk result ReadFits }
{
    let [device, inputs @ ..] = words else {
        return Ok(None);
    };
    let Some(id) = device_number(device) else {
        return Ok(None);
    };
    let Some(inputs) = read_values(alloc, inputs)? else {
        return Ok(None);
    };
    Ok(Some(EditLine::Join(Device { id, inputs })))
}

fn leave(words: &[&[u8]]) -> Option<EditLine>
    ensures says { option_map line_of result ≡ leave_line (texts words.now) }
    ensures fits { ReadFits result }
{
    let [device] = words else {
        return None;
    };
    let device = number(device)?;
    Some(EditLine::Leave(device))
}

/// What a line that is an edit begins with.
#[derive(Clone, Copy, Debug, PartialEq, Eq)]
pub(crate) enum EditWord {
    Link,
    Unlink,
    Set,
    Poke,
    Join,
    Leave,
}

// The first word of an edit.
fn edit_word(word: &[u8]) -> Option<EditWord>
    ensures { result ≡ edit_word word.now }
{
    if word == b"link".as_slice() {
        return Some(EditWord::Link);
    }
    if word == b"unlink".as_slice() {
        return Some(EditWord::Unlink);
    }
    if word == b"set".as_slice() {
        return Some(EditWord::Set);
    }
    if word == b"poke".as_slice() {
        return Some(EditWord::Poke);
    }
    if word == b"join".as_slice() {
        return Some(EditWord::Join);
    }
    if word == b"leave".as_slice() {
        return Some(EditWord::Leave);
    }
    None
}

/// The edit that the words of a line say, in a program with these inputs.
pub(crate) fn edit_line(
    alloc: Global,
    inputs: &[InputDecl],
    words: &[&[u8]],
) -> Result<Option<EditLine>, Memory>
    requires { length inputs.now < 2 ^ 32 }
    ensures says { IfOk result (ReadsLine (edit_line (map input_of inputs.now) (texts words.now))) }
    ensures fits { IfOk result ReadFits }
{
    let [word, rest @ ..] = words else {
        return Ok(None);
    };
    let Some(word) = edit_word(word) else {
        return Ok(None);
    };
    match word {
        EditWord::Link => Ok(link(rest)),
        EditWord::Unlink => Ok(unlink(rest)),
        EditWord::Set => set(alloc, inputs, rest),
        EditWord::Poke => poke(alloc, rest),
        EditWord::Join => join(alloc, rest),
        EditWord::Leave => Ok(leave(rest)),
    }
}
