//! The words of a line.

ghost use Rattle.std.specs.Prelude.{◌≡◌, ◌<◌, ◌^◌, length, IfOk, map, option_map};
ghost use Rattle.fc_values.specs.Types.{input_of};
ghost use Rattle.edit_commands.specs.Code.{texts};
ghost use Rattle.change_lines.specs.Changes.{set_words, link_words, unlink_words, leave_words, join_words};
ghost use Rattle.change_lines.specs.Changes.{change_word, change_of};
ghost use Rattle.changes.specs.Code.{change_in};

use crate::words::{possible, possibles, weights};
use changes::Change;
use edit_commands::{device_number, input_number};
use fc_values::{InputDecl, Memory, is_name, number};
use std::alloc::Global;

/// What a line begins with.
#[derive(Clone, Copy, Debug, PartialEq, Eq)]
pub(crate) enum ChangeWord {
    Set,
    Link,
    Unlink,
    Leave,
    Join,
}

// The first word of a line.
fn change_word(word: &[u8]) -> Option<ChangeWord>
    ensures { result ≡ change_word word.now }
{
    if word == b"set".as_slice() {
        return Some(ChangeWord::Set);
    }
    if word == b"link".as_slice() {
        return Some(ChangeWord::Link);
    }
    if word == b"unlink".as_slice() {
        return Some(ChangeWord::Unlink);
    }
    if word == b"leave".as_slice() {
        return Some(ChangeWord::Leave);
    }
    if word == b"join".as_slice() {
        return Some(ChangeWord::Join);
    }
    None
}

fn set(alloc: Global, inputs: &[InputDecl], words: &[&[u8]]) -> Result<Option<Change>, Memory>
    requires { length inputs.now < 2 ^ 32 }
    ensures { IfOk result (λ c. option_map change_in c ≡ set_words (map input_of inputs.now) (texts words.now)) }
{
    let [device, name, values] = words else {
        return Ok(None);
    };
    if !is_name(name) {
        return Ok(None);
    }
    let Some(device) = number(device) else {
        return Ok(None);
    };
    let Some(values) = possible(alloc, values)? else {
        return Ok(None);
    };
    Ok(Some(Change::Set(device, input_number(inputs, name), values)))
}

fn link(words: &[&[u8]]) -> Option<Change>
    ensures { option_map change_in result ≡ link_words (texts words.now) }
{
    let [a, b, w] = words else {
        return None;
    };
    let (a, b, weights) = (number(a)?, number(b)?, weights(w)?);
    Some(Change::Link(a, b, weights))
}

fn unlink(words: &[&[u8]]) -> Option<Change>
    ensures { option_map change_in result ≡ unlink_words (texts words.now) }
{
    let [a, b] = words else {
        return None;
    };
    let (a, b) = (number(a)?, number(b)?);
    Some(Change::Unlink(a, b))
}

fn leave(words: &[&[u8]]) -> Option<Change>
    ensures { option_map change_in result ≡ leave_words (texts words.now) }
{
    let [device] = words else {
        return None;
    };
    let device = number(device)?;
    Some(Change::Leave(device))
}

fn join(alloc: Global, words: &[&[u8]]) -> Result<Option<Change>, Memory>
    ensures { IfOk result (λ c. option_map change_in c ≡ join_words (texts words.now)) }
{
    let [device, inputs @ ..] = words else {
        return Ok(None);
    };
    let Some(device) = device_number(device) else {
        return Ok(None);
    };
    let Some(inputs) = possibles(alloc, inputs)? else {
        return Ok(None);
    };
    Ok(Some(Change::Join(device, inputs)))
}

/// What the words of a line say, in a program with these inputs.
pub(crate) fn change(
    alloc: Global,
    inputs: &[InputDecl],
    words: &[&[u8]],
) -> Result<Option<Change>, Memory>
    requires { length inputs.now < 2 ^ 32 }
    ensures { IfOk result (λ c. option_map change_in c ≡ change_of (map input_of inputs.now) (texts words.now)) }
{
    let [word, rest @ ..] = words else {
        return Ok(None);
    };
    let Some(word) = change_word(word) else {
        return Ok(None);
    };
    match word {
        ChangeWord::Set => set(alloc, inputs, rest),
        ChangeWord::Link => Ok(link(rest)),
        ChangeWord::Unlink => Ok(unlink(rest)),
        ChangeWord::Leave => Ok(leave(rest)),
        ChangeWord::Join => join(alloc, rest),
    }
}
