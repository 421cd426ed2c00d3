//! Words that say which values and weights are possible.

ghost use Rattle.std.specs.Prelude.{◌≡◌, ◌≤◌, ◌==◌, not, length, map, IfOk, option_map};
ghost use Rattle.std.specs.List.{prefix_len};
ghost use Rattle.fc_values.specs.Values.{local_of};
ghost use Rattle.edit_commands.specs.Code.{texts};
ghost use Rattle.edit_commands.specs.Values.{written_value};
ghost use Rattle.change_lines.specs.Possibles.{before_dot, dotted, range_of_word, range_with};
ghost use Rattle.change_lines.specs.Possibles.{numbers_of, one_number, one_value, possible_of, possibles_of, weights_of};

use changes::{Possible, Range, Weights};
use edit_commands::read_value;
use fc_values::{Local, Memory, number};
use std::alloc::Global;

// The range between two numbers.
fn range_with(low: &[u8], high: &[u8]) -> Option<Range>
    ensures { result ≡ range_with low.now high.now }
{
    let (least, greatest) = (number(low)?, number(high)?);
    if least > greatest {
        return None;
    }
    Some(Range { least, greatest })
}

// How many bytes come before the first dot.
fn before_dot(word: &[u8]) -> usize
    ensures value { result ≡ before_dot word.now }
    ensures within { result ≤ length word.now }
{
    word.iter().take_while(|byte| **byte != b'.').count()
}

// The range that a number says, and two dots and a number behind it.
fn dotted(low: &[u8], behind: &[u8]) -> Option<Range>
    ensures { result ≡ dotted low.now behind.now }
{
    let [first, second, high @ ..] = behind else {
        return None;
    };
    if *first == b'.' && *second == b'.' {
        range_with(low, high)
    } else {
        None
    }
}

// The range that a word says.
fn read_range(word: &[u8]) -> Option<Range>
    ensures { result ≡ range_of_word word.now }
{
    let (low, behind) = word.split_at(before_dot(word));
    dotted(low, behind)
}

// The range of one number.
fn one_number(number: u32) -> Range
    ensures { result ≡ one_number number }
{
    Range {
        least: number,
        greatest: number,
    }
}

// What one value says.
fn one_value(value: &Local) -> Possible
    ensures { result ≡ one_value (local_of value.now) }
{
    match value {
        Local::Int(number) => Possible::Numbers(one_number(*number)),
        Local::Bool(truth) => Possible::Truth(*truth),
        Local::Pair(_, _) => Possible::Pair,
    }
}

// What a word says that writes a value.
fn value(alloc: Global, word: &[u8]) -> Result<Option<Possible>, Memory>
    ensures { IfOk result (λ p. p ≡ option_map one_value (written_value word.now)) }
{
    let Some(value) = read_value(alloc, word)? else {
        return Ok(None);
    };
    Ok(Some(one_value(&value)))
}

/// The values that a word says an input may have.
pub(crate) fn possible(alloc: Global, word: &[u8]) -> Result<Option<Possible>, Memory>
    ensures { IfOk result (λ p. p ≡ possible_of word.now) }
{
    if word == b"any".as_slice() {
        return Ok(Some(Possible::Any));
    }
    if let Some(range) = read_range(word) {
        return Ok(Some(Possible::Numbers(range)));
    }
    value(alloc, word)
}

/// Those that words say, if each says some.
pub(crate) fn possibles(alloc: Global, words: &[&[u8]]) -> Result<Option<Vec<Possible>>, Memory>
    ensures { IfOk result (λ ps. option_map (λ v. v.items) ps ≡ possibles_of (texts words.now)) }
{
    let mut values = Vec::new(alloc);
    for word in words {
        let Some(value) = possible(alloc, word)? else {
            return Ok(None);
        };
        values.push(value)?;
    }
    Ok(Some(values))
}

// The numbers that a word says: a range, or one.
fn numbers(word: &[u8]) -> Option<Range>
    ensures { result ≡ numbers_of word.now }
{
    if let Some(range) = read_range(word) {
        return Some(range);
    }
    let number = number(word)?;
    Some(one_number(number))
}

/// The weights that a word says a link may have.
pub(crate) fn weights(word: &[u8]) -> Option<Weights>
    ensures { result ≡ weights_of word.now }
{
    if word == b"any".as_slice() {
        return Some(Weights::Any);
    }
    let range = numbers(word)?;
    Some(Weights::Range(range))
}
