//! Values, read from their texts without recursion.

ghost use Rattle.std.specs.Prelude.{◌≡◌, ◌<◌, ◌≤◌, ◌+◌, ◌^◌, length, map, IfOk, OnOk, IfSome, ◌∷◌, option_map};
ghost use Rattle.fc_values.specs.Values.{local_of};
ghost use Rattle.edit_commands.specs.Values.{atom_of, written_value, value_with, part_since};
ghost use Rattle.edit_commands.specs.EditLines.{values_of};
ghost use Rattle.edit_commands.specs.Narrow.{narrow, stand_in, atom_part, pair_part, part_of as part_view};
ghost use Rattle.edit_commands.specs.Narrow.{half_of, open_of, since_of, StandsBefore, TakesHalf};
ghost use Rattle.edit_commands.specs.Narrow.{ReadsOpening, ReadsComma, ReadsClosing, ReadsOther, ReadsByte};
ghost use Rattle.edit_commands.specs.Code.{texts};

use fc_values::{Local, Memory, number};
use std::alloc::Global;

/// The most numbers and truth values in a value of a type.
pub const MOST_LEAVES: u32 = 8;

/// A value, with how many numbers and truth values it has, or one that has too many for every type.
#[derive(Drop)]
pub(crate) enum ValuePart {
    Small(Local, u8),
    Wide,
}

/// What stands since the last mark: the bytes from an index on, or a pair that was closed.
#[derive(Drop)]
pub(crate) enum Since {
    Bytes(usize),
    Closed(ValuePart),
}

// The number or truth value that a text writes.
fn atom(text: &[u8]) -> Option<Local>
    ensures { option_map local_of result ≡ atom_of text.now }
{
    if text == b"true".as_slice() {
        return Some(Local::Bool(true));
    }
    if text == b"false".as_slice() {
        return Some(Local::Bool(false));
    }
    let number = number(text)?;
    Some(Local::Int(number))
}

// The part that a text writes that is no pair.
fn atom_part(text: &[u8]) -> Option<ValuePart>
    ensures { option_map part_view result ≡ option_map atom_part (atom_of text.now) }
{
    let value = atom(text)?;
    Some(ValuePart::Small(value, 1))
}

// The pair of two parts.
fn pair(alloc: Global, first: ValuePart, second: ValuePart) -> Result<ValuePart, Memory>
    ensures { IfOk result (λ p. part_view p ≡ pair_part (part_view first) (part_view second)) }
{
    let ValuePart::Small(a, m) = first else {
        return Ok(ValuePart::Wide);
    };
    let ValuePart::Small(b, n) = second else {
        return Ok(ValuePart::Wide);
    };
    let leaves = u32::from(m) + u32::from(n);
    if leaves > MOST_LEAVES {
        return Ok(ValuePart::Wide);
    }
    let value = Local::Pair(Box::new(alloc, a)?, Box::new(alloc, b)?);
    Ok(ValuePart::Small(value, leaves as u8))
}

// The part that stands since the last mark before an index of a text.
fn part_since(text: &[u8], at: usize, since: Since) -> Option<ValuePart>
    requires within { at ≤ length text.now }
    requires before { StandsBefore at since }
    ensures { option_map part_view result ≡ part_since atom_part (since_of text.now at since) }
{
    match since {
        Since::Bytes(start) => atom_part(&text[start..at]),
        Since::Closed(part) => Some(part),
    }
}

// Puts a bracket that is open behind others, with its first part where that is there.
fn push_half(halves: &mut Vec<Option<ValuePart>>, half: Option<ValuePart>) -> Result<(), Memory>
    ensures { OnOk result (open_of halves.new.items ≡ half_of half ∷ open_of halves.old.items) }
{
    halves.push(half)?;
    Ok(())
}

// Takes the last bracket that is open.
fn pop_half(halves: &mut Vec<Option<ValuePart>>) -> Option<Option<ValuePart>>
    ensures { TakesHalf halves.old.items halves.new.items result }
{
    halves.pop()
}

// A bracket opens at an index, where nothing stands since the last mark.
fn opens(
    halves: &mut Vec<Option<ValuePart>>,
    since: Since,
    at: usize,
) -> Result<Option<Since>, Memory>
    requires room { at < 2 ^ 63 }
    requires before { StandsBefore at since }
    ensures reads { IfOk result (ReadsOpening at since halves.old.items halves.new.items) }
    ensures before { IfOk result (λ o. IfSome o (StandsBefore (at + 1))) }
{
    let Since::Bytes(start) = since else {
        return Ok(None);
    };
    if start < at {
        return Ok(None);
    }
    push_half(halves, None)?;
    Ok(Some(Since::Bytes(at + 1)))
}

// A comma comes at an index, behind a first part.
fn parts(
    halves: &mut Vec<Option<ValuePart>>,
    part: Option<ValuePart>,
    at: usize,
) -> Result<Option<Since>, Memory>
    requires { at < 2 ^ 63 }
    ensures reads { IfOk result (ReadsComma at part halves.old.items halves.new.items) }
    ensures before { IfOk result (λ o. IfSome o (StandsBefore (at + 1))) }
{
    let Some(half) = pop_half(halves) else {
        return Ok(None);
    };
    if half.is_some() {
        return Ok(None);
    }
    let Some(part) = part else {
        return Ok(None);
    };
    push_half(halves, Some(part))?;
    Ok(Some(Since::Bytes(at + 1)))
}

// A bracket closes behind a second part.
fn closes(
    alloc: Global,
    halves: &mut Vec<Option<ValuePart>>,
    part: Option<ValuePart>,
) -> Result<Option<ValuePart>, Memory>
    ensures { IfOk result (ReadsClosing part halves.old.items halves.new.items) }
{
    let Some(half) = pop_half(halves) else {
        return Ok(None);
    };
    let Some(first) = half else {
        return Ok(None);
    };
    let Some(second) = part else {
        return Ok(None);
    };
    let both = pair(alloc, first, second)?;
    Ok(Some(both))
}

// Any other byte goes on with an atom.
fn goes_on(since: Since, at: usize) -> Option<Since>
    requires { StandsBefore at since }
    ensures reads { ReadsOther at since result }
    ensures before { IfSome result (StandsBefore (at + 1)) }
{
    let Since::Bytes(start) = since else {
        return None;
    };
    Some(Since::Bytes(start))
}

// The next byte of a text.
fn step(
    alloc: Global,
    halves: &mut Vec<Option<ValuePart>>,
    since: Since,
    text: &[u8],
    at: usize,
) -> Result<Option<Since>, Memory>
    requires within { at < length text.now }
    requires before { StandsBefore at since }
    ensures reads { IfOk result (ReadsByte text.now at since halves.old.items halves.new.items) }
    ensures before { IfOk result (λ o. IfSome o (StandsBefore (at + 1))) }
{
    let byte = text[at];
    if byte == b'(' {
        return opens(halves, since, at);
    }
    if byte == b',' {
        return parts(halves, part_since(text, at, since), at);
    }
    if byte == b')' {
        let closed = closes(alloc, halves, part_since(text, at, since))?;
        return Ok(closed.map(Since::Closed));
    }
    Ok(goes_on(since, at))
}

// The part that a text writes, if it writes a value.
#[tactic(auto, unfolding(crate::specs::Values::value_with, crate::specs::Narrow::open_of))]
fn part_of(alloc: Global, text: &[u8]) -> Result<Option<ValuePart>, Memory>
    ensures { IfOk result (λ p. option_map part_view p ≡ value_with atom_part pair_part text.now) }
{
    let mut halves = Vec::new(alloc);
    let mut since = Since::Bytes(0);
    for at in 0..text.len() {
        let Some(next) = step(alloc, &mut halves, since, text, at)? else {
            return Ok(None);
        };
        since = next;
    }
    if !halves.is_empty() {
        return Ok(None);
    }
    Ok(part_since(text, text.len(), since))
}

/// The value that a text writes. A pair stands for one that is too wide for every type.
#[tactic(auto, using(crate::proofs::Narrowed::shown_is_narrow))]
pub fn read_value(alloc: Global, text: &[u8]) -> Result<Option<Local>, Memory>
    ensures { IfOk result (λ v. option_map local_of v ≡ option_map narrow (written_value text.now)) }
{
    match part_of(alloc, text)? {
        Some(ValuePart::Small(value, _)) => Ok(Some(value)),
        Some(ValuePart::Wide) => Ok(Some(stand_in(alloc)?)),
        None => Ok(None),
    }
}

// A pair that fits no type of a program.
fn stand_in(alloc: Global) -> Result<Local, Memory>
    ensures { IfOk result (λ v. local_of v ≡ stand_in) }
{
    let first = Box::new(alloc, Local::Int(4_294_967_295))?;
    let second = Box::new(alloc, Local::Int(4_294_967_295))?;
    Ok(Local::Pair(first, second))
}

/// The values that words write, if each writes one.
pub(crate) fn read_values(alloc: Global, words: &[&[u8]]) -> Result<Option<Vec<Local>>, Memory>
    ensures { IfOk result (λ vs.
        option_map (λ v. map local_of v.items) vs ≡ option_map (map narrow) (values_of (texts words.now))) }
{
    let mut values = Vec::new(alloc);
    for word in words {
        let Some(value) = read_value(alloc, word)? else {
            return Ok(None);
        };
        values.push(value)?;
    }
    Ok(Some(values))
}
