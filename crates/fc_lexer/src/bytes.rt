//! What a byte begins, and runs of bytes.

ghost use Rattle.std.specs.Prelude.{◌≡◌, ◌≤◌, length};
ghost use Rattle.std.specs.List.{prefix_len};
ghost use Rattle.fc_values.specs.Names.{is_digit as digit_test, is_name_byte as name_byte_test};
ghost use Rattle.fc_lexer.specs.Bytes.{begun_class, is_in_line, is_space as space_test, mark_of};

use crate::tokens::Mark;
use fc_values::{is_digit, is_letter, is_name_byte};

/// What a byte begins.
#[derive(Clone, Copy, Debug, PartialEq, Eq)]
pub enum Class {
    Space,
    Digit,
    Letter,
    Slash,
    Dot,
    Equals,
    Single(Mark),
    Other,
}

fn is_space(byte: u8) -> bool
    ensures { result ≡ space_test byte }
{
    byte == b' ' || byte == b'\t' || byte == b'\n' || byte == b'\r'
}

// What a byte begins that is no space, digit, letter, slash, dot or equals sign.
#[tactic(auto, unfolding(crate::specs::Bytes::mark_of))]
fn single(byte: u8) -> Class
    ensures { result ≡ mark_of byte }
{
    if byte == b'(' {
        Class::Single(Mark::OpenRound)
    } else if byte == b')' {
        Class::Single(Mark::CloseRound)
    } else if byte == b'{' {
        Class::Single(Mark::OpenCurly)
    } else if byte == b'}' {
        Class::Single(Mark::CloseCurly)
    } else if byte == b',' {
        Class::Single(Mark::Comma)
    } else if byte == b';' {
        Class::Single(Mark::Semi)
    } else if byte == b':' {
        Class::Single(Mark::Colon)
    } else if byte == b'+' {
        Class::Single(Mark::Plus)
    } else if byte == b'-' {
        Class::Single(Mark::Minus)
    } else if byte == b'*' {
        Class::Single(Mark::Star)
    } else if byte == b'<' {
        Class::Single(Mark::Less)
    } else {
        Class::Other
    }
}

/// What a byte begins.
#[tactic(auto, unfolding(crate::specs::Bytes::begun_class))]
pub fn class_of(byte: u8) -> Class
    ensures { result ≡ begun_class byte }
{
    if is_space(byte) {
        Class::Space
    } else if is_digit(byte) {
        Class::Digit
    } else if is_letter(byte) {
        Class::Letter
    } else if byte == b'/' {
        Class::Slash
    } else if byte == b'.' {
        Class::Dot
    } else if byte == b'=' {
        Class::Equals
    } else {
        single(byte)
    }
}

/// How many bytes from the front on are spaces.
#[tactic(auto, using(crate::proofs::Longest::run_within))]
pub fn space_run(bytes: &[u8]) -> usize
    ensures size { result ≡ prefix_len space_test bytes.now }
    ensures within { result ≤ length bytes.now }
{
    bytes.iter().take_while(|byte| is_space(**byte)).count()
}

/// How many bytes from the front on are digits.
#[tactic(auto, using(crate::proofs::Longest::run_within))]
pub fn digit_run(bytes: &[u8]) -> usize
    ensures size { result ≡ prefix_len digit_test bytes.now }
    ensures within { result ≤ length bytes.now }
{
    bytes.iter().take_while(|byte| is_digit(**byte)).count()
}

/// How many bytes from the front on may follow the first letter of a name.
#[tactic(auto, using(crate::proofs::Longest::run_within))]
pub fn name_run(bytes: &[u8]) -> usize
    ensures size { result ≡ prefix_len name_byte_test bytes.now }
    ensures within { result ≤ length bytes.now }
{
    bytes.iter().take_while(|byte| is_name_byte(**byte)).count()
}

/// How many bytes stand before the first line feed.
#[tactic(auto, using(crate::proofs::Longest::run_within))]
pub fn line_run(bytes: &[u8]) -> usize
    ensures size { result ≡ prefix_len is_in_line bytes.now }
    ensures within { result ≤ length bytes.now }
{
    bytes.iter().take_while(|byte| **byte != b'\n').count()
}
