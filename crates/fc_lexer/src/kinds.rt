//! What a piece of a text is.

ghost use Rattle.std.specs.Prelude.{◌≡◌, IfOk, option_map, true};
ghost use Rattle.std.specs.List.{list_all};
ghost use Rattle.fc_values.specs.Names.{is_digit};
ghost use Rattle.fc_lexer.specs.Bytes.{is_piece};
ghost use Rattle.fc_lexer.specs.Kinds.{kind_view, number_value, token_kind, word_or_name_of};

use crate::bytes::{Class, class_of};
use crate::tokens::{Kind, Mark};
use fc_values::{Memory, Name, find_word};
use std::alloc::Global;

// The greatest value of a number token: it stands for each number past the greatest of a program.
const CUT: u32 = 1_000_001;

// The lesser of the written number and the cut.
fn number(digits: &[u8]) -> u32
    requires { list_all is_digit digits.now ≡ true }
    ensures { result ≡ number_value digits.now }
{
    let mut value = 0;
    for digit in digits {
        value = (value * 10 + u32::from(*digit - b'0')).min(CUT);
    }
    value
}

// The word of this spelling, or the name.
fn word_or_name(alloc: Global, text: &[u8]) -> Result<Kind, Memory>
    ensures { IfOk result (λ kind. kind_view kind ≡ word_or_name_of text.now) }
{
    match find_word(text) {
        Some(word) => Ok(Kind::Word(word)),
        None => Ok(Kind::Name(Name {
            text: text.to_vec(alloc)?,
        })),
    }
}

/// What a piece is, if it is a token.
pub fn kind_of(alloc: Global, piece: &[u8]) -> Result<Option<Kind>, Memory>
    requires { is_piece piece.now ≡ true }
    ensures { IfOk result (λ kind. option_map kind_view kind ≡ token_kind piece.now) }
{
    let [first, rest @ ..] = piece else {
        return Ok(None);
    };
    match class_of(*first) {
        Class::Digit => Ok(Some(Kind::Number(number(piece)))),
        Class::Letter => Ok(Some(word_or_name(alloc, piece)?)),
        Class::Dot => Ok(Some(Kind::Mark(Mark::Dots))),
        Class::Equals => match rest {
            [] => Ok(Some(Kind::Mark(Mark::Is))),
            _ => Ok(Some(Kind::Mark(Mark::Arrow))),
        },
        Class::Single(mark) => Ok(Some(Kind::Mark(mark))),
        Class::Space | Class::Slash | Class::Other => Ok(None),
    }
}
