//! Tokens, and the faults of reading them.

ghost use Rattle.std.specs.Prelude.{◌≡◌};
ghost use Rattle.fc_lexer.specs.declared.tokens.LexFault.TheVariants as lex_fault;

use fc_values::{Memory, Name, Word};
use std::alloc::{AllocError, AllocFailed};

/// A mark: `(` `)` `{` `}` `,` `;` `:` `..` `=` `=>` `+` `-` `*` `<`, in this order.
#[derive(Clone, Copy, Debug, PartialEq, Eq)]
pub enum Mark {
    OpenRound,
    CloseRound,
    OpenCurly,
    CloseCurly,
    Comma,
    Semi,
    Colon,
    Dots,
    Is,
    Arrow,
    Plus,
    Minus,
    Star,
    Less,
}

/// What a token is. A number's value is the lesser of the written number and 1,000,001.
#[derive(Drop)]
pub enum Kind {
    Number(u32),
    Word(Word),
    Name(Name),
    Mark(Mark),
}

/// A token: what it is, the index of its first byte, the index after its last byte, and its line, from 1.
#[derive(Drop)]
pub struct Token {
    pub kind: Kind,
    pub start: usize,
    pub end: usize,
    pub line: u32,
}

/// No token, space or comment begins at this byte, or there was no memory.
#[derive(Clone, Copy, Debug, PartialEq, Eq)]
pub enum LexFault {
    At(usize),
    Memory,
}

impl From<Memory> for LexFault {
    ghost from_gives = { λ _ fault. fault ≡ lex_fault.Memory };

    fn from(_: Memory) -> Self {
        LexFault::Memory
    }
}

impl From<AllocError> for LexFault {
    ghost from_gives = { λ _ fault. fault ≡ lex_fault.Memory };

    fn from(_: AllocError) -> Self {
        LexFault::Memory
    }
}

impl<T: Drop> From<AllocFailed<T>> for LexFault {
    ghost from_gives = { λ _ fault. fault ≡ lex_fault.Memory };

    fn from(_: AllocFailed<T>) -> Self {
        LexFault::Memory
    }
}
