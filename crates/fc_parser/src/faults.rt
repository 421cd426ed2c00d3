//! Why tokens are refused.

ghost use Rattle.std.specs.Prelude.{◌≡◌};
ghost use Rattle.fc_parser.specs.declared.faults.ParseFault.TheVariants as parse_fault;

use fc_values::Memory;
use std::alloc::{AllocError, AllocFailed};

/// The first declaration, by its number from 1, that has too many tokens (and how many), or too many open brackets; the
/// first that is at fault, with its line; or there was no memory.
#[derive(Clone, Copy, Debug, PartialEq, Eq)]
pub enum ParseFault {
    Tokens { declaration: u32, count: u32 },
    Depth { declaration: u32 },
    Syntax { declaration: u32, line: u32 },
    Memory,
}

impl From<Memory> for ParseFault {
    ghost from_gives = { λ _ fault. fault ≡ parse_fault.Memory };

    fn from(_: Memory) -> Self {
        ParseFault::Memory
    }
}

impl From<AllocError> for ParseFault {
    ghost from_gives = { λ _ fault. fault ≡ parse_fault.Memory };

    fn from(_: AllocError) -> Self {
        ParseFault::Memory
    }
}

impl<T: Drop> From<AllocFailed<T>> for ParseFault {
    ghost from_gives = { λ _ fault. fault ≡ parse_fault.Memory };

    fn from(_: AllocFailed<T>) -> Self {
        ParseFault::Memory
    }
}
