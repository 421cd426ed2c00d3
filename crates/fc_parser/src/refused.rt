//! Why a part of a declaration isn't read.

ghost use Rattle.std.specs.Prelude.{◌≡◌};
ghost use Rattle.fc_parser.specs.declared.refused.Refused.TheVariants as refused;

use fc_values::Memory;
use std::alloc::{AllocError, AllocFailed};

/// The tokens are outside the grammar, or there was no memory.
#[derive(Clone, Copy, Debug, PartialEq, Eq)]
pub enum Refused {
    Outside,
    Memory,
}

impl From<Memory> for Refused {
    ghost from_gives = { λ _ fault. fault ≡ refused.Memory };

    fn from(_: Memory) -> Self {
        Refused::Memory
    }
}

impl From<AllocError> for Refused {
    ghost from_gives = { λ _ fault. fault ≡ refused.Memory };

    fn from(_: AllocError) -> Self {
        Refused::Memory
    }
}

impl<T: Drop> From<AllocFailed<T>> for Refused {
    ghost from_gives = { λ _ fault. fault ≡ refused.Memory };

    fn from(_: AllocFailed<T>) -> Self {
        Refused::Memory
    }
}
