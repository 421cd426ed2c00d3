//! The faults of typing.

ghost use Rattle.std.specs.Prelude.{◌≡◌};
ghost use Rattle.fc_types.specs.declared.faults.TypeFault.TheVariants as type_fault;

use fc_values::Memory;

/// What is wrong at the first fault.
#[derive(Clone, Copy, Debug, PartialEq, Eq)]
pub enum TypeKind {
    Range,
    Twice,
    Unknown,
    Literal,
    Count,
    Mismatch,
    NotLocal,
    Result,
    Wide,
}

/// Why a program isn't typed: its first fault, in a declaration by its number from 1; or want of memory.
#[derive(Clone, Copy, Debug, PartialEq, Eq)]
pub enum TypeFault {
    Fault { declaration: u32, kind: TypeKind },
    Memory,
}

impl From<Memory> for TypeFault {
    ghost from_gives = { λ _ f. f ≡ type_fault.Memory };

    fn from(_: Memory) -> Self {
        TypeFault::Memory
    }
}
