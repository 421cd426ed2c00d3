//! Why an expression or a declaration has no type.

ghost use Rattle.std.specs.Prelude.{◌≡◌};
ghost use Rattle.fc_types.specs.declared.refusal.TypeRefusal.TheVariants as refusal;

use crate::faults::TypeKind;
use fc_values::Memory;
use std::alloc::{AllocError, AllocFailed};

/// The kind of a first fault, or want of memory.
#[derive(Clone, Copy)]
pub enum TypeRefusal {
    Kind(TypeKind),
    Memory,
}

impl From<Memory> for TypeRefusal {
    ghost from_gives = { λ _ r. r ≡ refusal.Memory };

    fn from(_: Memory) -> Self {
        TypeRefusal::Memory
    }
}

impl From<AllocError> for TypeRefusal {
    ghost from_gives = { λ _ r. r ≡ refusal.Memory };

    fn from(_: AllocError) -> Self {
        TypeRefusal::Memory
    }
}

impl<T: Drop> From<AllocFailed<T>> for TypeRefusal {
    ghost from_gives = { λ _ r. r ≡ refusal.Memory };

    fn from(_: AllocFailed<T>) -> Self {
        TypeRefusal::Memory
    }
}
