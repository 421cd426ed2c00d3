//! Why a program has no list of patterns.

ghost use Rattle.std.specs.Prelude.{◌≡◌};
ghost use Rattle.fragment_check.specs.declared.faults.PatternFault.TheVariants as fault;

use fc_nodes::Reason;
use std::alloc::{AllocError, AllocFailed};

/// The first `rep` or `share` without a pattern, with its reason, or want of memory.
#[derive(Clone, Copy, Debug, PartialEq, Eq)]
pub enum PatternFault {
    Refused { place: u32, reason: Reason },
    Memory,
}

impl From<AllocError> for PatternFault {
    ghost from_gives = { λ _ e. e ≡ fault.Memory };

    fn from(_: AllocError) -> Self {
        PatternFault::Memory
    }
}

impl<T: Drop> From<AllocFailed<T>> for PatternFault {
    ghost from_gives = { λ _ e. e ≡ fault.Memory };

    fn from(_: AllocFailed<T>) -> Self {
        PatternFault::Memory
    }
}
