//! Why there are no costs of walks.

ghost use Rattle.std.specs.Prelude.{◌≡◌};
ghost use Rattle.walk_form.specs.declared.faults.CostFault.TheVariants as fault;

use fc_nodes::Reason;
use fc_values::Memory;
use std::alloc::{AllocError, AllocFailed};

/// The first place at which the verdict on the program is no, with its reason; a yes for so many rounds without the
/// walk form; or want of memory.
#[derive(Clone, Copy, Debug, PartialEq, Eq)]
pub enum CostFault {
    Unrecognised { place: u32, reason: Reason },
    NotWalks(u64),
    Memory,
}

impl From<AllocError> for CostFault {
    ghost from_gives = { λ _ e. e ≡ fault.Memory };

    fn from(_: AllocError) -> Self {
        CostFault::Memory
    }
}

impl<T: Drop> From<AllocFailed<T>> for CostFault {
    ghost from_gives = { λ _ e. e ≡ fault.Memory };

    fn from(_: AllocFailed<T>) -> Self {
        CostFault::Memory
    }
}

impl From<Memory> for CostFault {
    ghost from_gives = { λ _ e. e ≡ fault.Memory };

    fn from(_: Memory) -> Self {
        CostFault::Memory
    }
}
