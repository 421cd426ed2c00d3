//! Why a stabilised field isn't answered.

ghost use Rattle.std.specs.Prelude.{◌≡◌};
ghost use Rattle.stable_field.specs.declared.faults.StableFault.TheVariants as fault;

use fc_nodes::Reason;
use fc_values::Memory;
use std::alloc::{AllocError, AllocFailed};

/// The first place at which the verdict on the program is no, with its reason; or want of memory.
#[derive(Clone, Copy, Debug, PartialEq, Eq)]
pub enum StableFault {
    Unrecognised { place: u32, reason: Reason },
    Memory,
}

impl From<AllocError> for StableFault {
    ghost from_gives = { λ _ e. e ≡ fault.Memory };

    fn from(_: AllocError) -> Self {
        StableFault::Memory
    }
}

impl<T: Drop> From<AllocFailed<T>> for StableFault {
    ghost from_gives = { λ _ e. e ≡ fault.Memory };

    fn from(_: AllocFailed<T>) -> Self {
        StableFault::Memory
    }
}

impl From<Memory> for StableFault {
    ghost from_gives = { λ _ e. e ≡ fault.Memory };

    fn from(_: Memory) -> Self {
        StableFault::Memory
    }
}
