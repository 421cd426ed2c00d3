//! Why a program is not unfolded.

ghost use Rattle.std.specs.Prelude.{◌≡◌};
ghost use Rattle.unfold.specs.declared.faults.UnfoldFault.TheVariants as unfold_fault;

use fc_values::Memory;

/// The program has more than 2,048 nodes: their number, or 1,000,000 where it is greater. Or there was no memory.
#[derive(Clone, Copy, Debug, PartialEq, Eq)]
pub enum UnfoldFault {
    TooLarge { size: u32 },
    Memory,
}

impl From<Memory> for UnfoldFault {
    ghost from_gives = { λ _ f. f ≡ unfold_fault.Memory };

    fn from(_: Memory) -> Self {
        UnfoldFault::Memory
    }
}
