//! What builtins make of bounds of values.

ghost use Rattle.std.specs.Prelude.{◌≡◌, IfOk};
ghost use Rattle.value_bounds.specs.BoundBuiltins.{builtin_bound};
ghost use Rattle.value_bounds.specs.References.{any_bound_in, lent_bounds_in};

use crate::bounds::{Bound, BoundRef};
use crate::hoods::{all_hood, any_hood, greatest_hood, least_hood, sum_hood};
use crate::pointwise::pointwise;
use fc_values::{Builtin, Memory};
use std::alloc::Global;

/// The bound of what a builtin makes, at a device, of values in bounds.
pub fn bound_of_builtin(
    alloc: Global,
    builtin: Builtin,
    args: &[BoundRef<'_>],
    device: u32,
    ceiling: u32,
) -> Result<Bound, Memory>
    ensures { IfOk result (λ b.
        any_bound_in b ≡ builtin_bound builtin ceiling device (lent_bounds_in args.now)) }
{
    match builtin {
        Builtin::MinHoodLoc => Ok(Bound::Local(least_hood(alloc, args)?)),
        Builtin::MaxHoodLoc => Ok(Bound::Local(greatest_hood(alloc, args)?)),
        Builtin::SumHood => Ok(Bound::Local(sum_hood(args, ceiling))),
        Builtin::AnyHood => Ok(Bound::Local(any_hood(args))),
        Builtin::AllHood => Ok(Bound::Local(all_hood(args))),
        _ => pointwise(alloc, builtin, args, device, ceiling),
    }
}
