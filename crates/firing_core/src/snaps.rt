//! Copies of values and of copies, and shares of exports.

ghost use Rattle.std.specs.Prelude.{◌≡◌, map, option_map, IfOk, IfSome, IfNone};
ghost use Rattle.fc_values.specs.Rows.{IsPairValue};
ghost use Rattle.fc_values.specs.Values.{local_of};
ghost use Rattle.fc_nodes.specs.Program.{unfolding_of};
ghost use Rattle.fc_values.specs.Exports.{export_of};
ghost use Rattle.value_trees.specs.Snaps.{snap_copy, IsSnap};
ghost use Rattle.value_trees.specs.Copies.{WhereSome};
ghost use Rattle.firing_core.specs.CoreViews.{near_view, AllSnaps, SameFlight, SameFlights};

use fc_nodes::Unfolded;
use fc_values::{Export, Local, Memory, copy_export, copy_locals};
use std::alloc::Global;
use value_trees::{Near, Published, Snap};

/// A copy of a value that is no pair. It takes no memory.
pub(crate) fn copy_plain(value: &Local) -> Option<Local>
    ensures same { IfSome result (λ v. local_of v ≡ local_of value.now) }
    ensures pair { IfNone result (IsPairValue (local_of value.now)) }
{
    match value {
        Local::Int(n) => Some(Local::Int(*n)),
        Local::Bool(b) => Some(Local::Bool(*b)),
        Local::Pair(_, _) => None,
    }
}

/// A copy of an export, to be shared.
pub(crate) fn published_copy(alloc: Global, export: &Export) -> Result<Published, Memory>
    ensures { IfOk result (λ e. export_of e ≡ export_of export.now) }
{
    let copied = copy_export(alloc, export)?;
    Published::new(alloc, copied)
}

/// A share of an export, if there is one.
pub(crate) fn share_own(own: Option<&Published>) -> Result<Option<Published>, Memory>
    ensures { IfOk result (λ e. option_map export_of e ≡ option_map (λ x. export_of x.now) own.entry) }
{
    match own {
        Some(export) => Ok(Some(export.share()?)),
        None => Ok(None),
    }
}

fn copy_near(alloc: Global, all: &[Near]) -> Result<Vec<Near>, Memory>
    ensures { IfOk result (λ ns. map near_view ns.items ≡ map near_view all.now) }
{
    let mut copies = Vec::with_capacity(alloc, all.len())?;
    for near in all {
        copies.push(Near {
            device: near.device,
            weight: near.weight,
            export: near.export.share()?,
        })?;
    }
    Ok(copies)
}

/// A copy of a copy, for a program that it fits.
pub fn copy_snap(alloc: Global, program: &Unfolded, snap: &Snap) -> Result<Snap, Memory>
    requires { IsSnap (unfolding_of program.now) snap.now }
    ensures same { IfOk result (λ s. snap_copy (unfolding_of program.now) s
        ≡ snap_copy (unfolding_of program.now) snap.now) }
    ensures snap { IfOk result (λ s. IsSnap (unfolding_of program.now) s) }
{
    let inputs = copy_locals(alloc, &snap.inputs)?;
    let own = share_own(snap.own.as_ref())?;
    let near = copy_near(alloc, &snap.near)?;
    Ok(Snap {
        device: snap.device,
        inputs,
        own,
        near,
    })
}

/// Shares of exports, where there are some.
pub(crate) fn share_exports(
    alloc: Global,
    exports: &[Option<Published>],
) -> Result<Vec<Option<Published>>, Memory>
    ensures { IfOk result (λ v. map (option_map export_of) v.items ≡ map (option_map export_of) exports.now) }
{
    let mut copies = Vec::new(alloc);
    for export in exports {
        copies.push(share_own(export.as_ref())?)?;
    }
    Ok(copies)
}

fn copy_flight(
    alloc: Global,
    program: &Unfolded,
    flight: &Option<Snap>,
) -> Result<Option<Snap>, Memory>
    requires { WhereSome (IsSnap (unfolding_of program.now)) flight.now }
    ensures same { IfOk result (λ s. SameFlight (unfolding_of program.now) s flight.now) }
    ensures snap { IfOk result (λ s. WhereSome (IsSnap (unfolding_of program.now)) s) }
{
    match flight {
        Some(snap) => Ok(Some(copy_snap(alloc, program, snap)?)),
        None => Ok(None),
    }
}

/// Copies of the copies in flight, for a program that they fit.
pub(crate) fn copy_flights(
    alloc: Global,
    program: &Unfolded,
    flights: &[Option<Snap>],
) -> Result<Vec<Option<Snap>>, Memory>
    requires { AllSnaps (unfolding_of program.now) flights.now }
    ensures same { IfOk result (λ v. SameFlights (unfolding_of program.now) v.items flights.now) }
    ensures snaps { IfOk result (λ v. AllSnaps (unfolding_of program.now) v.items) }
{
    let mut copies = Vec::new(alloc);
    for flight in flights {
        copies.push(copy_flight(alloc, program, flight)?)?;
    }
    Ok(copies)
}
