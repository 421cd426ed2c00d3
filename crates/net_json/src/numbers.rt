//! The numbers of rows and copies.

ghost use Rattle.std.specs.Prelude.{◌≡◌, IfOk, IfErr, IfSome, IfNone, codes, true, false};
ghost use Rattle.fc_values.specs.Fields.{Rises};
ghost use Rattle.topology.specs.Networks.{lives};
ghost use Rattle.net_json.specs.PlaceCode.{path_of};
ghost use Rattle.net_json.specs.Judging.{at_member, Accepts, Refuses};
ghost use Rattle.net_json.specs.Devices.{live_number};
ghost use Rattle.net_json.specs.Places.{IsPlace};

use crate::places::Place;
use crate::rising::room;
use crate::types::JsonFault;
use std::alloc::Global;
use topology::Network;

// The number of a device, if this is one. None has a number past 65,535.
fn device(net: &Network, id: u64) -> Option<u32>
    ensures number { IfSome result (λ d. d ≡ id) }
    ensures lives { IfSome result (λ d. lives net.now d ≡ true) }
    ensures none { IfNone result (lives net.now id ≡ false) }
{
    let id = id.min(65_536) as u32;
    net.place(id)?;
    Some(id)
}

/// The number of a row or of a copy, with its place among those before.
#[tactic(auto, using(crate::proofs::Judgements::refused_next))]
pub(crate) fn live_number(
    alloc: Global,
    net: &Network,
    numbers: &[u32],
    here: &Place<'_>,
    id: u64,
) -> Result<(usize, u32), JsonFault>
    requires { Rises numbers.now }
    ensures ok { Accepts result (λ d. d.1)
        (live_number net.now numbers.now (at_member (path_of here.now) (codes "id")) id) }
    ensures place { IfOk result (λ d. IsPlace numbers.now d.1 d.0) }
    ensures lives { IfOk result (λ d. lives net.now d.1 ≡ true) }
    ensures refused { Refuses result (live_number net.now numbers.now (at_member (path_of here.now) (codes "id")) id) }
{
    let Some(id) = device(net, id) else {
        return Err(JsonFault::Shape(here.member(alloc, b"id")?));
    };
    match room(numbers, id) {
        Some(at) => Ok((at, id)),
        None => Err(JsonFault::Shape(here.member(alloc, b"id")?)),
    }
}
