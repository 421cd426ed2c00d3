//! The links of an envelope.

ghost use Rattle.std.specs.Prelude.{◌≡◌, map, IfOk};
ghost use Rattle.std.specs.BTreeMap.{IsOrdered};
ghost use Rattle.envelopes.specs.Code.{maybe_link_of};
ghost use Rattle.change_bounds.specs.Tables.{by_pair};
ghost use Rattle.change_envelopes.specs.Written.{link_by, links_by, stays_by};

use change_bounds::PairBound;
use envelopes::LinkBound;
use fc_values::Memory;
use std::alloc::Global;
use std::collections::BTreeMap;

/// The links of pairs, by rising pairs. A link is always there where its pair is said to be so, and both devices are.
pub(crate) fn links(
    alloc: Global,
    pairs: &BTreeMap<(u32, u32), PairBound>,
    devices: &BTreeMap<u32, bool>,
) -> Result<Vec<LinkBound>, Memory>
    ensures links { IfOk result (λ v. map maybe_link_of v.items ≡ links_by (stays_by devices.now) pairs.now.entries) }
    ensures rising { IsOrdered by_pair pairs.now }
{
    let mut links = Vec::with_capacity(alloc, pairs.len())?;
    for (pair, bound) in pairs {
        links.push(link(*pair, *bound, devices))?;
    }
    Ok(links)
}

// The link of a pair.
fn link(pair: (u32, u32), bound: PairBound, devices: &BTreeMap<u32, bool>) -> LinkBound
    ensures { maybe_link_of result ≡ link_by (stays_by devices.now) (pair, bound) }
{
    LinkBound {
        a: pair.0,
        b: pair.1,
        least: bound.weights.least,
        greatest: bound.weights.greatest,
        sure: bound.sure && stays(devices, pair.0) && stays(devices, pair.1),
    }
}

// Whether a device is always there.
fn stays(devices: &BTreeMap<u32, bool>, device: u32) -> bool
    ensures { result ≡ stays_by devices.now device }
{
    match devices.get(&device) {
        Some(stays) => *stays,
        None => false,
    }
}
