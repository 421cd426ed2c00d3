//! The links of a scene.

ghost use Rattle.std.specs.Prelude.{◌≡◌, IfOk, IfErr, OnOk, option_map};
ghost use Rattle.serde_json.specs.View.{view, items_view};
ghost use Rattle.net_json.specs.PlaceCode.{path_of};
ghost use Rattle.net_json.specs.Judging.{Accepted, Accepts, Refuses};
ghost use Rattle.net_json.specs.Links.{link_of, link_judged, links_judged};

use crate::places::Place;
use crate::types::JsonFault;
use crate::values::small;
use serde_json::Value;
use std::alloc::Global;
use topology::{Draft, Network};

// Two devices and a weight.
fn link_of(value: &Value) -> Option<(u32, u32, u32)>
    ensures { result ≡ link_of (view value.now) }
{
    let list = value.as_array()?;
    let [a, b, weight] = list.as_slice() else {
        return None;
    };
    let a = small(a)?;
    let b = small(b)?;
    let weight = small(weight)?;
    Some((a, b, weight))
}

// Adds a link that no link before has the pair of.
#[tactic(auto, using(crate::proofs::Judgements::refused_next))]
fn add_link(
    alloc: Global,
    draft: &mut Draft,
    here: &Place<'_>,
    value: &Value,
) -> Result<(), JsonFault>
    ensures ok { OnOk result (link_judged draft.old (path_of here.now) (view value.now) ≡ Accepted draft.new) }
    ensures declared { OnOk result (draft.new.declared ≡ draft.old.declared) }
    ensures refused { Refuses result (link_judged draft.old (path_of here.now) (view value.now)) }
{
    let Some((a, b, weight)) = link_of(value) else {
        return Err(JsonFault::Shape(here.path(alloc)?));
    };
    if draft.are_linked(a, b) {
        return Err(JsonFault::Shape(here.path(alloc)?));
    }
    match draft.link(a, b, weight) {
        Ok(()) => Ok(()),
        Err(fault) => Err(JsonFault::Net(here.path(alloc)?, fault)),
    }
}

/// The network of a draft with the links of a list.
#[tactic(auto, using(crate::proofs::Judgements::refused_next))]
pub(crate) fn read_links(
    alloc: Global,
    draft: Draft,
    here: &Place<'_>,
    items: &[Value],
) -> Result<Network, JsonFault>
    ensures ok { Accepts result (λ n. n) (links_judged (path_of here.now) draft (items_view items.now)) }
    ensures declared { IfOk result (λ n. n.declared ≡ draft.declared) }
    ensures refused { Refuses result (links_judged (path_of here.now) draft (items_view items.now)) }
{
    let mut draft = draft;
    for (i, item) in items.iter().enumerate() {
        let place = Place::Item(&*here, i);
        add_link(alloc, &mut draft, &place, item)?;
    }
    let net = draft.finish(alloc)?;
    Ok(net)
}
