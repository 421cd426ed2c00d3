//! What is said of pairs of devices.

ghost use Rattle.std.specs.Prelude.{◌≡◌, ◌&&◌, ℕ, [], map, nat_eq, option_map, IfOk, OnOk, Some, if◌then◌else◌};
ghost use Rattle.std.specs.Option.{option_copied};
ghost use Rattle.std.specs.BTreeMap.{get};
ghost use Rattle.fc_values.specs.Types.{declarations_of};
ghost use Rattle.changes.specs.Code.{change_in, line_in};
ghost use Rattle.changes.specs.Hand.{said};
ghost use Rattle.change_bounds.specs.Bounds.{weights_range};
ghost use Rattle.change_bounds.specs.Tables.{by_pair, linked, pair_said, told, unlinked};

use changes::{Change, ChangeLine, Range, Weights};
use fc_values::{Declared, Memory};
use std::alloc::Global;
use std::collections::BTreeMap;
use topology::Network;

/// The weights that the link of a pair may have, and whether it is there while both devices are.
#[derive(Clone, Copy, Debug, PartialEq, Eq)]
pub struct PairBound {
    pub weights: Range,
    pub sure: bool,
}

/// What is said of the pairs at hand, the lesser device first.
pub fn pairs_said(
    alloc: Global,
    network: &Network,
    lines: &[ChangeLine],
) -> Result<BTreeMap<(u32, u32), PairBound>, Memory>
    ensures { IfOk result (λ m. (x y : ℕ) →
        get by_pair m (x, y) ≡ pair_said network.now (said (map line_in lines.now)) x y) }
{
    let mut table = scene_pairs(alloc, network)?;
    for line in lines {
        if let Some(change) = &line.change {
            tell(&mut table, network.declared(), change)?;
        }
    }
    Ok(table)
}

fn scene_pairs(alloc: Global, network: &Network) -> Result<BTreeMap<(u32, u32), PairBound>, Memory>
    ensures { IfOk result (λ m. (x y : ℕ) → get by_pair m (x, y) ≡ pair_said network.now [] x y) }
{
    let mut table = BTreeMap::new(alloc);
    for link in network.links() {
        let weights = Range {
            least: link.weight,
            greatest: link.weight,
        };
        widen(&mut table, (link.a, link.b), weights, true)?;
    }
    Ok(table)
}

fn tell(
    table: &mut BTreeMap<(u32, u32), PairBound>,
    declared: &Declared,
    change: &Change,
) -> Result<(), Memory>
    ensures { OnOk result ((x y : ℕ) → get by_pair table.new (x, y)
        ≡ told (declarations_of declared.now) (get by_pair table.old (x, y)) x y (change_in change.now)) }
{
    match change {
        Change::Link(a, b, weights) => {
            let pair = ((*a).min(*b), (*a).max(*b));
            widen(table, pair, range_of(declared, *weights), false)
        }
        Change::Unlink(a, b) => {
            let pair = ((*a).min(*b), (*a).max(*b));
            unlink(table, pair);
            Ok(())
        }
        _ => Ok(()),
    }
}

fn range_of(declared: &Declared, weights: Weights) -> Range
    ensures { result ≡ weights_range (declarations_of declared.now) weights }
{
    match weights {
        Weights::Range(range) => range,
        Weights::Any => Range {
            least: declared.metric.0,
            greatest: declared.metric.1,
        },
    }
}

// A pair may be linked with more weights. One of which nothing is said yet is as sure as said.
fn widen(
    table: &mut BTreeMap<(u32, u32), PairBound>,
    pair: (u32, u32),
    weights: Range,
    sure: bool,
) -> Result<(), Memory>
    ensures { OnOk result ((x y : ℕ) → get by_pair table.new (x, y) ≡ (if nat_eq x pair.0 && nat_eq y pair.1
        then Some (linked (get by_pair table.old (x, y)) weights sure) else get by_pair table.old (x, y))) }
{
    let bound = widened(table.get(&pair), weights, sure);
    table.insert(pair, bound)?;
    Ok(())
}

fn widened(before: Option<&PairBound>, weights: Range, sure: bool) -> PairBound
    ensures { result ≡ linked (option_copied before.entry) weights sure }
{
    match before {
        Some(bound) => PairBound {
            weights: Range {
                least: bound.weights.least.min(weights.least),
                greatest: bound.weights.greatest.max(weights.greatest),
            },
            sure: bound.sure,
        },
        None => PairBound { weights, sure },
    }
}

// The link of a pair may go.
fn unlink(table: &mut BTreeMap<(u32, u32), PairBound>, pair: (u32, u32))
    ensures { (x y : ℕ) → get by_pair table.new (x, y) ≡ (if nat_eq x pair.0 && nat_eq y pair.1
        then option_map unlinked (get by_pair table.old (x, y)) else get by_pair table.old (x, y)) }
{
    if let Some(bound) = table.get_mut(&pair) {
        bound.sure = false;
    }
}
