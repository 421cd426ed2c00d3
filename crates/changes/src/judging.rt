//! The first line that is refused.

ghost use Rattle.std.specs.Prelude.{◌≡◌, ◌<◌, ◌&&◌, ◌||◌, not, length, map, OnOk, IfErr};
ghost use Rattle.changes.specs.Changes.{JoinChange, LeaveChange, LinkChange, SetChange, UnlinkChange};
ghost use Rattle.changes.specs.Code.{change_in, line_in};
ghost use Rattle.changes.specs.Hand.{at_hand, pair_at_hand};
ghost use Rattle.changes.specs.Faults.{NoneRefused, RefusesChanges, change_fault, fault_of_line, is_crowded};
ghost use Rattle.changes.specs.Kept.{AreHandsOf, Told, line_at};

use crate::hands::{Hands, lives};
use crate::types::{Change, ChangeFault, ChangeLine, Possible, RefusedChange, Weights};
use crate::values::{in_metric_all, nth_possible_fault, possibles_fault};
use std::alloc::Global;
use topology::{NetFault, Network};

/// Judges the lines of what may happen in a scene: each by what the scene and all lines bring, and for the limits by
/// the lines before it.
pub fn judge_changes(
    alloc: Global,
    network: &Network,
    lines: &[ChangeLine],
) -> Result<(), RefusedChange>
    ensures ok { OnOk result (NoneRefused network.now (map line_in lines.now)) }
    ensures refused { IfErr result (RefusesChanges network.now (map line_in lines.now)) }
{
    let mut hands = Hands::new(alloc, network, lines)?;
    for (at, line) in lines.iter().enumerate() {
        if let Some(fault) = line_fault(network, &hands, lines, at) {
            return Err(RefusedChange::Line(line.number, fault));
        }
        hands.before.add_line(network, lines, at)?;
    }
    Ok(())
}

// Why the line at a place is refused.
fn line_fault(
    network: &Network,
    hands: &Hands,
    lines: &[ChangeLine],
    at: usize,
) -> Option<ChangeFault>
    ghost told: { Told }
    requires within { at < length lines.now }
    requires hands { AreHandsOf network.now told hands.now }
    ensures { result ≡ fault_of_line network.now told.all told.before (line_at at lines.now).1 }
{
    let Some(change) = &lines[at].change else {
        return Some(ChangeFault::Form);
    };
    let fault = change_fault(network, hands, change)?;
    Some(ChangeFault::Net(fault))
}

fn change_fault(network: &Network, hands: &Hands, change: &Change) -> Option<NetFault>
    ghost told: { Told }
    requires { AreHandsOf network.now told hands.now }
    ensures { result ≡ change_fault network.now told.all told.before (change_in change.now) }
{
    match change {
        Change::Set(device, input, values) => set_fault(network, hands, *device, *input, *values),
        Change::Link(a, b, weights) => link_fault(network, hands, *a, *b, *weights),
        Change::Unlink(a, b) => unlink_fault(network, hands, *a, *b),
        Change::Leave(device) => leave_fault(network, hands, *device),
        Change::Join(device, values) => join_fault(network, hands, *device, values),
    }
}

fn set_fault(
    network: &Network,
    hands: &Hands,
    device: u32,
    input: u32,
    values: Possible,
) -> Option<NetFault>
    ghost told: { Told }
    requires { AreHandsOf network.now told hands.now }
    ensures { result ≡ change_fault network.now told.all told.before (SetChange device input values) }
{
    if !hands.all.has(network, device) {
        return Some(NetFault::NoDevice);
    }
    nth_possible_fault(&network.declared().inputs, input, values)
}

// Whether both ends of a pair are at hand.
fn has_both(network: &Network, hands: &Hands, a: u32, b: u32) -> bool
    ghost told: { Told }
    requires { AreHandsOf network.now told hands.now }
    ensures { result ≡ (at_hand network.now told.all a && at_hand network.now told.all b) }
{
    hands.all.has(network, a) && hands.all.has(network, b)
}

fn link_fault(
    network: &Network,
    hands: &Hands,
    a: u32,
    b: u32,
    weights: Weights,
) -> Option<NetFault>
    ghost told: { Told }
    requires { AreHandsOf network.now told hands.now }
    ensures { result ≡ change_fault network.now told.all told.before (LinkChange a b weights) }
{
    if !has_both(network, hands, a, b) {
        return Some(NetFault::NoDevice);
    }
    if a == b {
        return Some(NetFault::SelfLink);
    }
    if !in_metric_all(network.declared(), weights) {
        return Some(NetFault::Weight);
    }
    if is_pair_too_many(network, hands, a, b) {
        return Some(NetFault::Degree);
    }
    None
}

// Whether a pair is new, and one too many for one of its ends.
fn is_pair_too_many(network: &Network, hands: &Hands, a: u32, b: u32) -> bool
    ghost told: { Told }
    requires { AreHandsOf network.now told hands.now }
    ensures { result ≡ (not (pair_at_hand network.now told.before a b)
        && (is_crowded network.now told.before a || is_crowded network.now told.before b)) }
{
    let before = &hands.before;
    !before.are_partners(network, a, b)
        && (before.is_crowded(network, a) || before.is_crowded(network, b))
}

fn unlink_fault(network: &Network, hands: &Hands, a: u32, b: u32) -> Option<NetFault>
    ghost told: { Told }
    requires { AreHandsOf network.now told hands.now }
    ensures { result ≡ change_fault network.now told.all told.before (UnlinkChange a b) }
{
    if !has_both(network, hands, a, b) {
        return Some(NetFault::NoDevice);
    }
    if !hands.all.are_partners(network, a, b) {
        return Some(NetFault::NoLink);
    }
    None
}

fn leave_fault(network: &Network, hands: &Hands, device: u32) -> Option<NetFault>
    ghost told: { Told }
    requires { AreHandsOf network.now told hands.now }
    ensures { result ≡ change_fault network.now told.all told.before (LeaveChange device) }
{
    if !hands.all.has(network, device) {
        return Some(NetFault::NoDevice);
    }
    if hands.all.is_alone(network) {
        return Some(NetFault::Last);
    }
    None
}

fn join_fault(
    network: &Network,
    hands: &Hands,
    device: u32,
    values: &[Possible],
) -> Option<NetFault>
    ghost told: { Told }
    requires { AreHandsOf network.now told hands.now }
    ensures { result ≡ change_fault network.now told.all told.before (JoinChange device values.now) }
{
    if lives(network, device) {
        return Some(NetFault::Twice);
    }
    if !hands.before.has(network, device) && hands.before.is_full(network) {
        return Some(NetFault::Devices);
    }
    let inputs = &network.declared().inputs;
    if values.len() != inputs.len() {
        return Some(NetFault::NoInput);
    }
    possibles_fault(inputs, values)
}
