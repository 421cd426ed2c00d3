//! After how many rounds the devices of a network settle, and to which values.

ghost use Rattle.std.specs.Prelude.{◌≡◌, IfOk, OnOk, IsTrue, All, IsSome, length, map};
ghost use Rattle.std.specs.Prelude.{Option, None, option_map};
ghost use Rattle.fc_nodes.specs.Program.{unfolding_of};
ghost use Rattle.value_bounds.specs.References.{local_bound_in};
ghost use Rattle.envelopes.specs.Exactly.{exact_envelope as envelope_in};
ghost use Rattle.bound_rounds.specs.Rounds.{BoundTable};
ghost use Rattle.bound_rounds.specs.Tables.{FitTable, Stand};
ghost use Rattle.settle_rounds.specs.Rounds.{any_table};
ghost use Rattle.settle_rounds.specs.SettleTimes.{all_settle_to, greatest_round, settle_time};
ghost use Rattle.settle_rounds.specs.declared.settling.Settled.{Settled};
ghost use Rattle.settle_rounds.specs.References.{settled_in, noted, AreNoted};

use bound_firing::{ExportBound, any_export_bound};
use bound_rounds::{RoundKind, round, table_of};
use envelopes::{Envelope, exact_envelope};
use fc_nodes::{Unfolded, Verdict};
use fc_values::{Local, Memory};
use std::alloc::Global;
use topology::Network;
use value_bounds::{is_known, value_left};

/// After how many rounds a device settles, and its value.
#[derive(Drop)]
pub struct Settled {
    pub rounds: u32,
    pub value: Local,
}

/// The settle round and the value of each device from any exports, by rising number; none where its value isn't known
/// after so many rounds.
pub fn settle(
    alloc: Global,
    program: &Unfolded,
    network: &Network,
    cap: u32,
) -> Result<Vec<Option<Settled>>, Memory>
    requires { network.now.declared ≡ program.now.declared }
    ensures { IfOk result (λ v. map (option_map settled_in) v.items
        ≡ all_settle_to (unfolding_of program.now) (envelope_in network.now) (any_table (unfolding_of program.now))
        cap) }
{
    let envelope = exact_envelope(alloc, network)?;
    let start = any_bounds(alloc, program, &envelope)?;
    settle_over(alloc, program, &envelope, start, cap)
}

// The same from a table of bounds.
pub(crate) fn settle_over(
    alloc: Global,
    program: &Unfolded,
    envelope: &Envelope,
    start: Vec<ExportBound>,
    cap: u32,
) -> Result<Vec<Option<Settled>>, Memory>
    requires declared { envelope.now.declared ≡ program.now.declared }
    requires fits { FitTable (unfolding_of program.now) envelope.now start.items }
    ensures { IfOk result (λ v. (table : BoundTable) → Stand (unfolding_of program.now) envelope.now table start.items
        → map (option_map settled_in) v.items ≡ all_settle_to (unfolding_of program.now) envelope.now table cap) }
{
    let mut table = table_of(alloc, program, envelope, start)?;
    let mut settled = none_settled(alloc, envelope)?;
    let mut rounds = 0;
    note_reached(alloc, rounds, &table.bounds, &mut settled)?;
    while rounds < cap {
        if all_settled(&settled) {
            return Ok(settled);
        }
        let changes = round(alloc, RoundKind::Firing, program, envelope, &mut table)?;
        if !changes {
            return Ok(settled);
        }
        rounds += 1;
        note_reached(alloc, rounds, &table.bounds, &mut settled)?;
    }
    Ok(settled)
}

/// The table of any exports, from which rounds are counted that begin anyhow.
pub fn any_bounds(
    alloc: Global,
    program: &Unfolded,
    envelope: &Envelope,
) -> Result<Vec<ExportBound>, Memory>
    ensures fits { IfOk result (λ v. FitTable (unfolding_of program.now) envelope.now v.items) }
    ensures any { IfOk result (λ v. Stand (unfolding_of program.now) envelope.now (any_table (unfolding_of program.now))
        v.items) }
{
    let count = envelope.devices().len();
    let mut bounds = Vec::with_capacity(alloc, count)?;
    for _ in 0..count {
        bounds.push(any_export_bound(alloc, program)?)?;
    }
    Ok(bounds)
}

/// The settle time of a network: the greatest settle round, where each device has one; else the rounds of a yes.
pub fn settle_time(verdict: Verdict, settled: &[Option<Settled>]) -> Option<u64>
    ensures { result ≡ settle_time verdict (map (option_map settled_in) settled.now) }
{
    match (greatest_round(settled), verdict) {
        (Some(rounds), _) => Some(u64::from(rounds)),
        (None, Verdict::Yes(rounds)) => Some(rounds),
        (None, Verdict::No { .. }) => None,
    }
}

// The greatest settle round, where each device has one.
fn greatest_round(settled: &[Option<Settled>]) -> Option<u32>
    ensures { result ≡ greatest_round (map (option_map settled_in) settled.now) }
{
    let Some((first, rest)) = settled.split_first() else {
        return Some(0);
    };
    let Some(one) = first else {
        return None;
    };
    let others = greatest_round(rest)?;
    Some(one.rounds.max(others))
}

// No device has settled.
fn none_settled(alloc: Global, envelope: &Envelope) -> Result<Vec<Option<Settled>>, Memory>
    ensures many { IfOk result (λ v. length v.items ≡ length envelope.now.devices) }
    ensures none { IfOk result (λ v. All (λ (o : Option Settled). o ≡ None) v.items) }
{
    let count = envelope.devices().len();
    let mut settled = Vec::with_capacity(alloc, count)?;
    for _ in 0..count {
        settled.push(None)?;
    }
    Ok(settled)
}

// Notes the devices whose value is known for the first time.
fn note_reached(
    alloc: Global,
    rounds: u32,
    bounds: &[ExportBound],
    settled: &mut [Option<Settled>],
) -> Result<(), Memory>
    requires { length bounds.now ≡ length settled.old }
    ensures { OnOk result (AreNoted rounds bounds.now (length settled.old) settled.old settled.new) }
{
    for place in 0..settled.len() {
        if settled[place].is_none() {
            settled[place] = reached(alloc, rounds, &bounds[place])?;
        }
    }
    Ok(())
}

// What is known of a device after so many rounds.
fn reached(alloc: Global, rounds: u32, bound: &ExportBound) -> Result<Option<Settled>, Memory>
    ensures { IfOk result (λ o. option_map settled_in o
        ≡ noted rounds bound.now.sure (local_bound_in bound.now.value) None) }
{
    if !bound.sure || !is_known(&bound.value) {
        return Ok(None);
    }
    let value = value_left(alloc, &bound.value)?;
    Ok(Some(Settled { rounds, value }))
}

// Whether each device has settled.
fn all_settled(settled: &[Option<Settled>]) -> bool
    ensures { IsTrue result → All (λ (o : Option Settled). IsSome o) settled.now }
{
    settled.iter().all(|one| one.is_some())
}
