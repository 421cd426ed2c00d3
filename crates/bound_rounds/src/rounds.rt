//! Rounds over a table of bounds: what each device may hold after the next firings.

ghost use Rattle.std.specs.Prelude.{ℕ, ◌≡◌, ◌<◌, true, false, IfOk, OnOk, length};
ghost use Rattle.std.specs.Prelude.{slice_index_or as get_or};
ghost use Rattle.fc_nodes.specs.Terms.{kept};
ghost use Rattle.fc_nodes.specs.Program.{unfolding_of};
ghost use Rattle.bound_firing.specs.ExportReferences.{export_bound_in};
ghost use Rattle.envelopes.specs.Envelopes.{IsEnvelope};
ghost use Rattle.bound_rounds.specs.Rounds.{BoundTable, fired_within, next_within};
ghost use Rattle.bound_rounds.specs.Tables.{Stand, FitTable, SeeTable, AreMarked, AllMarked, AreSwapped};
ghost use Rattle.bound_rounds.specs.Tables.{IsReady, IsFiredTable, IsRound, device_at};

use crate::drafts::drafts_for;
use bound_firing::{ExportBound, NearSeat, OwnSeat, Seats, fire_bounds};
use envelopes::Envelope;
use export_bounds::{same_export_bound, widen_bound};
use fc_nodes::Unfolded;
use fc_values::Memory;
use std::alloc::Global;
use std::mem::swap;

/// What a round makes of the bound of a device: what the device fires to, or either of this and what it had.
#[derive(Clone, Copy, Debug, PartialEq, Eq)]
pub enum RoundKind {
    Firing,
    Growing,
}

/// The bounds of the exports of all devices, by their places in the envelope; room for those of the next round; which
/// of them the last round changed; and which of them the next one may change.
#[derive(Drop)]
pub struct Table {
    pub bounds: Vec<ExportBound>,
    pub drafts: Vec<ExportBound>,
    pub changed: Vec<bool>,
    pub due: Vec<bool>,
}

/// A table with these bounds, all of which the next round may change.
pub fn table_of(
    alloc: Global,
    program: &Unfolded,
    envelope: &Envelope,
    bounds: Vec<ExportBound>,
) -> Result<Table, Memory>
    requires { FitTable (unfolding_of program.now) envelope.now bounds.items }
    ensures ready { IfOk result (λ t. (k : RoundKind) → IsReady k (unfolding_of program.now) envelope.now t) }
    ensures bounds { IfOk result (λ t. (table : BoundTable)
        → Stand (unfolding_of program.now) envelope.now table bounds.items
        → Stand (unfolding_of program.now) envelope.now table t.bounds.items) }
    ensures envelope { OnOk result (IsEnvelope envelope.now) }
{
    let count = envelope.devices().len();
    let drafts = drafts_for(alloc, &bounds)?;
    let changed = vec![in alloc; false; count]?;
    let due = vec![in alloc; true; count]?;
    Ok(Table {
        bounds,
        drafts,
        changed,
        due,
    })
}

/// Makes a round: whether it changed a bound.
pub fn round(
    alloc: Global,
    kind: RoundKind,
    program: &Unfolded,
    envelope: &Envelope,
    table: &mut Table,
) -> Result<bool, Memory>
    requires declared { envelope.now.declared ≡ program.now.declared }
    requires ready { IsReady kind (unfolding_of program.now) envelope.now table.old }
    ensures ready { OnOk result (IsReady kind (unfolding_of program.now) envelope.now table.new) }
    ensures round { IfOk result (λ c. IsRound kind (unfolding_of program.now) envelope.now table.old.bounds.items c
        table.new.bounds.items) }
    ensures envelope { OnOk result (IsEnvelope envelope.now) }
{
    fire_due(alloc, kind, program, envelope, table)?;
    take_drafts(&table.changed, &mut table.bounds, &mut table.drafts);
    mark_due(envelope, &table.changed, &mut table.due);
    Ok(table.changed.contains(&true))
}

// Puts what the round makes of each device that is due into its draft.
fn fire_due(
    alloc: Global,
    kind: RoundKind,
    program: &Unfolded,
    envelope: &Envelope,
    table: &mut Table,
) -> Result<(), Memory>
    requires declared { envelope.now.declared ≡ program.now.declared }
    requires ready { IsReady kind (unfolding_of program.now) envelope.now table.old }
    ensures fired { OnOk result (IsFiredTable kind (unfolding_of program.now) envelope.now table.new) }
    ensures bounds { table.new.bounds ≡ table.old.bounds }
    ensures envelope { IsEnvelope envelope.now }
{
    for place in 0..envelope.devices().len() {
        let mut changed = false;
        if table.due[place] {
            table.due[place] = false;
            changed = renew(
                alloc,
                kind,
                program,
                envelope,
                &table.bounds,
                place,
                &mut table.drafts[place],
            )?;
        }
        table.changed[place] = changed;
    }
    Ok(())
}

// Puts what the round makes of the device at a place into a draft: whether it is another bound.
fn renew(
    alloc: Global,
    kind: RoundKind,
    program: &Unfolded,
    envelope: &Envelope,
    bounds: &[ExportBound],
    place: usize,
    draft: &mut ExportBound,
) -> Result<bool, Memory>
    requires declared { envelope.now.declared ≡ program.now.declared }
    requires bounds { FitTable (unfolding_of program.now) envelope.now bounds.now }
    requires draft { length draft.old.slots.items ≡ kept (unfolding_of program.now).main }
    requires within { place < length envelope.now.devices }
    ensures next { OnOk result ((table : BoundTable) → Stand (unfolding_of program.now) envelope.now table bounds.now
        → export_bound_in (unfolding_of program.now) draft.new
        ≡ next_within kind (unfolding_of program.now) envelope.now table (device_at envelope.now place)) }
    ensures same { IfOk result (λ c. c ≡ false → export_bound_in (unfolding_of program.now) draft.new
        ≡ export_bound_in (unfolding_of program.now) (get_or bounds.now place draft.new)) }
    ensures other { IfOk result (λ c. c ≡ true → export_bound_in (unfolding_of program.now) draft.new
        ≡ export_bound_in (unfolding_of program.now) (get_or bounds.now place draft.new) → ⊥) }
    ensures slots { length draft.new.slots.items ≡ length draft.old.slots.items }
{
    fire(alloc, program, envelope, bounds, place, draft)?;
    let had = &bounds[place];
    match kind {
        RoundKind::Firing => {}
        RoundKind::Growing => {
            widen_bound(alloc, program, had, draft)?;
        }
    }
    Ok(!same_export_bound(had, draft))
}

// Fires the device at a place into a draft.
fn fire(
    alloc: Global,
    program: &Unfolded,
    envelope: &Envelope,
    bounds: &[ExportBound],
    place: usize,
    draft: &mut ExportBound,
) -> Result<(), Memory>
    requires declared { envelope.now.declared ≡ program.now.declared }
    requires bounds { FitTable (unfolding_of program.now) envelope.now bounds.now }
    requires draft { length draft.old.slots.items ≡ kept (unfolding_of program.now).main }
    requires within { place < length envelope.now.devices }
    ensures fired { OnOk result ((table : BoundTable) → Stand (unfolding_of program.now) envelope.now table bounds.now
        → export_bound_in (unfolding_of program.now) draft.new
        ≡ fired_within (unfolding_of program.now) envelope.now table (device_at envelope.now place)) }
    ensures slots { length draft.new.slots.items ≡ length draft.old.slots.items }
{
    let device = &envelope.devices()[place];
    let seats = seats_at(alloc, envelope, bounds, place)?;
    fire_bounds(
        alloc,
        program,
        device.id,
        &device.inputs,
        &seats,
        device.sure,
        draft,
    )?;
    Ok(())
}

// What the device at a place sees of a table.
fn seats_at<'a>(
    alloc: Global,
    envelope: &Envelope,
    bounds: &'a [ExportBound],
    place: usize,
) -> Result<Seats<'a>, Memory>
    requires many { length bounds.now ≡ length envelope.now.devices }
    requires within { place < length envelope.now.devices }
    ensures { IfOk result (SeeTable envelope.now bounds.now (device_at envelope.now place)) }
{
    let neighbours = envelope.neighbours_at(place);
    let mut near = Vec::with_capacity(alloc, neighbours.len())?;
    for neighbour in neighbours {
        let link = neighbour.1;
        let bound = &bounds[envelope.place(neighbour.0)];
        near.push(NearSeat {
            device: neighbour.0,
            least: link.least,
            greatest: link.greatest,
            sure: link.sure && bound.sure,
            slots: &bound.slots,
        })?;
    }
    let bound = &bounds[place];
    let own = Some(OwnSeat {
        sure: bound.sure,
        slots: &bound.slots,
    });
    Ok(Seats { own, near })
}

// Swaps the bounds of the devices that changed with their drafts.
fn take_drafts(changed: &[bool], bounds: &mut [ExportBound], drafts: &mut [ExportBound])
    requires bounds { length bounds.old ≡ length changed.now }
    requires drafts { length drafts.old ≡ length changed.now }
    ensures bounds { AreSwapped changed.now (length changed.now) bounds.old drafts.old bounds.new }
    ensures drafts { AreSwapped changed.now (length changed.now) drafts.old bounds.old drafts.new }
{
    for place in 0..changed.len() {
        if changed[place] {
            swap(&mut bounds[place], &mut drafts[place]);
        }
    }
}

// Marks what the next round may change: the devices that changed, and their neighbours.
fn mark_due(envelope: &Envelope, changed: &[bool], due: &mut [bool])
    requires changed { length changed.now ≡ length envelope.now.devices }
    requires due { length due.old ≡ length envelope.now.devices }
    ensures { AllMarked envelope.now changed.now (length changed.now) due.new }
{
    for place in 0..changed.len() {
        if changed[place] {
            mark_near(envelope, place, due);
        }
    }
}

// Marks the device at a place and its neighbours.
fn mark_near(envelope: &Envelope, place: usize, due: &mut [bool])
    requires due { length due.old ≡ length envelope.now.devices }
    requires within { place < length envelope.now.devices }
    ensures marked { AreMarked envelope.now (device_at envelope.now place) due.new }
    ensures kept { (i : ℕ) → get_or due.new i true ≡ false → get_or due.old i true ≡ false }
{
    due[place] = true;
    for neighbour in envelope.neighbours_at(place) {
        due[envelope.place(neighbour.0)] = true;
    }
}
