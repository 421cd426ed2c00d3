//! What is left to begin.

ghost use Rattle.std.specs.Prelude.{◌≡◌, ◌↔◌, ◌<◌, ◌≤◌, ◌+◌, length, true};
ghost use Rattle.export_table.specs.Agendas.{HasEnded, EndedExactly, IsReady, NoneReady, EndedBefore, IsLeastEnded};
ghost use Rattle.export_table.specs.Agendas.{IsInRound, first_row, row_at};

use fc_values::Memory;
use firing_core::Edit;
use std::alloc::Global;
use std::marker::Model;
use topology::Network;

/// How many firings a device has begun, and whether it rests, which is that none of them is in flight.
#[derive(Drop)]
pub(crate) struct Row {
    device: u32,
    begun: u32,
    rests: bool,
}

impl Row {
    // The row of a device that has begun nothing.
    fn first(device: u32) -> Row
        ensures { result ≡ first_row device }
    {
        Row {
            device,
            begun: 0,
            rests: true,
        }
    }

    // How many firings it has ended.
    fn ended(&self) -> u32
        requires { HasEnded 0 self.now }
        ensures { EndedExactly result self.now }
    {
        if self.rests {
            self.begun
        } else {
            self.begun - 1
        }
    }

    // Whether it rests and has begun so many firings.
    fn is_ready(&self, round: u32) -> bool
        ensures { (result ≡ true) ↔ IsReady round self.now }
    {
        self.rests && self.begun == round
    }
}

// The first row from a place on that rests and has begun so many firings, or how many rows there are.
fn first_ready(rows: &[Row], round: u32, from: usize) -> usize
    requires before { NoneReady round rows.now from }
    requires within { from ≤ length rows.now }
    ensures before { NoneReady round rows.now result }
    ensures within { result ≤ length rows.now }
    ensures ready { result < length rows.now → IsReady round (row_at rows.now result) }
{
    let mut at = from;
    while at < rows.len() && !rows[at].is_ready(round) {
        at += 1;
    }
    at
}

// The first row from a place on that has ended no more than so many firings, or how many rows there are.
fn first_behind(rows: &[Row], round: u32, from: usize) -> usize
    requires each { EndedBefore round rows.now (length rows.now) }
    requires before { EndedBefore (round + 1) rows.now from }
    requires within { from ≤ length rows.now }
    ensures before { EndedBefore (round + 1) rows.now result }
    ensures within { result ≤ length rows.now }
    ensures behind { result < length rows.now → EndedExactly round (row_at rows.now result) }
{
    let mut at = from;
    while at < rows.len() && rows[at].ended() > round {
        at += 1;
    }
    at
}

// The least number of firings that a device has ended, at most this many.
fn least_ended(rows: &[Row], most: u32) -> u32
    requires { EndedBefore 0 rows.now (length rows.now) }
    ensures { IsLeastEnded result rows.now most }
{
    let mut least = most;
    for row in rows {
        least = least.min(row.ended());
    }
    least
}

/// What a table may begin: the firing of the row at a place, or nothing now. Then it is over where each device has
/// begun all its firings.
#[derive(Drop)]
pub(crate) enum Next {
    Begins(usize),
    Rests { is_over: bool },
}

impl Next {
    // What may begin in a round, by how many rows stand before the first that is ready.
    fn in_round(first: usize, rows: usize, round: u32, rounds: u32) -> Next
        requires { round ≤ rounds }
        ensures { IsInRound first rows round rounds result }
    {
        if first < rows && round < rounds {
            Next::Begins(first)
        } else {
            Next::Rests {
                is_over: rounds - round <= 1,
            }
        }
    }
}

/// A row for each device of a network, in their order.
#[derive(Drop)]
pub(crate) struct Agenda {
    // how many firings each may begin
    rounds: u32,
    // each has ended at least so many firings
    round: u32,
    rows: Vec<Row>,
    // no row before this place rests with so many firings begun
    first: usize,
    // each row before this place has ended more firings
    ended: usize,
}

impl Model for Agenda {
    ghost use Rattle.std.specs.Prelude.{◌-◌, vec_capacity, vec_len};
    ghost use Rattle.export_table.specs.Agendas.{AgendaValue, agenda_with, IsKept};

    ghost Value = { AgendaValue };

    ghost view = { λ a. agenda_with a.rounds a.rows.items (vec_capacity a.rows - vec_len a.rows) };

    ghost invariant = { λ a. IsKept a.rounds a.rows.items a.round a.first a.ended };
}

impl Agenda {
    ghost use Rattle.std.specs.Prelude.{◌≡◌, ◌<◌, ◌≤◌, ◌+◌, ℕ, length, IfOk, OnOk, OnErr, map, slice_set};
    ghost use Rattle.std.specs.List.{insert, remove};
    ghost use Rattle.topology.specs.Networks.{numbers};
    ghost use Rattle.export_table.specs.Agendas.{Finds, IsNextRow, begun_row, ended_row};
    ghost use Rattle.export_table.specs.Changes.{Fits, HasSpare, IsJoin, after_change};

    /// The agenda of the devices of a network, none of which has begun a firing or is in flight.
    pub(crate) fn new(alloc: Global, rounds: u32, net: &Network) -> Result<Agenda, Memory>
        ensures rounds { IfOk result (λ a. a.rounds ≡ rounds) }
        ensures rows { IfOk result (λ a. a.rows ≡ map first_row (numbers net.now.devices)) }
    {
        let devices = net.devices();
        let mut rows = Vec::with_capacity(alloc, devices.len())?;
        for device in devices {
            rows.push(Row::first(device.id))?;
        }
        Ok(Agenda {
            rounds,
            round: 0,
            rows,
            first: 0,
            ended: 0,
        })
    }

    /// The device of a row.
    pub(crate) fn device(&self, place: usize) -> u32
        requires place { place < length self.now.rows }
        ensures { result ≡ (row_at self.now.rows place).device }
    {
        self.rows[place].device
    }

    /// The row of the smallest device that may begin, or none. It goes on from where the last call stopped, and looks
    /// at each row anew only where a round is over.
    pub(crate) fn next(&mut self) -> Next
        ensures same { self.new ≡ self.old }
        ensures found { Finds self.old result }
    {
        self.first = first_ready(&self.rows, self.round, self.first);
        self.ended = first_behind(&self.rows, self.round, self.ended);
        if self.first == self.rows.len() && self.ended == self.rows.len() {
            self.round = least_ended(&self.rows, self.rounds);
            self.first = first_ready(&self.rows, self.round, 0);
            self.ended = 0;
        }
        Next::in_round(self.first, self.rows.len(), self.round, self.rounds)
    }

    /// The smallest device that may begin begins a firing.
    pub(crate) fn begin(&mut self, place: usize)
        requires { IsNextRow self.old place }
        ensures rounds { self.new.rounds ≡ self.old.rounds }
        ensures rows { self.new.rows ≡ slice_set self.old.rows place (begun_row (row_at self.old.rows place)) }
    {
        let row = &mut self.rows[place];
        row.begun += 1;
        row.rests = false;
        self.first = place + 1;
    }

    /// The device of a row ends its firing.
    pub(crate) fn end(&mut self, place: usize)
        requires place { place < length self.old.rows }
        ensures rounds { self.new.rounds ≡ self.old.rounds }
        ensures rows { self.new.rows ≡ slice_set self.old.rows place (ended_row (row_at self.old.rows place)) }
    {
        self.rows[place].rests = true;
    }

    /// Takes the memory for what an edit changes.
    pub(crate) fn prepare(&mut self, change: &Change) -> Result<(), Memory>
        ensures rounds { self.new.rounds ≡ self.old.rounds }
        ensures rows { self.new.rows ≡ self.old.rows }
        ensures spare { OnOk result (HasSpare self.new change.now) }
        ensures joins { OnErr result (IsJoin change.now) }
    {
        match change {
            Change::Join { .. } => self.rows.reserve(1)?,
            Change::Leave(_) | Change::Nothing => {}
        }
        Ok(())
    }

    /// What an edit changes.
    pub(crate) fn change(&mut self, change: Change)
        requires fits { Fits self.old change }
        requires spare { HasSpare self.old change }
        ensures rounds { self.new.rounds ≡ self.old.rounds }
        ensures rows { self.new.rows ≡ after_change self.old.rows change }
    {
        match change {
            Change::Join { place, device } => self.join(place, device),
            Change::Leave(place) => self.leave(place),
            Change::Nothing => {}
        }
    }

    // A device joins, which has begun nothing, with its row at this place.
    fn join(&mut self, place: usize, device: u32)
        requires place { place ≤ length self.old.rows }
        requires spare { 1 ≤ self.old.spare }
        ensures rounds { self.new.rounds ≡ self.old.rounds }
        ensures rows { self.new.rows ≡ insert self.old.rows place (first_row device) }
    {
        let _ = self.rows.insert(place, Row::first(device));
        self.round = 0;
        self.first = 0;
        self.ended = 0;
    }

    // The device of a row leaves.
    fn leave(&mut self, place: usize)
        requires place { place < length self.old.rows }
        ensures rounds { self.new.rounds ≡ self.old.rounds }
        ensures rows { self.new.rows ≡ remove self.old.rows place }
    {
        self.rows.remove(place);
        self.first = 0;
        self.ended = 0;
    }
}

/// What an edit changes in an agenda: a row more, before the one at a place, a row less, or nothing.
#[derive(Drop)]
pub(crate) enum Change {
    Join { place: usize, device: u32 },
    Leave(usize),
    Nothing,
}

ghost use Rattle.firing_core.specs.Entries.{edit_of};
ghost use Rattle.export_table.specs.Changes.{IsChange};

/// What an edit of a network changes, where the network allows it.
pub(crate) fn change_of(edit: &Edit, net: &Network) -> Change
    ensures { IsChange net.now.devices (edit_of edit.now) result }
{
    match edit {
        Edit::Join(device) => Change::Join {
            place: net.room(device.id),
            device: device.id,
        },
        Edit::Leave(device) => match net.place(*device) {
            Some(place) => Change::Leave(place),
            None => Change::Nothing,
        },
        Edit::Link(_, _, _) | Edit::Unlink(_, _) | Edit::Set(_, _, _) | Edit::Poke(_, _) => {
            Change::Nothing
        }
    }
}
