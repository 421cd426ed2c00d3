//! Sinks in memory.
ghost use Rattle.std.specs.Prelude.{ℕ, ◌≡◌, ◌+◌, ◌-◌, ◌<◌, ◌≤◌, List, [], ◌++◌, length, take, min, IfOk, IfSome, OnOk};
ghost use Rattle.std.specs.Prelude.{OnErr, Contains, Some};
ghost use Rattle.std.specs.Io.{WritesAtMost};
ghost use Rattle.std.specs.Io.KnownBytes.{WriteAppends};
ghost use Rattle.fc_io.specs.Causes.{HasCause, counted};

use crate::outside::fault;
use crate::{Failed, Sink};
use fc_values::Memory;
use std::alloc::Global;
use std::marker::Model;

/// A sink into memory, with a limit on the bytes that one call takes, and with chosen calls that fail.
#[derive(Drop)]
pub struct MemSink {
    taken: Vec<u8>,
    room: usize,
    most: usize,
    fails: Vec<u64>,
    calls: u64,
    faults: u64,
}

impl Model for MemSink {
    ghost use Rattle.std.specs.Prelude.{vec_capacity, vec_len, ◌<◌, ◌≤◌, length};
    ghost use Rattle.fc_io.specs.States.{SinkState};

    ghost Value = { SinkState };

    ghost view = { λ s. record {
      taken = s.taken.items;
      room = s.room;
      most = s.most;
      fails = s.fails.items;
      calls = s.calls;
      faults = s.faults;
    } };

    ghost invariant = { λ s. (vec_len s.taken ≤ s.room) × (s.room ≤ vec_capacity s.taken) × (0 < s.most) };
}

impl MemSink {
    /// Allocates all of its `room`. A call takes at most `most` bytes; the calls numbered in `fails`, from 1, fail.
    pub fn new(alloc: Global, room: usize, most: usize, fails: Vec<u64>) -> Result<Self, Memory>
        requires most { 0 < most }
        ensures fresh { IfOk result (λ s. s
            ≡ record { taken = []; room = room; most = most; fails = fails.items; calls = 0; faults = 0 }) }
    {
        let taken = Vec::with_capacity(alloc, room)?;
        Ok(MemSink {
            taken,
            room,
            most,
            fails,
            calls: 0,
            faults: 0,
        })
    }

    /// All bytes that were taken, in order.
    pub fn taken(&self) -> &[u8]
        ensures all { result.now ≡ self.now.taken }
        ensures within { length result.now ≤ self.now.room }
    {
        &self.taken
    }
}

impl Sink for MemSink {
    ghost taken = { λ s. Some s.taken };

    ghost faults = { λ s. s.faults };

    ghost room = { λ s. Some s.room };

    fn write(&mut self, bytes: &[u8]) -> Result<usize, Failed>
        ensures bound { WritesAtMost result bytes.now }
        ensures bytes { WriteAppends (Some self.old.taken) (Some self.new.taken) result bytes.now }
        ensures room { Some self.new.room ≡ Some self.old.room }
        ensures within { length self.new.taken ≤ self.new.room }
        ensures progress { 0 < length bytes.now → IfOk result (λ count. 0 < count) }
        ensures cause { HasCause self.old.faults self.new.faults result }
        // As many as `most`, the bytes and the room left allow.
        ensures count { IfOk result (λ n. n
            ≡ min (min self.old.most (length bytes.now)) (self.old.room - length self.old.taken)) }
        // It fails exactly at the named calls, and at those with bytes that find the room full.
        ensures named { OnOk result (Contains self.old.fails (counted self.old.calls) → ⊥) }
        ensures full { OnOk result (0 < length bytes.now → length self.old.taken < self.old.room) }
        ensures others { OnErr result ((Contains self.old.fails (counted self.old.calls) → ⊥) → (0 < length bytes.now)
            × (length self.old.taken ≡ self.old.room)) }
        // The call is counted, and so is its fault; nothing else changes.
        ensures calls { self.new.calls ≡ counted self.old.calls }
        ensures faults { OnErr result (self.new.faults ≡ counted self.old.faults) }
        ensures most { self.new.most ≡ self.old.most }
        ensures fails { self.new.fails ≡ self.old.fails }
    {
        self.calls = self.calls.saturating_add(1);
        if self.fails.contains(&self.calls) {
            return Err(fault(&mut self.faults));
        }
        let count = self.most.min(bytes.len()).min(self.room - self.taken.len());
        if count == 0 && !bytes.is_empty() {
            return Err(fault(&mut self.faults));
        }
        self.taken.extend_from_slice(&bytes[..count]).unwrap();
        Ok(count)
    }
}

/// A sink into memory that fails only where its room is full.
#[derive(Drop)]
pub struct CalmSink {
    taken: Vec<u8>,
    room: usize,
    faults: u64,
}

impl Model for CalmSink {
    ghost use Rattle.std.specs.Prelude.{vec_capacity, vec_len, ◌≡◌, ◌<◌, ◌≤◌, length};
    ghost use Rattle.fc_io.specs.States.{CalmState};

    ghost Value = { CalmState };

    ghost view = { λ s. record { taken = s.taken.items; room = s.room; faults = s.faults } };

    ghost invariant = { λ s. (vec_len s.taken ≤ s.room) × (s.room ≤ vec_capacity s.taken)
        × (0 < s.faults → vec_len s.taken ≡ s.room) };
}

impl CalmSink {
    /// Allocates all of its `room`.
    pub fn new(alloc: Global, room: usize) -> Result<Self, Memory>
        ensures fresh { IfOk result (λ s. s ≡ record { taken = []; room = room; faults = 0 }) }
    {
        let taken = Vec::with_capacity(alloc, room)?;
        Ok(CalmSink {
            taken,
            room,
            faults: 0,
        })
    }

    /// All bytes that were taken, in order.
    pub fn taken(&self) -> &[u8]
        ensures all { result.now ≡ self.now.taken }
        ensures within { length result.now ≤ self.now.room }
        // The count is 0 as long as fewer bytes were taken than there is room for.
        ensures calm { length result.now < self.now.room → self.now.faults ≡ 0 }
    {
        &self.taken
    }
}

impl Sink for CalmSink {
    ghost taken = { λ s. Some s.taken };

    ghost faults = { λ s. s.faults };

    ghost room = { λ s. Some s.room };

    fn write(&mut self, bytes: &[u8]) -> Result<usize, Failed>
        ensures progress { 0 < length bytes.now → IfOk result (λ count. 0 < count) }
        ensures cause { HasCause self.old.faults self.new.faults result }
        ensures bound { WritesAtMost result bytes.now }
        ensures bytes { WriteAppends (Some self.old.taken) (Some self.new.taken) result bytes.now }
        ensures room { Some self.new.room ≡ Some self.old.room }
        ensures within { length self.new.taken ≤ self.new.room }
        // As many as the bytes and the room left allow.
        ensures count { IfOk result (λ n. n ≡ min (length bytes.now) (self.old.room - length self.old.taken)) }
        // It fails exactly in a call with bytes that finds the room full.
        ensures full { OnOk result (0 < length bytes.now → length self.old.taken < self.old.room) }
        ensures others { OnErr result ((0 < length bytes.now) × (length self.old.taken ≡ self.old.room)) }
        ensures faults { OnErr result (self.new.faults ≡ counted self.old.faults) }
    {
        let count = bytes.len().min(self.room - self.taken.len());
        if count == 0 && !bytes.is_empty() {
            return Err(fault(&mut self.faults));
        }
        self.taken.extend_from_slice(&bytes[..count]).unwrap();
        Ok(count)
    }
}
