//! Sources in memory.
ghost use Rattle.std.specs.Prelude.{ℕ, ◌≡◌, ◌+◌, ◌-◌, ◌<◌, ◌≤◌, List, length, take, drop, min, IfOk, OnOk, OnErr};
ghost use Rattle.std.specs.Prelude.{Contains, Some};
ghost use Rattle.std.specs.Io.{ReadsAtMost, WritesAtMost};
ghost use Rattle.std.specs.Io.KnownBytes.{ReadConsumes, WriteAppends};
ghost use Rattle.fc_io.specs.Causes.{HasCause, counted};

use crate::outside::fault;
use crate::{Failed, Source};
use std::marker::Model;

// Copies bytes from `start` on, at most `most`, to the front of `buf`, and answers how many.
fn give(bytes: &[u8], start: usize, most: usize, buf: &mut [u8]) -> usize
    requires start { start ≤ length bytes.now }
    ensures count { result ≡ min (min most (length buf.new)) (length bytes.now - start) }
    ensures front { take result buf.new ≡ take result (drop start bytes.now) }
{
    let rest = &bytes[start..];
    let count = most.min(buf.len()).min(rest.len());
    buf[..count].copy_from_slice(&rest[..count]);
    count
}

/// A source over bytes, with a limit on the bytes that one call gives, and with chosen calls that fail.
#[derive(Drop)]
pub struct MemSource {
    bytes: Vec<u8>,
    start: usize,
    most: usize,
    fails: Vec<u64>,
    calls: u64,
    faults: u64,
}

impl Model for MemSource {
    ghost use Rattle.std.specs.Prelude.{◌<◌, ◌≤◌, ◌^◌, length, drop};
    ghost use Rattle.fc_io.specs.States.{SourceState};

    ghost Value = { SourceState };

    ghost view = { λ s. record {
      left = drop s.start s.bytes.items;
      most = s.most;
      fails = s.fails.items;
      calls = s.calls;
      faults = s.faults;
    } };

    ghost invariant = { λ s. (s.start ≤ length s.bytes.items) × (0 < s.most) };
}

impl MemSource {
    /// A call gives at most `most` bytes; the calls numbered in `fails`, from 1, fail.
    pub fn new(bytes: Vec<u8>, most: usize, fails: Vec<u64>) -> Self
        requires most { 0 < most }
        ensures fresh { result
            ≡ record { left = bytes.items; most = most; fails = fails.items; calls = 0; faults = 0 } }
    {
        MemSource {
            bytes,
            start: 0,
            most,
            fails,
            calls: 0,
            faults: 0,
        }
    }
}

impl Source for MemSource {
    ghost left = { λ s. Some s.left };

    ghost faults = { λ s. s.faults };

    fn read(&mut self, buf: &mut [u8]) -> Result<usize, Failed>
        ensures bound { ReadsAtMost result buf.new }
        ensures bytes { ReadConsumes (Some self.old.left) (Some self.new.left) result buf.new }
        ensures cause { HasCause self.old.faults self.new.faults result }
        // As many as `most`, `buf` and the bytes left allow.
        ensures count { IfOk result (λ n. n ≡ min (min self.old.most (length buf.new)) (length self.old.left)) }
        // It fails exactly at the named calls.
        ensures named { OnOk result (Contains self.old.fails (counted self.old.calls) → ⊥) }
        ensures others { OnErr result (Contains self.old.fails (counted self.old.calls)) }
        // The call is counted, and so is its fault; nothing else changes.
        ensures calls { self.new.calls ≡ counted self.old.calls }
        ensures faults { OnErr result (self.new.faults ≡ counted self.old.faults) }
        ensures most { self.new.most ≡ self.old.most }
        ensures fails { self.new.fails ≡ self.old.fails }
    {
        self.calls = self.calls.saturating_add(1);
        if self.fails.contains(&self.calls) {
            return Err(fault(&mut self.faults));
        }
        let count = give(&self.bytes, self.start, self.most, buf);
        self.start += count;
        Ok(count)
    }
}

/// A source over bytes that never fails.
#[derive(Drop)]
pub struct CalmSource {
    bytes: Vec<u8>,
    start: usize,
}

impl Model for CalmSource {
    ghost use Rattle.std.specs.Prelude.{ℕ, List, ◌≤◌, length, drop};

    ghost Value = { List ℕ };

    ghost view = { λ s. drop s.start s.bytes.items };

    ghost invariant = { λ s. s.start ≤ length s.bytes.items };
}

impl CalmSource {
    /// All the bytes are left.
    pub fn new(bytes: Vec<u8>) -> Self
        ensures fresh { result ≡ bytes.items }
    {
        CalmSource { bytes, start: 0 }
    }
}

impl Source for CalmSource {
    ghost left = { λ s. Some s };

    ghost faults = { λ _. 0 };

    fn read(&mut self, buf: &mut [u8]) -> Result<usize, Failed>
        ensures bound { ReadsAtMost result buf.new }
        ensures bytes { ReadConsumes (Some self.old) (Some self.new) result buf.new }
        ensures cause { HasCause 0 0 result }
        // It never fails, and gives as many as `buf` and the bytes left allow.
        ensures calm { OnErr result ⊥ }
        ensures count { IfOk result (λ n. n ≡ min (length buf.new) (length self.old)) }
    {
        let count = give(&self.bytes, self.start, buf.len(), buf);
        self.start += count;
        Ok(count)
    }
}
