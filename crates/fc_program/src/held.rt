//! Firings that are held at the gate until another device's firing has come there: workers fire at the same time, and
//! while the caller edits.

use crate::ending::CallEnd;
use crate::hostile::words;
use crate::top::fc;
use export_table::{Firing, Gate};
use fc_io::{CalmSink, CalmSource};
use firing_core::{Book, Entry};
use std::alloc::Global;
use std::process::Abort;
use std::sync::Wait;
use std::sync::atomic::{AtomicU64, Ordering};
use std::test::Fail;
use std::thread::Threads;

// How often a firing that is held looks whether it may go on.
const LOOKS: u64 = 100_000_000;

// A gate that holds each firing of one device until another device has come as often.
#[derive(Drop)]
struct HoldingGate {
    held: u32,
    awaited: u32,
    holds: AtomicU64,
    came: AtomicU64,
    seen: AtomicU64,
}

impl HoldingGate {
    fn new(held: u32, awaited: u32) -> HoldingGate {
        HoldingGate {
            held,
            awaited,
            holds: AtomicU64::new(0),
            came: AtomicU64::new(0),
            seen: AtomicU64::new(0),
        }
    }

    // Waits until the other device has come so often.
    fn hold(&self, times: u64) {
        for _ in 0..LOOKS {
            if self.came.load(Ordering::SeqCst) >= times {
                self.seen.fetch_add(1, Ordering::SeqCst);
                return;
            }
        }
    }
}

impl Gate for HoldingGate {
    fn between(&self, firing: &Firing) {
        if firing.device() == self.awaited {
            self.came.fetch_add(1, Ordering::SeqCst);
        }
        if firing.device() == self.held {
            let before = self.holds.fetch_add(1, Ordering::SeqCst);
            self.hold(before.wrapping_add(1));
        }
    }
}

// The book of a run by two workers over such a gate, which has seen so many of its firings go on.
fn held_run(
    rt: &(impl Abort + Threads + Wait + Sync),
    alloc: Global,
    input: &str,
    gate: &HoldingGate,
    seen: u64,
) -> Result<Book, Fail> {
    let words = words(alloc, &["fc", "run", "--workers", "2"])?;
    let mut source = CalmSource::new(input.as_bytes().to_vec(alloc)?);
    let mut sink = CalmSink::new(alloc, 100)?;
    let CallEnd {
        status,
        book,
        parts: _parts,
    } = fc(rt, alloc, &words, &mut source, &mut sink, gate);
    assert_eq!(rt; status, 0);
    assert_eq!(rt; gate.seen.load(Ordering::SeqCst), seen);
    match book {
        Some(book) => Ok(book),
        None => Err(Fail::new("no book")),
    }
}

// Device 1 ends before device 2 begins, and device 2 begins before device 0 ends.
fn goes_round(log: &[Entry]) -> bool {
    let mut steps = 0;
    for entry in log {
        steps = match (steps, entry) {
            (0, Entry::End(1)) => 1,
            (1, Entry::Begin(2)) => 2,
            (2, Entry::End(0)) => 3,
            _ => steps,
        };
    }
    steps == 3
}

// An edit stands between a begin of device 1 and its end.
fn is_edited_in_flight(log: &[Entry]) -> bool {
    let mut flies = false;
    let mut is_edited = false;
    for entry in log {
        match entry {
            Entry::Begin(1) => flies = true,
            Entry::End(1) => flies = false,
            Entry::Edit(_) => is_edited = is_edited || flies,
            _ => {}
        }
    }
    is_edited
}

// Three devices in a line.
const THREE: &str = "ceiling 10; main = minHoodLoc(nbr{1} + 1, 5);\n%%\n\
    {\"devices\":[{\"id\":0,\"inputs\":{}},{\"id\":1,\"inputs\":{}},{\"id\":2,\"inputs\":{}}],\"links\":[[0,1,1],[1,2,1]]}\n%%\n\
    run 1\n";

#[test]
fn held_firing(rt: HostRuntime) -> Result<(), Fail> {
    let gate = HoldingGate::new(0, 2);
    let book = held_run(&rt, rt.alloc(), THREE, &gate, 1)?;
    assert!(rt; goes_round(book.log()));
    Ok(())
}

// Two devices with a link, and several mixes, since the thread that edits may be faster than the worker. In a mix device 0
// comes after the edit.
const TWO: &str = "ceiling 10; main = minHoodLoc(nbr{1} + 1, 5);\n%%\n\
    {\"devices\":[{\"id\":0,\"inputs\":{}},{\"id\":1,\"inputs\":{}}],\"links\":[[0,1,1]]}\n%%\n\
    mix 1 unlink 0 1\nmix 1 link 0 1 1\nmix 1 unlink 0 1\nmix 1 link 0 1 1\nmix 1 unlink 0 1\nmix 1 link 0 1 1\n";

#[test]
fn held_mix(rt: HostRuntime) -> Result<(), Fail> {
    let gate = HoldingGate::new(1, 0);
    let book = held_run(&rt, rt.alloc(), TWO, &gate, 12)?;
    assert!(rt; is_edited_in_flight(book.log()));
    Ok(())
}
