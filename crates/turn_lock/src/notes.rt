//! Notes under a lock: each thread with a pass writes notes, one a turn.
ghost use Rattle.std.specs.Prelude.{◌≡◌, ◌⊎◌, ◌+◌, ◌<◌, ◌≤◌, ◌∷◌, ◌++◌, [], length, replicate, refl, IfOk, IfErr};
ghost use Rattle.std.specs.Thread.{IsSync};
ghost use Rattle.turn_lock.specs.Noting.{HasRoom, Noted, Went, nothing, not_answered};

use crate::{Logged, Pass, TurnLock, Urgency};
use fc_values::Memory;
use std::alloc::Global;
use std::marker::Model;
use std::sync::Wait;
use std::thread::{Threads, join_mut};

/// A list of notes, with room for sixteen.
#[derive(Drop)]
pub struct Notes {
    list: Vec<u32>,
}

impl Model for Notes {
    ghost use Rattle.std.specs.Prelude.{ℕ, ◌≤◌, List};
    ghost use Rattle.std.specs.Vec.{vec_capacity};

    ghost Value = { List ℕ };

    ghost view = { λ n. n.list.items };

    ghost invariant = { λ n. 16 ≤ vec_capacity n.list };
}

impl Logged for Notes {
    type Entry = u32;

    ghost list = { λ n. n };

    ghost answers = { nothing };

    ghost earlier = { λ log j p e. not_answered p j e };

    ghost stays = { λ log e j l. refl };
}

impl Notes {
    /// No notes yet.
    pub fn new(alloc: Global) -> Result<Notes, Memory>
        ensures { IfOk result (λ n. n ≡ []) }
    {
        let mut list = Vec::new(alloc);
        list.reserve(16)?;
        Ok(Notes { list })
    }

    /// The notes in order.
    pub fn as_slice(&self) -> &[u32]
        ensures { result.now ≡ self.now }
    {
        self.list.as_slice()
    }

    /// Appends one note.
    pub fn push(&mut self, note: u32)
        requires { length self.old < 16 }
        ensures { self.new ≡ self.old ++ note ∷ [] }
    {
        self.list.push_reserved(note);
    }
}

/// Writes a note in one turn.
pub fn write<W: Wait>(rt: &W, lock: &TurnLock<Notes>, pass: &mut Pass<Notes>, note: u32)
    requires own { pass.old.lock ≡ lock.now }
    requires room { HasRoom pass.old }
    requires some { 0 < pass.old.left }
    ensures noted { Noted pass.old pass.new note }
{
    lock.turn(
        rt,
        pass,
        Urgency::Low,
        |notes: &mut Notes|
            requires { length notes.old < 16 }
            ensures { notes.new ≡ notes.old ++ note ∷ [] }
        { notes.push(note) },
    );
}

// Two threads with a pass each write one note each.
fn write_both<R: Threads + Wait + Sync>(
    rt: &R,
    lock: &TurnLock<Notes>,
    pass: &mut Pass<Notes>,
    other: &mut Pass<Notes>,
    one: u32,
    two: u32,
)
    requires own { (pass.old.lock ≡ lock.now) × (other.old.lock ≡ lock.now) }
    requires room { HasRoom pass.old × HasRoom other.old }
    requires some { (0 < pass.old.left) × (0 < other.old.left) }
    ensures noted { Noted pass.old pass.new one × Noted other.old other.new two }
{
    join_mut(
        rt,
        &mut ||
            requires own { pass.now.lock ≡ lock.now }
            requires room { HasRoom pass.now }
            requires some { 0 < pass.now.left }
            ensures noted { Noted pass.entry.now pass.exit.now one }
        { write(rt, lock, pass, one) },
        &mut ||
            requires own { other.now.lock ≡ lock.now }
            requires room { HasRoom other.now }
            requires some { 0 < other.now.left }
            ensures noted { Noted other.entry.now other.exit.now two }
        { write(rt, lock, other, two) },
    );
}

/// Two threads with a pass each write one note each, are joined, and the lock is closed.
pub fn two_notes<R: Threads + Wait + Sync>(
    rt: &R,
    alloc: Global,
    notes: Notes,
    one: u32,
    two: u32,
) -> Result<Notes, (Notes, Memory)>
    requires room { length notes + 2 ≤ 16 }
    ensures made { IfOk result (λ n. (n ≡ notes ++ one ∷ two ∷ []) ⊎ (n ≡ notes ++ two ∷ one ∷ [])) }
    ensures refused { IfErr result (λ r. r.0 ≡ notes) }
{
    let (lock, mut pass) = TurnLock::new(alloc, notes, 2)?;
    let mut other = lock.split(&mut pass, 1);
    write_both(rt, &lock, &mut pass, &mut other, one, two);
    lock.join(&mut pass, other);
    Ok(lock.close(pass))
}

/// As many threads as `writers` write the same note once each, with passes that are split from this one and joined
/// back.
#[cycle(fan)]
pub fn fan<R: Threads + Wait + Sync>(
    rt: &R,
    lock: &TurnLock<Notes>,
    pass: &mut Pass<Notes>,
    writers: u64,
    note: u32,
)
    requires sync { IsSync R.row }
    requires own { pass.old.lock ≡ lock.now }
    requires room { HasRoom pass.old }
    requires some { (writers ≤ pass.old.left) × (0 < writers) }
    ensures went { Went pass.old pass.new writers note }
{
    if writers == 1 {
        write(rt, lock, pass, note);
        return;
    }
    let half = writers / 2;
    let mut other = lock.split(pass, half);
    fan_both(rt, lock, pass, &mut other, writers - half, half, note);
    lock.join(pass, other);
}

// The same with two passes.
#[cycle(fan)]
fn fan_both<R: Threads + Wait + Sync>(
    rt: &R,
    lock: &TurnLock<Notes>,
    pass: &mut Pass<Notes>,
    other: &mut Pass<Notes>,
    first: u64,
    second: u64,
    note: u32,
)
    requires sync { IsSync R.row }
    requires own { (pass.old.lock ≡ lock.now) × (other.old.lock ≡ lock.now) }
    requires room { HasRoom pass.old × HasRoom other.old }
    requires some { (first ≤ pass.old.left) × (0 < first) × (second ≤ other.old.left) × (0 < second) }
    ensures went { Went pass.old pass.new first note × Went other.old other.new second note }
{
    join_mut(
        rt,
        &mut ||
            requires sync { IsSync R.row }
            requires own { pass.now.lock ≡ lock.now }
            requires room { HasRoom pass.now }
            requires some { (first ≤ pass.now.left) × (0 < first) }
            ensures went { Went pass.entry.now pass.exit.now first note }
        { fan(rt, lock, pass, first, note) },
        &mut ||
            requires sync { IsSync R.row }
            requires own { other.now.lock ≡ lock.now }
            requires room { HasRoom other.now }
            requires some { (second ≤ other.now.left) × (0 < second) }
            ensures went { Went other.entry.now other.exit.now second note }
        { fan(rt, lock, other, second, note) },
    );
}

/// As many threads as `writers` write the same note once each, are joined, and the lock is closed.
pub fn many_notes<R: Threads + Wait + Sync>(
    rt: &R,
    alloc: Global,
    notes: Notes,
    writers: u64,
    note: u32,
) -> Result<Notes, (Notes, Memory)>
    requires sync { IsSync R.row }
    requires room { length notes + writers ≤ 16 }
    requires some { 0 < writers }
    ensures made { IfOk result (λ n. n ≡ notes ++ replicate writers note) }
    ensures refused { IfErr result (λ r. r.0 ≡ notes) }
{
    let (lock, mut pass) = TurnLock::new(alloc, notes, writers)?;
    fan(rt, &lock, &mut pass, writers, note);
    Ok(lock.close(pass))
}
