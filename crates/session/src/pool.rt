//! What runs the rounds of a script.

ghost use Rattle.std.specs.Prelude.{◌≡◌, ◌≤◌, ◌+◌, IfOk};
ghost use Rattle.fc_values.specs.declared.limits.TheConstants.{MOST_WORKERS};
ghost use Rattle.fc_nodes.specs.Program.{unfolding_of};
ghost use Rattle.firing_core.specs.CoreViews.{core_of};
ghost use Rattle.firing_core.specs.Entries.{edit_of};
ghost use Rattle.firing_core.specs.Stretches.{MixedEdit, RanRounds};
ghost use Rattle.session.specs.Conditions.{AllowsMix, FewFirings};

use export_table::Gate;
use fc_values::Memory;
use firing_core::{Book, Edit};
use std::alloc::Global;
use std::sync::Wait;
use std::thread::Threads;
use worker_pool::{run_mixed, run_rounds};

/// A number of workers, with the runtime that starts their threads and the gate that is called between the begin and
/// the end of their firings.
#[derive(Drop)]
pub struct Pool<'a, W, G> {
    rt: &'a W,
    gate: &'a G,
    workers: u32,
    ghost some: { 1 ≤ workers },
    ghost most: { workers ≤ MOST_WORKERS },
}

impl<'a, W: Threads + Wait + Sync, G: Gate + Sync> Pool<'a, W, G> {
    /// A pool of so many workers.
    pub fn new(rt: &'a W, gate: &'a G, workers: u32) -> Pool<'a, W, G>
        requires some { 1 ≤ workers }
        requires most { workers ≤ MOST_WORKERS }
    {
        Pool { rt, gate, workers }
    }

    /// Runs so many rounds of a book's devices. It may wait.
    pub fn run(&self, alloc: Global, book: Book, rounds: u32) -> Result<Book, Memory>
        requires few { FewFirings (core_of book.core) rounds }
        ensures ran { IfOk result (λ b. RanRounds book rounds b) }
    {
        run_rounds(self.rt, alloc, book, rounds, self.workers, self.gate)
    }

    /// Makes an edit among firings, and then runs so many rounds. It may wait.
    pub fn mix(&self, alloc: Global, book: Book, rounds: u32, edit: Edit) -> Result<Book, Memory>
        requires allowed { AllowsMix (unfolding_of book.program) (core_of book.core) rounds (edit_of edit) }
        ensures mixed { IfOk result (λ b. MixedEdit book rounds (edit_of edit) b) }
    {
        run_mixed(self.rt, alloc, book, rounds, edit, self.workers, self.gate)
    }
}
