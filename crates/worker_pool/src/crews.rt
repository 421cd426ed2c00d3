//! What the workers of one table share.

ghost use Rattle.std.specs.Prelude.{◌≡◌, ◌<◌, ◌≤◌, ◌^◌, [], IfOk, length};
ghost use Rattle.topology.specs.Networks.{IsNetwork};
ghost use Rattle.firing_core.specs.CoreViews.{core_of};
ghost use Rattle.firing_core.specs.Entries.{entries_of};
ghost use Rattle.firing_core.specs.Stretches.{NoneFlies};
ghost use Rattle.turn_lock.specs.Passes.{opened};
ghost use Rattle.export_table.specs.Holding.{BeginsWithin, EachIsNext, opening_of};
ghost use Rattle.export_table.specs.Passing.{IsPassOf, on_log};
ghost use Rattle.export_table.specs.Turns.{Closes};

use crate::bell::Bell;
use crate::shorts::device_at;
use export_table::{Held, Shared};
use fc_nodes::Unfolded;
use fc_values::Memory;
use firing_core::Book;
use std::alloc::Global;
use std::sync::Arc;
use std::sync::atomic::{AtomicBool, Ordering};
use turn_lock::Pass;

// By calculation, with fewer nodes a firing takes no longer than the turns of its begin and its end, so a second worker
// that fires all the time only stands in the way of the first.
const FEW_NODES: u32 = 48;

/// The table, its program, the bell that rings when a round begins, the number of the device that begins rounds, whether
/// workers but the first are in reserve, whether the first is there, the gate, and where memory comes from.
pub(crate) struct Crew<'a, G> {
    pub(crate) alloc: Global,
    pub(crate) shared: Shared,
    pub(crate) program: Arc<Unfolded>,
    pub(crate) bell: Bell,
    pub(crate) first: u32,
    has_reserve: bool,
    is_led: AtomicBool,
    pub(crate) gate: &'a G,
    ghost same: { program.value ≡ shared.opening.program },
}

impl<'a, G> Crew<'a, G> {
    /// Opens a table over a book in which nothing flies.
    pub(crate) fn open(
        alloc: Global,
        book: Book,
        rounds: u32,
        turns: u64,
        gate: &'a G,
    ) -> Result<(Crew<'a, G>, Pass<Held>), Memory>
        requires rests { NoneFlies (core_of book.core) }
        requires few { turns < 2 ^ 32 }
        ensures opening { IfOk result (λ r. r.0.shared.opening ≡ opening_of book rounds turns (length book.log)) }
        ensures pass { IfOk result (λ r. on_log r.1 ≡ opened r.0.shared.lock (entries_of book.log) turns) }
        ensures own { IfOk result (λ r. IsPassOf r.0.shared r.1) }
    {
        let Ok(program) = book.program().clone() else {
            return Err(Memory);
        };
        let first = device_at(&book, 0);
        let has_reserve = program.size() < FEW_NODES;
        let Ok((shared, pass)) = Shared::over(alloc, book, rounds, turns) else {
            return Err(Memory);
        };
        let crew = Crew {
            alloc,
            shared,
            program,
            bell: Bell::new(),
            first,
            has_reserve,
            is_led: AtomicBool::new(false),
            gate,
        };
        Ok((crew, pass))
    }

    /// Takes in a worker. The answer is whether it is in reserve: the first never is.
    pub(crate) fn enlist(&self) -> bool {
        self.is_led.swap(true, Ordering::SeqCst) && self.has_reserve
    }

    /// The book, for the one pass that is left.
    pub(crate) fn close(self, pass: Pass<Held>) -> Book
        requires own { IsPassOf self.shared pass }
        requires last { (pass.name ≡ []) × (pass.out ≡ []) }
        ensures closes { Closes self.entry.shared.opening (on_log pass) result }
        ensures within { BeginsWithin self.entry.shared.opening (entries_of result.log) }
        ensures next { EachIsNext self.entry.shared.opening (entries_of result.log) }
    {
        let Crew {
            alloc: _,
            shared,
            program: _,
            bell: _,
            first: _,
            has_reserve: _,
            is_led: _,
            gate: _,
        } = self;
        shared.close(pass)
    }
}
