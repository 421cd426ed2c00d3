//! Whole scripts.

ghost use Rattle.std.specs.Prelude.{◌≡◌, [], IfOk, map};
ghost use Rattle.fc_nodes.specs.Program.{unfolding_of};
ghost use Rattle.firing_core.specs.CoreViews.{core_of};
ghost use Rattle.edit_commands.specs.Scripts.{at_start, numbered};
ghost use Rattle.edit_commands.specs.JudgedCommands.{AreJudged};
ghost use Rattle.session.specs.Sessions.{HasRun};

use crate::pool::Pool;
use crate::sessions::Session;
use crate::showing::verdict_on;
use edit_commands::Line;
use export_table::Gate;
use fc_nodes::Unfolded;
use fc_values::Memory;
use firing_core::{Book, Core, runs_cut, steps_keep_good};
use report::verdict_line;
use round_bound::Analysis;
use std::alloc::Global;
use std::sync::{Arc, Wait};
use std::thread::Threads;

// The session of a core before the first line: its text is the line of the verdict.
fn start(
    alloc: Global,
    analysis: &Analysis<'_>,
    program: Arc<Unfolded>,
    core: Core,
) -> Result<Session, Memory>
    requires program { program.value ≡ core.program }
    requires analysed { analysis.now ≡ program.value }
    ensures { IfOk result (HasRun program.value core []) }
{
    let verdict = verdict_on(alloc, analysis, &core)?;
    let text = verdict_line(alloc, &verdict)?;
    let Ok(book) = Book::new(alloc, program, core) else {
        return Err(Memory);
    };
    let parts = Vec::new(alloc);
    Ok(Session { book, parts, text })
}

/// Does what the lines of a script ask for, one after another, from a core on. It waits where it runs rounds alone.
pub fn run_script<W: Threads + Wait + Sync, G: Gate + Sync>(
    alloc: Global,
    program: Arc<Unfolded>,
    core: Core,
    lines: Vec<Line>,
    pool: &Pool<W, G>,
) -> Result<Session, Memory>
    requires program { program.value ≡ core.program }
    requires judged { AreJudged (unfolding_of program.value) (core_of core) (at_start (core_of core).net)
        (map numbered lines.items) }
    ensures { IfOk result (HasRun program.value core (map numbered lines.items)) }
{
    steps_keep_good();
    runs_cut();
    let analysis = Analysis::new(alloc, &program)?;
    let mut session = start(alloc, &analysis, program.clone()?, core)?;
    for line in lines {
        // Its clause: the core is good.
        let _net = session.book.core().net();
        session = session.command(alloc, &analysis, line, pool)?;
    }
    Ok(session)
}
