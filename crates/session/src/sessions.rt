//! Sessions, and what a line makes of one.

ghost use Rattle.std.specs.Prelude.{◌≡◌, ◌++◌, ◌∷◌, [], OnOk, length};
ghost use Rattle.session.specs.ScriptRuns.{part_of};

use crate::edits::{make, scramble};
use crate::pool::Pool;
use crate::showing::{changes_devices, show_values, show_verdict};
use edit_commands::{Line, ScriptCommand};
use export_table::Gate;
use fc_values::Memory;
use firing_core::{Book, Edit, Part};
use round_bound::Analysis;
use round_count::after_last_edit;
use std::alloc::Global;
use std::sync::Wait;
use std::thread::Threads;

/// A book, the parts of its log that lines have run, and the text that is shown so far.
#[derive(Drop)]
pub struct Session {
    pub book: Book,
    pub parts: Vec<Part>,
    pub text: Vec<u8>,
}

// Adds the part of a line that begins at a position of a book's log and ends with the log.
fn add_part(
    parts: &mut Vec<Part>,
    line: u32,
    rounds: u32,
    from: usize,
    book: &Book,
) -> Result<(), Memory>
    ensures { OnOk result (parts.new.items ≡ parts.old.items ++ part_of line rounds from (length book.now.log) ∷ []) }
{
    let to = book.log().len();
    parts.push(Part {
        line,
        rounds,
        from,
        to,
    })?;
    Ok(())
}

impl Session {
    ghost use Rattle.std.specs.Prelude.{ℕ, ◌≡◌, IfOk};
    ghost use Rattle.fc_nodes.specs.Program.{unfolding_of};
    ghost use Rattle.firing_core.specs.CoreViews.{core_of};
    ghost use Rattle.firing_core.specs.Entries.{edit_of};
    ghost use Rattle.edit_commands.specs.Scripts.{numbered, command_of, RunCommand, MixCommand, EditCommand, ScrambleCommand, ShowCommand};
    ghost use Rattle.session.specs.Conditions.{Allows, AllowsEdit, AllowsMix, AllowsRounds};
    ghost use Rattle.session.specs.Sessions.{AfterLine};

    /// Does what a line asks for. It waits where it runs rounds alone. On `Memory` the session is given up.
    pub(crate) fn command<W: Threads + Wait + Sync, G: Gate + Sync>(
        self,
        alloc: Global,
        analysis: &Analysis<'_>,
        line: Line,
        pool: &Pool<W, G>,
    ) -> Result<Session, Memory>
        requires analysed { analysis.now ≡ self.book.program }
        requires allowed { Allows (unfolding_of self.book.program) (core_of self.book.core) (command_of line.command) }
        ensures { IfOk result (AfterLine (numbered line) self) }
    {
        let Line { number, command } = line;
        match command {
            ScriptCommand::Run(rounds) => self.run(alloc, number, rounds, pool),
            ScriptCommand::Edit(edit) => self.edit(alloc, analysis, edit),
            ScriptCommand::Scramble(seed) => self.scramble(alloc, seed),
            ScriptCommand::Show => self.show(alloc, number),
            ScriptCommand::Mix(rounds, edit) => self.mix(alloc, number, rounds, edit, pool),
        }
    }

    // Runs so many rounds.
    fn run<W: Threads + Wait + Sync, G: Gate + Sync>(
        self,
        alloc: Global,
        line: u32,
        rounds: u32,
        pool: &Pool<W, G>,
    ) -> Result<Session, Memory>
        requires { AllowsRounds (core_of self.book.core) rounds }
        ensures { IfOk result (AfterLine (line, RunCommand rounds) self) }
    {
        let Session {
            book,
            mut parts,
            text,
        } = self;
        let from = book.log().len();
        let book = pool.run(alloc, book, rounds)?;
        add_part(&mut parts, line, rounds, from, &book)?;
        Ok(Session { book, parts, text })
    }

    // Makes an edit among firings, and then runs so many rounds.
    fn mix<W: Threads + Wait + Sync, G: Gate + Sync>(
        self,
        alloc: Global,
        line: u32,
        rounds: u32,
        edit: Edit,
        pool: &Pool<W, G>,
    ) -> Result<Session, Memory>
        requires { AllowsMix (unfolding_of self.book.program) (core_of self.book.core) rounds (edit_of edit) }
        ensures { IfOk result (AfterLine (line, MixCommand rounds (edit_of edit)) self) }
    {
        let Session {
            book,
            mut parts,
            text,
        } = self;
        let book = pool.mix(alloc, book, rounds, edit)?;
        let from = book.log().len() - after_last_edit(book.log()).len();
        add_part(&mut parts, line, rounds, from, &book)?;
        Ok(Session { book, parts, text })
    }

    // Makes an edit. After a join or a leave the verdict's line is shown.
    fn edit(mut self, alloc: Global, analysis: &Analysis<'_>, edit: Edit) -> Result<Session, Memory>
        requires analysed { analysis.now ≡ self.book.program }
        requires allowed { AllowsEdit (unfolding_of self.book.program) (core_of self.book.core) (edit_of edit) }
        ensures { IfOk result (λ s. (line : ℕ) → AfterLine (line, EditCommand (edit_of edit)) self s) }
    {
        let shows = changes_devices(&edit);
        make(alloc, &mut self.book, edit)?;
        show_verdict(alloc, &mut self.text, shows, analysis, self.book.core())?;
        Ok(self)
    }

    // Puts the rubbish of a number in the place of each device's export.
    fn scramble(mut self, alloc: Global, number: u32) -> Result<Session, Memory>
        ensures { IfOk result (λ s. (line : ℕ) → AfterLine (line, ScrambleCommand number) self s) }
    {
        scramble(alloc, &mut self.book, number)?;
        Ok(self)
    }

    // Shows the values.
    fn show(mut self, alloc: Global, line: u32) -> Result<Session, Memory>
        ensures { IfOk result (AfterLine (line, ShowCommand) self) }
    {
        show_values(alloc, &mut self.text, line, self.book.core())?;
        Ok(self)
    }
}
