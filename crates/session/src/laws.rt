//! Laws of the definitions.

ghost use Rattle.session.specs.Laws.{LinesCut, OneScriptRun, ScriptRunsLead, SomeScriptRun};

use edit_commands::entries_agree;
use firing_core::{faultless_steps, logs_decide, runs_cut, steps_keep_good};
use round_count::rounds_grow;
use scenarios::some_rubbish;

/// Lines may be cut anywhere: they do what the first do, and then what the rest do from where those lead.
pub fn lines_cut()
    ensures { LinesCut }
{}

/// The log of a script run leads from its core to the last one.
pub fn script_runs_lead()
    ensures { ScriptRunsLead }
{
    runs_cut();
}

/// Commands that are judged against a core have a script run: each line has a stretch of the log.
pub fn some_script_run()
    ensures { SomeScriptRun }
{
    faultless_steps();
    steps_keep_good();
    runs_cut();
    rounds_grow();
    some_rubbish();
}

/// Two script runs of the same commands whose logs agree have one text: the cut of a log into stretches makes no
/// difference.
pub fn one_script_run()
    ensures { OneScriptRun }
{
    logs_decide();
    entries_agree();
    steps_keep_good();
}
