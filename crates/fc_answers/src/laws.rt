//! Laws of the answers.
ghost use Rattle.fc_answers.specs.Headline.{AnswersKeep};
ghost use Rattle.fc_answers.specs.Laws.{AnswerStatuses, CommandsOwe, OneAnswer, SomeAnswer};
ghost use Rattle.fc_answers.specs.Limits.{LimitsAre};
ghost use Rattle.fc_answers.specs.LogsOfRuns.{RunsReplay};

use command_frame::sections_are_within;
use fc_changes::changes_owe;
use fc_check::check_owes;
use fc_format::format_owes;
use fc_gen::gen_owes;
use fc_mail::mail_owes;
use fc_replay::{replay_owes, written_logs_replay};
use fc_run::run_owes;
use fc_stable::stable_owes;
use fc_trace::trace_owes;
use session::script_runs_lead;

// Each command owes what it promises.
pub(crate) fn commands_owe()
    ensures { CommandsOwe }
{
    check_owes();
    changes_owe();
    stable_owes();
    replay_owes();
    format_owes();
    trace_owes();
    mail_owes();
    run_owes();
    gen_owes();
}

/// Two answers to one input have one status and one text; where threads make the log, one text for logs that agree.
pub fn one_answer()
    ensures { OneAnswer }
{
    commands_owe();
}

/// Each input has an answer, whatever the words ask for.
pub fn some_answer()
    ensures { SomeAnswer }
{
    commands_owe();
    sections_are_within();
}

/// Only words that ask for no command get the status of the usage line, and no answer has a status above 4.
pub fn answer_statuses()
    ensures { AnswerStatuses }
{
    commands_owe();
}

/// Where an answer's status says yes, what its command promises is kept.
pub fn answers_keep()
    ensures { AnswersKeep }
{
    commands_owe();
}

/// The lines behind `log` in the text of a run, given back as the log of the same program and network, are replayed to
/// the core of the run, and its values are shown.
pub fn runs_replay()
    ensures { RunsReplay }
{
    script_runs_lead();
    written_logs_replay();
}

/// Each limit of the code is the number of the definitions.
pub fn limits_are()
    ensures { LimitsAre }
{}
