//! The limits of what the words of a command line ask for.
ghost use Rattle.std.specs.Prelude.{◌≡◌, option_map};
ghost use Rattle.command_words.specs.Commands.{limit_of};
ghost use Rattle.fc_answers.specs.Asked.{limit_refusal};

use command_frame::Refusal;
use command_words::{Limit, Threaded, passed_limit};

// The refusal of a number that is past a limit.
fn limit_refusal(limit: Limit, count: u32) -> Refusal
    ensures { result ≡ limit_refusal limit count }
{
    match limit {
        Limit::Workers => Refusal::Workers(count),
        Limit::Devices => Refusal::Devices(count as usize),
    }
}

/// The limit that a number of a command passes, if one does, as a refusal.
pub fn past_limit(command: Threaded) -> Option<Refusal>
    ensures { result ≡ option_map (λ l. limit_refusal l.0 l.1) (limit_of command) }
{
    match passed_limit(command) {
        Some((limit, count)) => Some(limit_refusal(limit, count)),
        None => None,
    }
}
