//! The convergence law over message links.

ghost use Rattle.std.specs.Prelude.{ℕ, ◌≡◌, length};
ghost use Rattle.fc_nodes.specs.declared.verdicts.Verdict.TheVariants as verdict;
ghost use Rattle.fc_nodes.specs.Program.{unfolding_of};
ghost use Rattle.fragment_check.specs.Verdicts.{verdict_of};
ghost use Rattle.mail_laws.specs.Laws.{LevelsOfMailRounds, MailStabilises, YesStabilisesMail};

use converge_laws::{Levels, rounds_raise_levels, yes_raises_levels};
use fc_nodes::Unfolded;
use firing_core::{faultless_steps, steps_keep_good};
use topology::Network;

/// Rounds over message links raise each level that firings raise, whatever it says of exports: from every good mail
/// core each mail log with `k` rounds leads `k` levels up.
pub fn mail_rounds_raise_levels<L: Levels>()
    ensures { LevelsOfMailRounds L.level (unfolding_of L.program) L.network }
{
    rounds_raise_levels::<L>();
    steps_keep_good();
    faultless_steps();
}

/// The convergence law over message links, of all programs and networks. A round is a firing of each device and then,
/// on each ordered pair of neighbours, the delivery of a message that such a firing sent. It is the law above for the
/// levels of a verdict.
pub fn yes_stabilises_mail()
    ensures { YesStabilisesMail }
{
    yes_raises_levels();
    steps_keep_good();
    faultless_steps();
}

/// The same for one program and one network with its declarations: where the verdict for the program and so many
/// devices is a yes for `k` rounds, exactly one field solves the program there, and from every good mail core each mail
/// log with `k` rounds leads to its values.
pub fn mail_stabilises(program: &Unfolded, net: &Network)
    requires declared { net.now.declared ≡ program.now.declared }
    ensures { (k : ℕ) → verdict_of (unfolding_of program.now) (length net.now.devices) ≡ verdict.Yes k
        → MailStabilises (unfolding_of program.now) net.now k }
{
    program.declared();
    net.declared();
    yes_stabilises_mail();
}
