//! What `mail --number` makes of a program and a scene.

ghost use Rattle.std.specs.Prelude.{◌≡◌, ◌<◌, ◌≤◌, ◌++◌, ◌^◌, ℕ, IfErr, IfOk, length};
ghost use Rattle.fc_nodes.specs.Program.{unfolding_of};
ghost use Rattle.fc_nodes.specs.declared.verdicts.Verdict.TheVariants as verdict;
ghost use Rattle.topology.specs.Networks.{IsNetwork};
ghost use Rattle.fragment_check.specs.Verdicts.{verdict_of};
ghost use Rattle.message_links.specs.MailCores.{IsMailStart, MailRun};
ghost use Rattle.message_links.specs.MailEntries.{mail_entries};
ghost use Rattle.message_links.specs.declared.entries.MailFault.{MailFault};
ghost use Rattle.net_json.specs.SceneCode.{AreCopies, AreRows, value_of_scene};
ghost use Rattle.mail_book.specs.MailReplays.{FailsMailAt};
ghost use Rattle.mail_book.specs.MailViews.{mail_of, unfolded_of};
ghost use Rattle.command_frame.specs.Causes.{Accepted, Refused};
ghost use Rattle.command_frame.specs.Code.{value_of};
ghost use Rattle.command_frame.specs.Stops.{StopsFor};
ghost use Rattle.fc_values.specs.declared.limits.TheConstants.{MOST_BYTES};
ghost use Rattle.fc_mail.specs.Code.{IsSettledOf};
ghost use Rattle.fc_mail.specs.Drives.{DrivesMail, DrivesScene, WritesDriven, messages};

use crate::shown::show;
use command_frame::{Answer, Refusal, Stop, read_input, start};
use fc_nodes::{Unfolded, Verdict};
use fc_values::Memory;
use firing_core::Book;
use mail_book::{Mail, MailBook, mail_logs_end, replay_mail};
use mail_drive::{drive, driven_logs_lead};
use message_links::{MailEntry, MailReplay};
use net_json::Scene;
use report::verdict_line;
use round_bound::Analysis;
use std::alloc::Global;
use std::sync::Arc;
use topology::Network;

// At most so many messages are driven.
pub const MOST_MESSAGES: u64 = 1_000_000;

// The mail core of a scene in which flights are ended, smallest first, nothing was heard and nothing is in transit.
fn settled(alloc: Global, program: &Arc<Unfolded>, scene: Scene) -> Result<Mail, Memory>
    requires declared { scene.net.declared ≡ program.now.value.declared }
    requires rows { AreRows (unfolding_of program.now.value) scene.net scene.table.items }
    requires copies { AreCopies (unfolding_of program.now.value) scene.net scene.pending.items }
    ensures program { IfOk result (λ m. m.core.program ≡ program.now.value) }
    ensures settled { IfOk result (λ m. IsSettledOf (unfolding_of program.now.value)
        (value_of_scene (unfolding_of program.now.value) scene) (mail_of m)) }
    ensures start { IfOk result (λ m. IsMailStart (unfolding_of program.now.value) (mail_of m)) }
{
    let first = start(alloc, program, scene)?;
    let program = program.clone()?;
    let Ok(mut book) = Book::new(alloc, program, first) else {
        return Err(Memory);
    };
    book.settle(alloc)?;
    let rested = book.core().copy(alloc)?;
    Ok(Mail::quiet(alloc, rested)?)
}

// The verdict on a program, for so many devices.
fn verdict(alloc: Global, program: &Unfolded, devices: u32) -> Result<Verdict, Memory>
    requires { 1 ≤ devices }
    ensures verdict { IfOk result (λ v. v ≡ verdict_of (unfolding_of program.now) devices) }
    ensures few { IfOk result (λ v. (k : ℕ) → v ≡ verdict.Yes k → k < 2 ^ 33) }
{
    Analysis::new(alloc, program)?.verdict(alloc, devices)
}

// How many messages so many rounds drive.
fn messages(net: &Network, rounds: u64) -> u64
    requires { rounds < 2 ^ 33 }
    ensures { result ≡ messages net.now rounds }
{
    rounds * (net.devices().len() as u64 + 2 * net.links().len() as u64)
}

// The book of a log each of whose entries has a step.
fn replayed(alloc: Global, start: Mail, log: Vec<MailEntry>) -> Result<MailBook, Memory>
    requires start { IsMailStart (unfolded_of start) (mail_of start) }
    requires steps { (i : ℕ) (why : MailFault)
        → FailsMailAt (unfolded_of start) (mail_of start) (mail_entries log.items) i why → ⊥ }
    ensures start { IfOk result (λ b. mail_of b.start ≡ mail_of start) }
    ensures log { IfOk result (λ b. b.log ≡ log.items) }
    ensures run { IfOk result (λ b.
        MailRun (unfolded_of start) 0 (mail_of start) (mail_entries log.items) (mail_of b.mail)) }
{
    match replay_mail(alloc, start, log) {
        Ok(book) => Ok(book),
        Err(MailReplay::Memory) => Err(Memory),
        Err(MailReplay::At { .. }) => unreachable!(),
    }
}

// So many driven rounds behind the line of a yes: each of their entries has a step.
fn driven(
    alloc: Global,
    number: u32,
    rounds: u32,
    program: Unfolded,
    scene: Scene,
) -> Result<Answer, Memory>
    requires declared { scene.net.declared ≡ program.declared }
    requires rows { AreRows (unfolding_of program) scene.net scene.table.items }
    requires copies { AreCopies (unfolding_of program) scene.net scene.pending.items }
    ensures { IfOk result (λ a. WritesDriven number (unfolding_of program)
        (value_of_scene (unfolding_of program) scene) rounds (Accepted (value_of a))) }
{
    driven_logs_lead();
    mail_logs_end();
    // Its clause: the nodes are a program.
    let _size = program.size();
    let program = Arc::new(alloc, program)?;
    let start = settled(alloc, &program, scene)?;
    let log = drive(alloc, start.core().net(), rounds, number)?;
    let mut text = verdict_line(alloc, &Verdict::Yes(u64::from(rounds)))?;
    let book = replayed(alloc, start, log)?;
    show(alloc, &mut text, &book)?;
    Ok(Answer::plain(alloc, 0, text))
}

// What is written of a program and a scene.
fn of_scene(alloc: Global, number: u32, program: Unfolded, scene: Scene) -> Result<Answer, Stop>
    requires declared { scene.net.declared ≡ program.declared }
    requires rows { AreRows (unfolding_of program) scene.net scene.table.items }
    requires copies { AreCopies (unfolding_of program) scene.net scene.pending.items }
    ensures writes { IfOk result (λ a. DrivesScene number (unfolding_of program)
        (value_of_scene (unfolding_of program) scene) (Accepted (value_of a))) }
    ensures refused { IfErr result (StopsFor (λ cause. DrivesScene number (unfolding_of program)
        (value_of_scene (unfolding_of program) scene) (Refused cause))) }
{
    // Its clause: the network has devices.
    let devices = scene.net.devices().len() as u32;
    let verdict = verdict(alloc, &program, devices)?;
    let Verdict::Yes(rounds) = verdict else {
        let text = verdict_line(alloc, &verdict)?;
        return Ok(Answer::plain(alloc, 1, text));
    };
    let messages = messages(&scene.net, rounds);
    if messages > MOST_MESSAGES {
        return Err(Stop::Refused(Refusal::Mail(messages)));
    }
    Ok(driven(alloc, number, rounds as u32, program, scene)?)
}

/// What `mail --number` answers to the texts of a program and a scene.
pub(crate) fn mail_number(
    alloc: Global,
    number: u32,
    program: &[u8],
    network: &[u8],
) -> Result<Answer, Stop>
    requires { length program.now ≤ MOST_BYTES }
    ensures writes { IfOk result (λ a. DrivesMail number program.now network.now (Accepted (value_of a))) }
    ensures refused { IfErr result (StopsFor (λ cause. DrivesMail number program.now network.now (Refused cause))) }
{
    let (program, scene) = read_input(alloc, program, network)?;
    of_scene(alloc, number, program, scene)
}
