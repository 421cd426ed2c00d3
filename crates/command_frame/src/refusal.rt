//! The refusals of all commands, but for the faults of a scene.

use crate::fault_words::{kind_word, line_word};
use edit_commands::Fault;
use fc_types::TypeKind;
use fc_values::Memory;
use firing_core::StepFault;
use std::alloc::Global;
use std::fmt;
use topology::NetFault;

/// What is at fault in a line of a script or a log: by itself, or for what the lines before leave.
#[derive(Clone, Copy, Debug, PartialEq, Eq)]
pub enum LineFault {
    /// It isn't a line that its kind of text has.
    Form,
    /// The network refuses it, or the device of a begin or an end isn't there.
    Net(NetFault),
    /// No export has its kept list.
    Kept,
    /// A begin of a device that is in flight.
    Flying,
    /// An end of a device that isn't.
    NotFlying,
    /// There is no such message on the way.
    Empty,
}

/// The causes of statuses 2, 3 and 4, but for the faults of a scene, which have a path.
#[derive(Clone, Copy, Debug, PartialEq, Eq)]
pub enum Refusal {
    /// The words ask for nothing that the program does.
    Usage,
    /// So many workers are asked for, more than the limit.
    Workers(u32),
    /// The input has more bytes than the limit.
    Bytes,
    /// The command takes another number of sections than this one.
    Sections(usize),
    /// No token begins at this byte of the program.
    Lexical(usize),
    /// A declaration has so many tokens.
    Tokens(u32),
    /// A declaration has too many open brackets at one place.
    Depth,
    /// The declaration of this number, from 1, is at fault, at this line.
    Syntax(u32, u32),
    /// The first fault of typing, in the declaration of this number, from 1.
    Types(u32, TypeKind),
    /// The program has more nodes than the limit: their number, or 1,000,000 where it is greater.
    Nodes(u32),
    /// There are so many devices, more than the limit.
    Devices(usize),
    /// A device has more links than the limit.
    Degree,
    /// A device may have more links than the limit, while the network changes.
    Pairs,
    /// The script has so many lines, more than the limit.
    Lines(u32),
    /// The script has so many `scramble` lines, more than the limit.
    Scrambles(u32),
    /// The script asks for so many firings, more than the limit.
    Firings(u64),
    /// The line of this number of the script, from 1, is at fault.
    Script(u32, LineFault),
    /// The line of this number of the log, from 1, is at fault.
    Log(u32, LineFault),
    /// The line of this number of the changes, from 1, is at fault.
    Changes(u32, LineFault),
    /// So many messages are asked for, more than the limit.
    Mail(u64),
}

impl fmt::Display for Refusal {
    ghost use Rattle.std.specs.Prelude.{Some};
    ghost use Rattle.command_frame.specs.Refusals.{refusal_line};

    ghost output = { λ r. Some (refusal_line r) };

    fn fmt<W: fmt::Write>(&self, f: &mut fmt::Formatter<W>) -> fmt::Result {
        match self {
            Refusal::Usage => writeln!(
                f,
                "usage: fc check|stable|run|replay|format|gen|trace|mail"
            ),
            Refusal::Workers(count) => writeln!(f, "limit workers {count}"),
            Refusal::Bytes => writeln!(f, "limit bytes 1048577"),
            Refusal::Sections(count) => writeln!(f, "sections {count}"),
            Refusal::Lexical(at) => writeln!(f, "lexical {at}"),
            Refusal::Tokens(count) => writeln!(f, "limit tokens {count}"),
            Refusal::Depth => writeln!(f, "limit depth 201"),
            Refusal::Syntax(declaration, line) => writeln!(f, "syntax {declaration} {line}"),
            Refusal::Types(declaration, kind) => {
                writeln!(f, "types {declaration} {}", kind_word(*kind))
            }
            Refusal::Nodes(size) => writeln!(f, "limit nodes {size}"),
            Refusal::Devices(count) => writeln!(f, "limit devices {count}"),
            Refusal::Degree => writeln!(f, "limit degree 33"),
            Refusal::Pairs => writeln!(f, "limit degree 129"),
            Refusal::Lines(count) => writeln!(f, "limit lines {count}"),
            Refusal::Scrambles(count) => writeln!(f, "limit scrambles {count}"),
            Refusal::Firings(count) => writeln!(f, "limit firings {count}"),
            Refusal::Script(line, fault) => writeln!(f, "script {line} {}", line_word(*fault)),
            Refusal::Log(line, fault) => writeln!(f, "log {line} {}", line_word(*fault)),
            Refusal::Changes(line, fault) => writeln!(f, "changes {line} {}", line_word(*fault)),
            Refusal::Mail(count) => writeln!(f, "limit mail {count}"),
        }
    }
}

impl Refusal {
    ghost use Rattle.std.specs.Prelude.{◌≡◌, IfOk};
    ghost use Rattle.command_frame.specs.Refusals.{refusal_line, status_of};

    /// The status that the program ends with.
    pub fn status(self) -> u8
        ensures { result ≡ status_of self }
    {
        match self {
            Refusal::Usage => 2,
            Refusal::Sections(_)
            | Refusal::Lexical(_)
            | Refusal::Syntax(_, _)
            | Refusal::Types(_, _)
            | Refusal::Script(_, _)
            | Refusal::Log(_, _)
            | Refusal::Changes(_, _) => 3,
            Refusal::Workers(_)
            | Refusal::Bytes
            | Refusal::Tokens(_)
            | Refusal::Depth
            | Refusal::Nodes(_)
            | Refusal::Devices(_)
            | Refusal::Degree
            | Refusal::Pairs
            | Refusal::Lines(_)
            | Refusal::Scrambles(_)
            | Refusal::Firings(_)
            | Refusal::Mail(_) => 4,
        }
    }

    /// The line that is written.
    pub fn line(self, alloc: Global) -> Result<Vec<u8>, Memory>
        ensures { IfOk result (λ v. v.items ≡ refusal_line self) }
    {
        Ok(self.to_string(alloc)?.into_bytes())
    }
}

ghost use Rattle.std.specs.Prelude.{◌≡◌};
ghost use Rattle.command_frame.specs.LineFaults.{fault_in, step_fault};
ghost use Rattle.command_frame.specs.Refusals.{network_limit, limit_in, pairs_limit, log_refusal as refusal_of_log};
ghost use Rattle.command_frame.specs.Refusals.{script_refusal as refusal_of_script, changes_refusal as refusal_of_changes};

/// The limit that a network's refusal is, if it is one.
pub fn limit(fault: NetFault) -> Option<Refusal>
    ensures { result ≡ network_limit fault }
{
    match fault {
        NetFault::Degree => Some(Refusal::Degree),
        NetFault::Devices => Some(Refusal::Devices(1025)),
        _ => None,
    }
}

// The limit that a fault of a line is, if it is one.
fn limit_in(fault: LineFault) -> Option<Refusal>
    ensures { result ≡ limit_in fault }
{
    match fault {
        LineFault::Net(fault) => limit(fault),
        _ => None,
    }
}

/// The refusal of a line of a log.
pub fn log_refusal(line: u32, fault: LineFault) -> Refusal
    ensures { result ≡ refusal_of_log line fault }
{
    limit_in(fault).unwrap_or(Refusal::Log(line, fault))
}

/// The refusal of a line of a script.
pub fn script_refusal(line: u32, fault: LineFault) -> Refusal
    ensures { result ≡ refusal_of_script line fault }
{
    limit_in(fault).unwrap_or(Refusal::Script(line, fault))
}

// The limit that a fault of a line of changes is, if it is one.
fn pairs_limit(fault: LineFault) -> Option<Refusal>
    ensures { result ≡ pairs_limit fault }
{
    match fault {
        LineFault::Net(NetFault::Degree) => Some(Refusal::Pairs),
        _ => limit_in(fault),
    }
}

/// The refusal of a line of changes.
pub fn changes_refusal(line: u32, fault: LineFault) -> Refusal
    ensures { result ≡ refusal_of_changes line fault }
{
    pairs_limit(fault).unwrap_or(Refusal::Changes(line, fault))
}

/// A fault that is found in a line by itself, as refusals name it.
pub fn fault_in(fault: Fault) -> LineFault
    ensures { result ≡ fault_in fault }
{
    match fault {
        Fault::Form => LineFault::Form,
        Fault::Net(fault) => LineFault::Net(fault),
        Fault::Kept => LineFault::Kept,
    }
}

/// Why a begin or an end has no step, but for want of memory.
pub fn step_fault(fault: StepFault) -> Option<LineFault>
    ensures { result ≡ step_fault fault }
{
    match fault {
        StepFault::NoDevice => Some(LineFault::Net(NetFault::NoDevice)),
        StepFault::Flying => Some(LineFault::Flying),
        StepFault::NotFlying => Some(LineFault::NotFlying),
        StepFault::Memory => None,
    }
}
