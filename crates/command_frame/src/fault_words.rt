//! The words of faults.
ghost use Rattle.std.specs.Prelude.{◌≡◌};
ghost use Rattle.command_frame.specs.FaultWords.{kind_word as word_of_kind, net_word as word_of_net, line_word as word_in_line};

use crate::refusal::LineFault;
use fc_types::TypeKind;
use topology::NetFault;

/// The word of a fault of typing.
pub fn kind_word(kind: TypeKind) -> &'static str
    ensures { result.now ≡ word_of_kind kind }
{
    match kind {
        TypeKind::Range => "range",
        TypeKind::Twice => "twice",
        TypeKind::Unknown => "unknown",
        TypeKind::Literal => "literal",
        TypeKind::Count => "count",
        TypeKind::Mismatch => "mismatch",
        TypeKind::NotLocal => "not-local",
        TypeKind::Result => "result",
        TypeKind::Wide => "wide",
    }
}

/// The word of a network's refusal.
pub fn net_word(fault: NetFault) -> &'static str
    ensures { result.now ≡ word_of_net fault }
{
    match fault {
        NetFault::Twice => "twice",
        NetFault::NoDevice => "no-device",
        NetFault::SelfLink => "self-link",
        NetFault::Degree => "degree",
        NetFault::Weight => "weight",
        NetFault::NoLink => "no-link",
        NetFault::NoInput => "no-input",
        NetFault::InputType => "input-type",
        NetFault::InputRange => "input-range",
        NetFault::Devices => "devices",
        NetFault::InFlight => "in-flight",
        NetFault::Last => "last",
    }
}

/// The word of a fault of a line.
pub fn line_word(fault: LineFault) -> &'static str
    ensures { result.now ≡ word_in_line fault }
{
    match fault {
        LineFault::Form => "form",
        LineFault::Net(fault) => net_word(fault),
        LineFault::Kept => "kept",
        LineFault::Flying => "flying",
        LineFault::NotFlying => "not-flying",
        LineFault::Empty => "empty",
    }
}
