//! Why a command has no answer of its own.

use crate::refusal::{LineFault, Refusal, log_refusal};
use fc_lexer::LexFault;
use fc_parser::ParseFault;
use fc_types::TypeFault;
use fc_values::Memory;
use net_json::JsonFault;
use std::alloc::{AllocError, AllocFailed};
use unfold::UnfoldFault;

/// Memory was wanting, or the input is refused: plainly, or by the first fault of its scene.
#[derive(Drop)]
pub enum Stop {
    Memory,
    Refused(Refusal),
    Scene(JsonFault),
}

impl From<Memory> for Stop {
    ghost use Rattle.std.specs.Prelude.{◌≡◌};
    ghost use Rattle.command_frame.specs.declared.stop.Stop.TheVariants as stop;

    ghost from_gives = { λ _ e. e ≡ stop.Memory };

    fn from(_: Memory) -> Self {
        Stop::Memory
    }
}

impl From<AllocError> for Stop {
    ghost use Rattle.std.specs.Prelude.{◌≡◌};
    ghost use Rattle.command_frame.specs.declared.stop.Stop.TheVariants as stop;

    ghost from_gives = { λ _ e. e ≡ stop.Memory };

    fn from(_: AllocError) -> Self {
        Stop::Memory
    }
}

impl<T: Drop> From<AllocFailed<T>> for Stop {
    ghost use Rattle.std.specs.Prelude.{◌≡◌};
    ghost use Rattle.command_frame.specs.declared.stop.Stop.TheVariants as stop;

    ghost from_gives = { λ _ e. e ≡ stop.Memory };

    fn from(_: AllocFailed<T>) -> Self {
        Stop::Memory
    }
}

impl From<Refusal> for Stop {
    ghost use Rattle.std.specs.Prelude.{◌≡◌};
    ghost use Rattle.command_frame.specs.declared.stop.Stop.TheVariants as stop;

    ghost from_gives = { λ r e. e ≡ stop.Refused r };

    fn from(refusal: Refusal) -> Self {
        Stop::Refused(refusal)
    }
}

impl From<LexFault> for Stop {
    ghost use Rattle.std.specs.Prelude.{◌≡◌};
    ghost use Rattle.command_frame.specs.Stops.{lex_stop};

    ghost from_gives = { λ f e. e ≡ lex_stop f };

    fn from(fault: LexFault) -> Self {
        match fault {
            LexFault::At(at) => Stop::Refused(Refusal::Lexical(at)),
            LexFault::Memory => Stop::Memory,
        }
    }
}

impl From<ParseFault> for Stop {
    ghost use Rattle.std.specs.Prelude.{◌≡◌};
    ghost use Rattle.command_frame.specs.Stops.{parse_stop};

    ghost from_gives = { λ f e. e ≡ parse_stop f };

    fn from(fault: ParseFault) -> Self {
        match fault {
            ParseFault::Tokens {
                declaration: _,
                count,
            } => Stop::Refused(Refusal::Tokens(count)),
            ParseFault::Depth { declaration: _ } => Stop::Refused(Refusal::Depth),
            ParseFault::Syntax { declaration, line } => {
                Stop::Refused(Refusal::Syntax(declaration, line))
            }
            ParseFault::Memory => Stop::Memory,
        }
    }
}

impl From<TypeFault> for Stop {
    ghost use Rattle.std.specs.Prelude.{◌≡◌};
    ghost use Rattle.command_frame.specs.Stops.{type_stop};

    ghost from_gives = { λ f e. e ≡ type_stop f };

    fn from(fault: TypeFault) -> Self {
        match fault {
            TypeFault::Fault { declaration, kind } => {
                Stop::Refused(Refusal::Types(declaration, kind))
            }
            TypeFault::Memory => Stop::Memory,
        }
    }
}

impl From<UnfoldFault> for Stop {
    ghost use Rattle.std.specs.Prelude.{◌≡◌};
    ghost use Rattle.command_frame.specs.Stops.{unfold_stop};

    ghost from_gives = { λ f e. e ≡ unfold_stop f };

    fn from(fault: UnfoldFault) -> Self {
        match fault {
            UnfoldFault::TooLarge { size } => Stop::Refused(Refusal::Nodes(size)),
            UnfoldFault::Memory => Stop::Memory,
        }
    }
}

impl From<JsonFault> for Stop {
    ghost use Rattle.std.specs.Prelude.{◌≡◌};
    ghost use Rattle.command_frame.specs.declared.stop.Stop.TheVariants as stop;

    ghost from_gives = { λ f e. e ≡ stop.Scene f };

    fn from(fault: JsonFault) -> Self {
        Stop::Scene(fault)
    }
}

ghost use Rattle.std.specs.Prelude.{◌≡◌};
ghost use Rattle.command_frame.specs.Stops.{stop_at};

/// The stop at a line of a log, for want of memory where there is no reason.
pub fn stop_at(line: u32, fault: Option<LineFault>) -> Stop
    ensures { result ≡ stop_at line fault }
{
    match fault {
        Some(fault) => Stop::Refused(log_refusal(line, fault)),
        None => Stop::Memory,
    }
}
