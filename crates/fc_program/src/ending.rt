//! How a call ends.
ghost use Rattle.std.specs.Prelude.{◌≡◌};
ghost use Rattle.fc_program.specs.Top.{TellsNothing};

use firing_core::{Book, Part};
use std::alloc::Global;

/// What a run leaves beside its text.
#[derive(Drop)]
pub struct CallEnd {
    /// The status that the program ends with.
    pub status: u8,
    /// The program, the start, the log and the last core of a run or a replay.
    pub book: Option<Book>,
    /// The stretches of the log that the lines of a script made.
    pub parts: Vec<Part>,
}

/// What is left where nothing was made.
pub fn without_book(alloc: Global, status: u8) -> CallEnd
    ensures status { result.status ≡ status }
    ensures nothing { TellsNothing result }
{
    CallEnd {
        status,
        book: None,
        parts: Vec::new(alloc),
    }
}
