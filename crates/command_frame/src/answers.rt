//! What a command answers.

use firing_core::{Book, Part};
use std::alloc::Global;

/// A status with a text, and for some commands the book that it shows and the stretches of the book's log.
#[derive(Drop)]
pub struct Answer {
    /// The status that the program ends with.
    pub status: u8,
    /// All that is written.
    pub text: Vec<u8>,
    /// The program, the start, the log and the last core of a run or a replay.
    pub book: Option<Book>,
    /// The stretches of the log that the lines of a script made.
    pub parts: Vec<Part>,
}

impl Answer {
    ghost use Rattle.std.specs.Prelude.{◌≡◌};
    ghost use Rattle.command_frame.specs.Answers.{plain, showing};
    ghost use Rattle.command_frame.specs.Code.{value_of};
    ghost use Rattle.command_frame.specs.Ledgers.{ledger_of};

    /// The answer of a status and a text alone.
    pub fn plain(alloc: Global, status: u8, text: Vec<u8>) -> Self
        ensures { value_of result ≡ plain status text.items }
    {
        Answer {
            status,
            text,
            book: None,
            parts: Vec::new(alloc),
        }
    }

    /// What was done: a text, the book that it shows, and the stretches of the book's log.
    pub fn showing(text: Vec<u8>, book: Book, parts: Vec<Part>) -> Self
        ensures { value_of result ≡ showing text.items (ledger_of book) parts.items }
    {
        Answer {
            status: 0,
            text,
            book: Some(book),
            parts,
        }
    }
}
