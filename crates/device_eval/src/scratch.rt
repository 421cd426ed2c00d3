//! The words of evaluations, which are used again.

use std::alloc::Global;
use std::marker::Model;
use std::mem::replace;

/// Room for the values of an evaluation, which its caller keeps for the next one: so evaluations one after another take
/// memory for values only until there is enough of it. No contract sees what is in it.
#[derive(Drop)]
pub struct Scratch {
    words: Vec<u32>,
}

impl Model for Scratch {
    ghost Value = { Unit {0} };

    ghost view = { λ _. tt };
}

impl Scratch {
    ghost use Rattle.std.specs.Prelude.{◌≡◌, []};

    /// A scratch in which nothing is yet.
    pub fn new(alloc: Global) -> Scratch {
        Scratch {
            words: Vec::new(alloc),
        }
    }

    /// Takes the words out, of which there are none at first.
    pub fn take(&mut self, alloc: Global) -> Vec<u32>
        ensures { result.items ≡ [] }
    {
        let mut words = replace(&mut self.words, Vec::new(alloc));
        words.clear();
        words
    }

    /// Puts words back.
    pub fn keep(&mut self, words: Vec<u32>) {
        self.words = words;
    }
}
