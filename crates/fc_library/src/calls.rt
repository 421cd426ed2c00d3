//! What C calls.
ghost use Rattle.std.specs.Prelude.{◌≡◌, ◌≤◌, ◌<◌, ◌⊎◌};
ghost use Rattle.fc_library.specs.Replies.{AskForThreads, Replies, written};

use crate::replies::{Failure, reply};
use std::alloc::Global;

// Writes a text to the front of a room, where it fits.
fn write(text: &[u8], room: &mut [u8])
    ensures { room.new ≡ written text.now room.old }
{
    if text.len() <= room.len() {
        room[..text.len()].copy_from_slice(text);
    }
}

/// Answers a text with words, as `check --settle`, and an input: with the status that `fc` has, and the text that it
/// writes. `needed` becomes the length of that text, and the room has it in front where it fits; the rest of the room
/// stays as it is. Status 7 says that memory was wanting, and 8 that the words ask for work by threads: then there is
/// no text.
#[unsafe(no_mangle)]
pub extern "C" fn fc_reply(
    alloc: Global,
    words: &[u8],
    input: &[u8],
    room: &mut [u8],
    needed: &mut usize,
) -> u32
    ensures replies { result ≤ 4 → Replies words.now input.now room.old result needed.new room.new }
    ensures other { 4 < result → (result ≡ 7) ⊎ (result ≡ 8) }
    ensures nothing { 4 < result → (needed.new ≡ 0) × (room.new ≡ room.old) }
    ensures threads { result ≡ 8 → AskForThreads words.now }
{
    *needed = 0;
    match reply(alloc, words, input) {
        Ok(answer) => {
            let text = answer.text.as_slice();
            *needed = text.len();
            write(text, room);
            answer.status as u32
        }
        Err(Failure::Threads) => 8,
        Err(Failure::Memory) => 7,
    }
}
