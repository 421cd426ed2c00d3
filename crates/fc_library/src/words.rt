//! The words of a call.
ghost use Rattle.std.specs.Prelude.{◌≡◌, ◌∷◌, IfOk, IfSome, None, codes, length, map, string_bytes};
ghost use Rattle.fc_library.specs.Words.{AreTexts, Asks, words_of};

use command_words::{Command, read_command};
use fc_values::Memory;
use std::alloc::{AllocError, Global};
use std::str;

// What stands between the spaces of a text.
fn pieces(alloc: Global, text: &[u8]) -> Result<Vec<&[u8]>, AllocError>
    ensures { IfOk result (λ ws. map (λ w. w.now) ws.items ≡ words_of text.now) }
{
    text.split(|byte| *byte == b' ').collect(alloc)
}

// The words of a text behind a program's name, or nothing where one of them is no text.
fn words_in(alloc: Global, text: &[u8]) -> Result<Option<Vec<String>>, Memory>
    ensures words { IfOk result (λ o. IfSome o (λ ws.
        map string_bytes ws.items ≡ codes "fc" ∷ words_of text.now)) }
    ensures texts { IfOk result (λ o. IfSome o (λ ws. AreTexts (words_of text.now))) }
    ensures other { IfOk result (λ o. o ≡ None → ¬ (AreTexts (words_of text.now))) }
{
    let pieces = pieces(alloc, text)?;
    let mut words = Vec::new(alloc);
    words.push(String::from_str(alloc, "fc")?)?;
    'pieces: for piece in pieces.iter() {
        let Ok(word) = str::from_utf8(piece) else {
            return Ok(None);
        };
        words.push(String::from_str(alloc, word)?)?;
    }
    Ok(Some(words))
}

/// What the words of a text ask for. Words that are no text ask for nothing.
pub fn asked(alloc: Global, text: &[u8]) -> Result<Option<Command>, Memory>
    ensures { IfOk result (Asks text.now) }
{
    match words_in(alloc, text)? {
        Some(words) => read_command(alloc, &words),
        None => Ok(None),
    }
}
