//! Reading a text from the front.

ghost use Rattle.std.specs.Prelude.{◌≡◌, ◌≤◌, IfErr, IfOk, length};
ghost use Rattle.std.specs.List.{count_by};
ghost use Rattle.fc_values.specs.declared.limits.TheConstants.{MOST_BYTES};
ghost use Rattle.fc_lexer.specs.Bytes.{is_line_feed};
ghost use Rattle.fc_lexer.specs.Kinds.{tokens_of};
ghost use Rattle.fc_lexer.specs.Lexes.{IsAlone, Lexes, Stops, StopsAlone};

use crate::kinds::kind_of;
use crate::pieces::piece_size;
use crate::tokens::{LexFault, Token};
use std::alloc::Global;

fn line_feeds(bytes: &[u8]) -> usize
    ensures size { result ≡ count_by is_line_feed bytes.now }
    ensures within { result ≤ length bytes.now }
{
    bytes.iter().filter(|byte| **byte == b'\n').count()
}

/// The tokens of a text, each the longest that begins where it stands. `At` is the first byte at which nothing begins.
pub fn lex(alloc: Global, text: &[u8]) -> Result<Vec<Token>, LexFault>
    requires { length text.now ≤ MOST_BYTES }
    ensures reads { IfOk result (λ tokens. Lexes text.now (tokens_of tokens.items)) }
    ensures few { IfOk result (λ tokens. length tokens.items ≤ length text.now) }
    ensures only { IfOk result (λ tokens. IsAlone text.now (tokens_of tokens.items)) }
    ensures stops { IfErr result (λ fault. Stops text.now fault) }
    ensures nowhere { IfErr result (λ fault. StopsAlone text.now fault) }
{
    let mut tokens = Vec::new(alloc);
    let mut at = 0;
    let mut line = 1;
    'pieces: while at < text.len() {
        let size = piece_size(&text[at..]);
        if size == 0 {
            return Err(LexFault::At(at));
        }
        let piece = &text[at..at + size];
        if let Some(kind) = kind_of(alloc, piece)? {
            tokens.push(Token {
                kind,
                start: at,
                end: at + size,
                line,
            })?;
        }
        line += line_feeds(piece) as u32;
        at += size;
    }
    Ok(tokens)
}
