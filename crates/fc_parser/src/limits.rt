//! The limits on a declaration.

ghost use Rattle.std.specs.Prelude.{◌≡◌, ◌+◌, ◌<◌, ◌≤◌, ◌^◌, ◌↔◌, IsTrue, IfOk, IfErr, None, length};
ghost use Rattle.fc_lexer.specs.Kinds.{kind_view, tokens_of};
ghost use Rattle.fc_parser.specs.Expressions.{kinds_of};
ghost use Rattle.fc_parser.specs.Limits.{deepest, limit_passed, open_after as brackets_after};
ghost use Rattle.fc_parser.specs.Places.{PassesLimit};
ghost use Rattle.fc_parser.specs.declared.limits.TheConstants.{MOST_BRACKETS};

use crate::ParseFault;
use crate::pieces::first_piece;
use fc_lexer::{Kind, Mark, Token};

/// The most tokens of a declaration.
pub const MOST_TOKENS: usize = 4096;

/// The most brackets that are open at one place of a declaration.
pub const MOST_BRACKETS: usize = 200;

/// Each declaration keeps the limits, or this is the first one that passes one.
pub fn judge_limits(tokens: &[Token]) -> Result<(), ParseFault>
    requires { length tokens.now < 2 ^ 32 }
    ensures within { IfOk result (λ _. limit_passed (tokens_of tokens.now) ≡ None) }
    ensures passed { IfErr result (λ fault. PassesLimit (tokens_of tokens.now) fault) }
{
    let mut declaration: usize = 1;
    let mut rest = tokens;
    'pieces: while !rest.is_empty() {
        let (piece, after) = first_piece(rest);
        if piece.len() > MOST_TOKENS {
            return Err(ParseFault::Tokens {
                declaration: declaration as u32,
                count: piece.len() as u32,
            });
        }
        if is_deep(piece) {
            return Err(ParseFault::Depth {
                declaration: declaration as u32,
            });
        }
        declaration += 1;
        rest = after;
    }
    Ok(())
}

// Whether more brackets than the limit are open at one place.
fn is_deep(tokens: &[Token]) -> bool
    ensures { IsTrue result ↔ (MOST_BRACKETS < deepest 0 (kinds_of tokens.now)) }
{
    let mut depth: usize = 0;
    for token in tokens {
        depth = open_after(depth, &token.kind);
        if depth > MOST_BRACKETS {
            return true;
        }
    }
    false
}

// The open brackets after a token, of those before it.
fn open_after(before: usize, kind: &Kind) -> usize
    requires { before ≤ MOST_BRACKETS }
    ensures { result ≡ brackets_after before (kind_view kind.now) }
{
    match kind {
        Kind::Mark(Mark::OpenRound) | Kind::Mark(Mark::OpenCurly) => before + 1,
        Kind::Mark(Mark::CloseRound) | Kind::Mark(Mark::CloseCurly) => before.saturating_sub(1),
        _ => before,
    }
}
