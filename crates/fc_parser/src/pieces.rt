//! Cutting tokens into the pieces of declarations.

ghost use Rattle.std.specs.Prelude.{◌≡◌, ◌+◌, ◌<◌, ◌≤◌, ◌∷◌, length};
ghost use Rattle.std.specs.List.{prefix_len};
ghost use Rattle.fc_lexer.specs.Kinds.{kind_view, tokens_of};
ghost use Rattle.fc_parser.specs.Programs.{is_semi as semi, pieces};
ghost use Rattle.fc_parser.specs.Faults.{last_line as line_of_last, line_of};
ghost use Rattle.fc_parser.specs.Places.{goes_on};

use fc_lexer::{Kind, Mark, Token};

fn is_semi(token: &Token) -> bool
    ensures { result ≡ semi (kind_view token.now.kind) }
{
    match token.kind {
        Kind::Mark(Mark::Semi) => true,
        _ => false,
    }
}

// How many tokens stand before the first `;`.
fn before_semi(tokens: &[Token]) -> usize
    ensures size { result ≡ prefix_len goes_on tokens.now }
    ensures within { result ≤ length tokens.now }
{
    tokens.iter().take_while(|token| !is_semi(token)).count()
}

/// The tokens up to the first `;`, it included, and those after it.
pub fn first_piece(tokens: &[Token]) -> (&[Token], &[Token])
    requires { 0 < length tokens.now }
    ensures cut { pieces (tokens_of tokens.now) ≡ tokens_of result.0.now ∷ pieces (tokens_of result.1.now) }
    ensures sizes { length result.0.now + length result.1.now ≡ length tokens.now }
    ensures some { 0 < length result.0.now }
{
    tokens.split_at((before_semi(tokens) + 1).min(tokens.len()))
}

/// The line of the first token.
pub fn first_line(piece: &[Token]) -> u32
    ensures { result ≡ line_of (tokens_of piece.now) }
{
    match piece {
        [first, ..] => first.line,
        [] => 1,
    }
}

/// The line of the last token, or this one where there is none.
pub fn last_line(line: u32, piece: &[Token]) -> u32
    ensures { result ≡ line_of_last line (tokens_of piece.now) }
{
    match piece {
        [.., last] => last.line,
        [] => line,
    }
}
