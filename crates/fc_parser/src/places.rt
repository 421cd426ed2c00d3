//! The order of declarations.

ghost use Rattle.std.specs.Prelude.{◌≡◌, ◌<◌, ◌^◌, length, option_map};
ghost use Rattle.fc_lexer.specs.Kinds.{tokens_of};
ghost use Rattle.fc_syntax.specs.Terms.{declaration_of};
ghost use Rattle.fc_parser.specs.Programs.{is_second as of_second, next_place};
ghost use Rattle.fc_parser.specs.Places.{GivesStanding, place_at};

use crate::declarations::declaration;
use crate::refused::Refused;
use fc_lexer::Token;
use fc_syntax::Decl;
use std::alloc::Global;

/// Where a declaration stands: first, after `language 2;`, after the ceiling, or after `main`. The flag says whether
/// the program is of language 2.
#[derive(Clone, Copy, Debug, PartialEq, Eq)]
pub enum Position {
    First,
    AfterLanguage,
    Within(bool),
    AfterMain(bool),
}

fn is_second(position: Position) -> bool
    ensures { result ≡ of_second (place_at position) }
{
    match position {
        Position::First => false,
        Position::AfterLanguage => true,
        Position::Within(second) => second,
        Position::AfterMain(second) => second,
    }
}

// The position after a declaration, where it may stand at its position.
fn next(position: Position, decl: &Decl) -> Option<Position>
    ensures { option_map place_at result ≡ next_place (place_at position) (declaration_of decl.now) }
{
    match (position, decl) {
        (Position::First, Decl::Language(_)) => Some(Position::AfterLanguage),
        (Position::First, Decl::Ceiling(_)) => Some(Position::Within(false)),
        (Position::AfterLanguage, Decl::Ceiling(_)) => Some(Position::Within(true)),
        (Position::Within(_), Decl::Input(_, _)) => Some(position),
        (Position::Within(_), Decl::Metric(_, _)) => Some(position),
        (Position::Within(_), Decl::Def { .. }) => Some(position),
        (Position::Within(second), Decl::Main(_)) => Some(Position::AfterMain(second)),
        _ => None,
    }
}

/// The declaration that a piece is, where it may stand at this position, and the position after it.
pub fn standing(
    alloc: Global,
    position: Position,
    piece: &[Token],
) -> Result<(Decl, Position), Refused>
    requires { length piece.now < 2 ^ 32 }
    ensures { GivesStanding (place_at position) (tokens_of piece.now) result }
{
    let decl = declaration(alloc, is_second(position), piece)?;
    match next(position, &decl) {
        Some(after) => Ok((decl, after)),
        None => Err(Refused::Outside),
    }
}
