//! The words and strengths of builtins.

ghost use Rattle.std.specs.Prelude.{◌≡◌};
ghost use Rattle.fc_syntax.specs.Terms.{term_of};
ghost use Rattle.fc_syntax.specs.Text.{builtin_strength as strength_of_builtin, builtin_word as word_of};
ghost use Rattle.fc_syntax.specs.Text.{strength as strength_of};

use crate::tree::Expr;
use fc_values::Builtin;

/// The mark or word of a builtin; a pair has none.
pub fn builtin_word(builtin: Builtin) -> &'static [u8]
    ensures { result.now ≡ word_of builtin }
{
    match builtin {
        Builtin::Add => b"+",
        Builtin::Sub => b"-",
        Builtin::Mul => b"*",
        Builtin::Min => b"min",
        Builtin::Max => b"max",
        Builtin::Less => b"<",
        Builtin::Equal => b"=",
        Builtin::And => b"and",
        Builtin::Or => b"or",
        Builtin::Not => b"not",
        Builtin::Mux => b"mux",
        Builtin::Pair => b"",
        Builtin::Fst => b"fst",
        Builtin::Snd => b"snd",
        Builtin::MinHoodLoc => b"minHoodLoc",
        Builtin::MaxHoodLoc => b"maxHoodLoc",
        Builtin::SumHood => b"sumHood",
        Builtin::AnyHood => b"anyHood",
        Builtin::AllHood => b"allHood",
        Builtin::Rise => b"rise",
    }
}

/// The strength of a builtin's form.
pub fn builtin_strength(builtin: Builtin) -> u32
    ensures { result ≡ strength_of_builtin builtin }
{
    match builtin {
        Builtin::Or => 1,
        Builtin::And => 2,
        Builtin::Less | Builtin::Equal => 3,
        Builtin::Add | Builtin::Sub => 4,
        Builtin::Mul => 5,
        Builtin::Not => 6,
        _ => 7,
    }
}

/// The strength of an expression's form.
pub fn strength(expr: &Expr) -> u32
    ensures { result ≡ strength_of (term_of expr.now) }
{
    match expr {
        Expr::Let(_, _, _) => 0,
        Expr::Apply(builtin, _) => builtin_strength(*builtin),
        _ => 7,
    }
}
