//! Where a term stands.

ghost use Rattle.std.specs.Prelude.{◌≡◌};
ghost use Rattle.round_bound.specs.Walks.{levels_in};

use fc_nodes::Unfolded;
use interval_facts::Ranges;

/// What levels are computed from: a program, its ranges, and the number of devices.
#[derive(Clone, Copy)]
pub struct Context<'a> {
    pub program: &'a Unfolded,
    pub ranges: &'a Ranges,
    pub devices: u32,
}

/// The `let`s in scope, by their places, with the levels of what they bind.
#[derive(Clone, Copy)]
pub enum Scope<'a> {
    Empty,
    Bind(u32, u64, &'a Scope<'a>),
}

/// Where a term stands: the level of its branch, the place of the nearest `rep` or `share` in whose body it is, and the
/// `let`s in scope.
#[derive(Clone, Copy)]
pub struct Position<'a> {
    pub branch: u64,
    pub own: u32,
    pub scope: &'a Scope<'a>,
}

/// The level of a term, and whether the variable of the nearest `rep` or `share` around occurs in it.
#[derive(Clone, Copy)]
pub struct Found {
    pub level: u64,
    pub uses: bool,
}

/// The level of what a binder binds.
pub fn bound_level(scope: &Scope<'_>, binder: u32) -> u64
    ensures { result ≡ levels_in scope.now binder }
{
    match scope {
        Scope::Empty => 0,
        Scope::Bind(place, level, rest) => {
            if *place == binder {
                *level
            } else {
                bound_level(rest, binder)
            }
        }
    }
}
