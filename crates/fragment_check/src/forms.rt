//! The form of a body.

ghost use Rattle.std.specs.Prelude.{◌≡◌};
ghost use Rattle.fc_values.specs.declared.builtins.Builtin.TheVariants as op;
ghost use Rattle.fc_nodes.specs.Terms.{term_at, sort_of};
ghost use Rattle.fc_nodes.specs.Places.{StandsAt};
ghost use Rattle.fragment_check.specs.Patterns.{is_bare, is_unguarded};
ghost use Rattle.fragment_check.specs.Facts.{evolution_of};
ghost use Rattle.fragment_check.specs.Forms.{is_builtin_sort, HoodKids, RiseKids, SettledKids, IsFormOf, IsRisenFormOf};

use crate::facts::{Own, gather};
use fc_nodes::{Node, Op, Unfolded};
use fc_values::Builtin;

/// The places of the parts of a body: `minHoodLoc(h, l)`, `rise(minHoodLoc(h, l), x, s)`, or another form.
#[derive(Clone, Copy, Debug, PartialEq, Eq)]
pub enum Places {
    Hood { h: u32, l: u32 },
    Rise { h: u32, l: u32, s: u32 },
    Other,
}

/// The form of the body at a place.
pub fn form(program: &Unfolded, own: Own, body: u32) -> Places
    requires { StandsAt program.now.nodes body }
    ensures { IsFormOf program.now.nodes own body result }
{
    match settled_kids(program, own, body) {
        Some((h, l)) => Places::Hood { h, l },
        None => risen_form(program, own, body),
    }
}

// The form of a body that is no `minHoodLoc` with a second argument without the variable.
fn risen_form(program: &Unfolded, own: Own, body: u32) -> Places
    requires { StandsAt program.now.nodes body }
    ensures { IsRisenFormOf program.now.nodes own body result }
{
    if own.is_share {
        return Places::Other;
    }
    match rise_kids(program, body) {
        Some((a, second, s)) => {
            if !program.is_own(own.place, second) || program.occurs(own.place, s) {
                return Places::Other;
            }
            match settled_kids(program, own, a) {
                Some((h, l)) => Places::Rise { h, l, s },
                None => Places::Other,
            }
        }
        None => Places::Other,
    }
}

/// Whether some occurrence in a body is neither that of what is heard nor, in a `rep`, the second argument of a body
/// `rise(a, x, s)`. `bare` says whether some occurrence isn't that of what is heard.
pub fn unguarded(program: &Unfolded, own: Own, body: u32, bare: bool) -> bool
    requires stands { StandsAt program.now.nodes body }
    requires bare { bare ≡ is_bare (evolution_of own) own.place (term_at program.now.nodes body) }
    ensures { result ≡ is_unguarded (evolution_of own) own.place (term_at program.now.nodes body) }
{
    if own.is_share {
        return bare;
    }
    match rise_kids(program, body) {
        Some((a, second, s)) => {
            if program.is_own(own.place, second) {
                gather(program, own, a).bare || gather(program, own, s).bare
            } else {
                bare
            }
        }
        None => bare,
    }
}

// The arguments of a `minHoodLoc` whose second one is without the variable.
fn settled_kids(program: &Unfolded, own: Own, place: u32) -> Option<(u32, u32)>
    requires { StandsAt program.now.nodes place }
    ensures { SettledKids program.now.nodes own.place place result }
{
    match hood_kids(program, place) {
        Some((h, l)) => {
            if program.occurs(own.place, l) {
                None
            } else {
                Some((h, l))
            }
        }
        None => None,
    }
}

// The arguments of a `minHoodLoc`.
fn hood_kids(program: &Unfolded, place: u32) -> Option<(u32, u32)>
    requires { StandsAt program.now.nodes place }
    ensures { HoodKids program.now.nodes place result }
{
    let node = program.node(place);
    let kids = node.kids.as_slice();
    if is_hood(node) && kids.len() == 2 {
        Some((kids[0], kids[1]))
    } else {
        None
    }
}

// The arguments of a `rise`.
fn rise_kids(program: &Unfolded, place: u32) -> Option<(u32, u32, u32)>
    requires { StandsAt program.now.nodes place }
    ensures { RiseKids program.now.nodes place result }
{
    let node = program.node(place);
    let kids = node.kids.as_slice();
    if is_rise(node) && kids.len() == 3 {
        Some((kids[0], kids[1], kids[2]))
    } else {
        None
    }
}

fn is_hood(node: &Node) -> bool
    ensures { result ≡ is_builtin_sort op.MinHoodLoc (sort_of node.now.op) }
{
    match &node.op {
        Op::Apply(Builtin::MinHoodLoc) => true,
        _ => false,
    }
}

fn is_rise(node: &Node) -> bool
    ensures { result ≡ is_builtin_sort op.Rise (sort_of node.now.op) }
{
    match &node.op {
        Op::Apply(Builtin::Rise) => true,
        _ => false,
    }
}
