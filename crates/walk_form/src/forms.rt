//! The walk form, read from the nodes of a program.

ghost use Rattle.std.specs.Prelude.{◌≡◌, ◌+◌, IfNone, IfSome, None};
ghost use Rattle.fc_values.specs.Types.{type_of};
ghost use Rattle.fc_values.specs.declared.builtins.Builtin.TheVariants as op;
ghost use Rattle.fc_nodes.specs.Terms.{ByRep, size, sort_of, term_at};
ghost use Rattle.fc_nodes.specs.Places.{StandsAt};
ghost use Rattle.fc_nodes.specs.Program.{unfolding_of};
ghost use Rattle.fc_nodes.specs.Variables.{is_heard as is_heard_term};
ghost use Rattle.interval_facts.specs.Ranges.{AreRangesOf};
ghost use Rattle.growth_facts.specs.Facts.{IsEvolving};
ghost use Rattle.fragment_check.specs.Forms.{TwoAt, is_builtin_sort};
ghost use Rattle.fragment_check.specs.Verdicts.{pattern_at};
ghost use Rattle.walk_form.specs.Forms.{added_term, is_minimising as is_minimising_of, sum_step, walk_terms};
ghost use Rattle.walk_form.specs.Spans.{IsAddedOf, IsBuiltinAt, IsSpan, IsStepOf, IsWalkForm, is_add, is_int_rep as is_int_rep_of};

use fc_nodes::{Node, Op, Unfolded, is_nbr};
use fc_values::{Builtin, LocalTy, Ty};
use fragment_check::{Pattern, pattern};
use interval_facts::Ranges;

/// The nodes of a term: the place at which it stands, and the place behind its last node.
#[derive(Clone, Copy, Debug, PartialEq, Eq)]
pub struct Span {
    pub from: u32,
    pub end: u32,
}

/// What a step adds: what a term has at the device to which the step leads, or the weight of the link.
#[derive(Clone, Copy, Debug, PartialEq, Eq)]
pub enum Adds {
    Values(Span),
    Weights,
}

/// The local argument with which walks start, and what steps add.
#[derive(Clone, Copy, Debug, PartialEq, Eq)]
pub struct WalkForm {
    pub local: Span,
    pub adds: Adds,
}

/// The walk form of a program, where it has it.
pub fn walk_form(program: &Unfolded, ranges: &Ranges) -> Option<WalkForm>
    requires { AreRangesOf (unfolding_of program.now) ranges.now }
    ensures form { IfSome result (IsWalkForm program.now) }
    ensures none { IfNone result (walk_terms (unfolding_of program.now) ≡ None) }
{
    let end = program.size();
    let root = program.node(0);
    if !is_int_rep(root) {
        return None;
    }
    if !is_minimising(program, ranges) {
        return None;
    }
    let (h, l) = hood_kids(program, root.kids[1])?;
    let adds = step(program, h, l)?;
    Some(WalkForm {
        local: Span { from: l, end },
        adds,
    })
}

// Whether a node is a `rep` of type int.
fn is_int_rep(node: &Node) -> bool
    ensures { result ≡ is_int_rep_of (sort_of node.now.op) (type_of node.now.ty) }
{
    match (&node.op, &node.ty) {
        (Op::Rep, Ty::Local(LocalTy::Int)) => true,
        _ => false,
    }
}

// Whether the root has the pattern `Minimising`.
fn is_minimising(program: &Unfolded, ranges: &Ranges) -> bool
    requires ranges { AreRangesOf (unfolding_of program.now) ranges.now }
    requires evolving { IsEvolving program.now.nodes 0 }
    ensures { result ≡ is_minimising_of (pattern_at (unfolding_of program.now) 0) }
{
    match pattern(program, ranges, 0) {
        Ok(Pattern::Minimising { .. }) => true,
        _ => false,
    }
}

// What the sum at a place, which ends at another, adds to what is heard of the root's variable.
fn step(program: &Unfolded, sum: u32, end: u32) -> Option<Adds>
    requires stands { StandsAt program.now.nodes sum }
    requires end { end ≡ sum + size (term_at program.now.nodes sum) }
    ensures step { IfSome result (IsStepOf program.now.nodes sum) }
    ensures none { IfNone result (sum_step 0 sum (term_at program.now.nodes sum) ≡ None) }
{
    let (a, b) = sum_kids(program, sum)?;
    if is_heard(program, a) {
        return added(program, Span { from: b, end });
    }
    if is_heard(program, b) {
        return added(program, Span { from: a, end: b });
    }
    None
}

// What a summand adds.
fn added(program: &Unfolded, term: Span) -> Option<Adds>
    requires { IsSpan program.now.nodes term }
    ensures added { IfSome result (IsAddedOf program.now.nodes term.from) }
    ensures none { IfNone result (added_term term.from (term_at program.now.nodes term.from) ≡ None) }
{
    let node = program.node(term.from);
    match (&node.op, &node.ty) {
        (Op::NbrLink, _) => Some(Adds::Weights),
        (_, Ty::Local(_)) => Some(Adds::Values(term)),
        _ => None,
    }
}

// Whether the term at a place is `nbr` of the root's variable.
fn is_heard(program: &Unfolded, place: u32) -> bool
    requires { StandsAt program.now.nodes place }
    ensures { result ≡ is_heard_term ByRep 0 (term_at program.now.nodes place) }
{
    let node = program.node(place);
    is_nbr(node) && program.is_own(0, node.kids[0])
}

// The arguments of a `minHoodLoc`.
fn hood_kids(program: &Unfolded, place: u32) -> Option<(u32, u32)>
    requires { StandsAt program.now.nodes place }
    ensures kids { IfSome result (λ k. TwoAt program.now.nodes op.MinHoodLoc place k.0 k.1) }
    ensures none { IfNone result (IsBuiltinAt op.MinHoodLoc program.now.nodes place → ⊥) }
{
    let node = program.node(place);
    let kids = node.kids.as_slice();
    if is_hood(node) && kids.len() == 2 {
        Some((kids[0], kids[1]))
    } else {
        None
    }
}

// The arguments of a sum.
fn sum_kids(program: &Unfolded, place: u32) -> Option<(u32, u32)>
    requires { StandsAt program.now.nodes place }
    ensures kids { IfSome result (λ k. TwoAt program.now.nodes op.Add place k.0 k.1) }
    ensures none { IfNone result (IsBuiltinAt op.Add program.now.nodes place → ⊥) }
{
    let node = program.node(place);
    let kids = node.kids.as_slice();
    if is_add(node) && kids.len() == 2 {
        Some((kids[0], kids[1]))
    } else {
        None
    }
}

fn is_hood(node: &Node) -> bool
    ensures { result ≡ is_builtin_sort op.MinHoodLoc (sort_of node.now.op) }
{
    match &node.op {
        Op::Apply(Builtin::MinHoodLoc) => true,
        _ => false,
    }
}

fn is_add(node: &Node) -> bool
    ensures { result ≡ is_add (sort_of node.now.op) }
{
    match &node.op {
        Op::Apply(Builtin::Add) => true,
        _ => false,
    }
}
