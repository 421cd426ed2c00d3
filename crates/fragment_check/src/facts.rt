//! What is gathered of a body, on the way up.

ghost use Rattle.std.specs.Prelude.{◌≡◌, ◌<◌, ◌∷◌, [], length};
ghost use Rattle.fc_values.specs.declared.builtins.Builtin.TheVariants as op;
ghost use Rattle.fc_values.specs.Types.{type_of};
ghost use Rattle.fc_nodes.specs.Terms.{term_at, terms_by, sort_of};
ghost use Rattle.fc_nodes.specs.Places.{StandsAt};
ghost use Rattle.fragment_check.specs.Facts.{InRow, evolution_of, facts_of, facts_of_all, facts_of_apply, guarded_facts, joined as joined_of, variable_facts, under_nbr, beneath, is_less_sort, leaf_facts_by, is_mux, builtin_by, int_variable_by};
ghost use Rattle.fc_nodes.specs.Variables.{occurs, is_own, is_heard};
ghost use Rattle.fragment_check.specs.Patterns.{together as together_of, int_variable, same_binder, comparison, compared};

use fc_nodes::{Node, Op, Unfolded, is_deep, is_nbr};
use fc_values::{Builtin, LocalTy, Ty};

/// How the occurrences of a variable are guarded: there is none; each is guarded by the variable of the binder at one
/// place, of type int; each is guarded, in another way; not each is guarded.
#[derive(Clone, Copy, Debug, PartialEq, Eq)]
pub enum Guarding {
    Unused,
    Potential(u32),
    Others,
    Missing,
}

/// The variable of a `rep` or `share`, by its place.
#[derive(Clone, Copy, Debug, PartialEq, Eq)]
pub struct Own {
    pub place: u32,
    pub is_share: bool,
}

/// What is gathered of a term: whether the variable occurs, whether some occurrence is nested, whether some occurrence
/// is not that of what is heard, and how the occurrences are guarded.
#[derive(Clone, Copy, Debug, PartialEq, Eq)]
pub struct Gathered {
    pub uses: bool,
    pub nested: bool,
    pub bare: bool,
    pub guarding: Guarding,
}

const NO_FACTS: Gathered = Gathered {
    uses: false,
    nested: false,
    bare: false,
    guarding: Guarding::Unused,
};

/// The facts of the term at a place. It doesn't walk into a `let`, `if`, `rep` or `share` without the variable.
#[cycle(gather)]
pub fn gather(program: &Unfolded, own: Own, place: u32) -> Gathered
    requires { StandsAt program.now.nodes place }
    ensures { result ≡ facts_of own (term_at program.now.nodes place) }
{
    let node = program.node(place);
    let kids = node.kids.as_slice();
    if let Some(builtin) = builtin_of(node) {
        return apply_facts(program, own, builtin, kids, place);
    }
    if is_nbr(node) {
        let heard = is_heard(program, own, place);
        return under_nbr(heard, gather_all(program, own, kids, place));
    }
    if is_deep(node) {
        if !program.occurs(own.place, place) {
            return NO_FACTS;
        }
        return beneath(gather_all(program, own, kids, place));
    }
    leaf_facts(node, own)
}

// The facts of terms one after another, taken together.
#[cycle(gather)]
fn gather_all(program: &Unfolded, own: Own, kids: &[u32], place: u32) -> Gathered
    requires { InRow program.now.nodes place kids.now }
    ensures { result ≡ facts_of_all own (terms_by (term_at program.now.nodes) kids.now) }
{
    match kids.split_first() {
        Some((first, rest)) => joined(
            gather(program, own, *first),
            gather_all(program, own, rest, *first),
        ),
        None => NO_FACTS,
    }
}

// The facts of a builtin of these arguments.
#[cycle(gather)]
fn apply_facts(program: &Unfolded, own: Own, builtin: Builtin, kids: &[u32], place: u32) -> Gathered
    requires within { place < length program.now.nodes }
    requires row { InRow program.now.nodes place kids.now }
    ensures { result ≡ facts_of_apply own builtin (terms_by (term_at program.now.nodes) kids.now) }
{
    if is_mux(builtin) && kids.len() == 3 {
        mux_facts(program, own, place, kids[0], kids[1], kids[2])
    } else {
        gather_all(program, own, kids, place)
    }
}

fn is_mux(builtin: Builtin) -> bool
    ensures { result ≡ is_mux builtin }
{
    match builtin {
        Builtin::Mux => true,
        _ => false,
    }
}

// The facts of a `mux`, which may be a guard.
#[cycle(gather)]
fn mux_facts(
    program: &Unfolded,
    own: Own,
    place: u32,
    condition: u32,
    heard: u32,
    other: u32,
) -> Gathered
    requires { InRow program.now.nodes place (condition ∷ heard ∷ other ∷ []) }
    ensures { result ≡ facts_of_apply own op.Mux (terms_by (term_at program.now.nodes)
        (condition ∷ heard ∷ other ∷ [])) }
{
    let first = gather(program, own, condition);
    let last = gather(program, own, other);
    let rest = joined(gather(program, own, heard), joined(last, NO_FACTS));
    let all = joined(first, rest);
    if is_heard(program, own, heard) && !first.uses && !last.uses {
        guarded(all, comparison(program, condition))
    } else {
        all
    }
}

// The facts with what a comparison guards by, if there is one.
fn guarded(facts: Gathered, comparison: Option<Guarding>) -> Gathered
    ensures { result ≡ guarded_facts facts comparison }
{
    match comparison {
        Some(guarding) => Gathered {
            uses: facts.uses,
            nested: facts.nested,
            bare: facts.bare,
            guarding,
        },
        None => facts,
    }
}

fn joined(a: Gathered, b: Gathered) -> Gathered
    ensures { result ≡ joined_of a b }
{
    Gathered {
        uses: a.uses || b.uses,
        nested: a.nested || b.nested,
        bare: a.bare || b.bare,
        guarding: together(a.guarding, b.guarding),
    }
}

fn together(a: Guarding, b: Guarding) -> Guarding
    ensures { result ≡ together_of a b }
{
    match (a, b) {
        (Guarding::Unused, _) => b,
        (_, Guarding::Unused) => a,
        (Guarding::Missing, _) | (_, Guarding::Missing) => Guarding::Missing,
        (Guarding::Potential(p), Guarding::Potential(q)) => same_binder(Some(p), Some(q)),
        _ => Guarding::Others,
    }
}

// The facts of a node without kids.
fn leaf_facts(node: &Node, own: Own) -> Gathered
    ensures { result ≡ leaf_facts_by own (sort_of node.now.op) }
{
    match &node.op {
        Op::Var(binder) => variable_facts(own, *binder),
        _ => NO_FACTS,
    }
}

fn variable_facts(own: Own, binder: u32) -> Gathered
    ensures { result ≡ variable_facts own binder }
{
    let uses = binder == own.place;
    Gathered {
        uses,
        nested: false,
        bare: !own.is_share && uses,
        guarding: if uses {
            Guarding::Missing
        } else {
            Guarding::Unused
        },
    }
}

// The facts of what stands under `nbr`.
fn under_nbr(heard: bool, inside: Gathered) -> Gathered
    ensures { result ≡ under_nbr heard inside }
{
    Gathered {
        uses: inside.uses,
        nested: !heard && inside.uses,
        bare: !heard && inside.bare,
        guarding: inside.guarding,
    }
}

// The facts of what stands under `let`, `if`, `rep` or `share`.
fn beneath(inside: Gathered) -> Gathered
    ensures { result ≡ beneath inside }
{
    Gathered {
        uses: inside.uses,
        nested: inside.uses,
        bare: inside.bare,
        guarding: inside.guarding,
    }
}

// Whether the term at a place is what is heard of the variable.
fn is_heard(program: &Unfolded, own: Own, place: u32) -> bool
    requires { StandsAt program.now.nodes place }
    ensures { result ≡ is_heard (evolution_of own) own.place (term_at program.now.nodes place) }
{
    if own.is_share {
        return program.is_own(own.place, place);
    }
    let node = program.node(place);
    is_nbr(node) && program.is_own(own.place, node.kids[0])
}

fn is_less(node: &Node) -> bool
    ensures { result ≡ is_less_sort (sort_of node.now.op) }
{
    match &node.op {
        Op::Apply(Builtin::Less) => true,
        _ => false,
    }
}

// The builtin of a node.
fn builtin_of(node: &Node) -> Option<Builtin>
    ensures { result ≡ builtin_by (sort_of node.now.op) }
{
    match &node.op {
        Op::Apply(builtin) => Some(*builtin),
        _ => None,
    }
}

// What a condition `nbr{a} < b` guards by, where it is of that form.
fn comparison(program: &Unfolded, place: u32) -> Option<Guarding>
    requires { StandsAt program.now.nodes place }
    ensures { result ≡ comparison (term_at program.now.nodes place) }
{
    let node = program.node(place);
    let kids = node.kids.as_slice();
    if is_less(node) && kids.len() == 2 {
        compared(program, kids[0], kids[1])
    } else {
        None
    }
}

fn compared(program: &Unfolded, a: u32, b: u32) -> Option<Guarding>
    requires first { StandsAt program.now.nodes a }
    requires second { StandsAt program.now.nodes b }
    ensures { result ≡ compared (term_at program.now.nodes a) (term_at program.now.nodes b) }
{
    let node = program.node(a);
    if is_nbr(node) {
        let potential = int_variable(program, node.kids[0]);
        Some(same_binder(potential, int_variable(program, b)))
    } else {
        None
    }
}

// The binder whose variable both terms are.
fn same_binder(a: Option<u32>, b: Option<u32>) -> Guarding
    ensures { result ≡ same_binder a b }
{
    match (a, b) {
        (Some(p), Some(q)) if p == q => Guarding::Potential(p),
        _ => Guarding::Others,
    }
}

// The place of the binder whose variable a term is, where that is of type int.
fn int_variable(program: &Unfolded, place: u32) -> Option<u32>
    requires { StandsAt program.now.nodes place }
    ensures { result ≡ int_variable (term_at program.now.nodes place) }
{
    int_variable_of(program.node(place))
}

fn int_variable_of(node: &Node) -> Option<u32>
    ensures { result ≡ int_variable_by (sort_of node.now.op) (type_of node.now.ty) }
{
    match (&node.op, &node.ty) {
        (Op::Var(binder), Ty::Local(LocalTy::Int)) => Some(*binder),
        _ => None,
    }
}
