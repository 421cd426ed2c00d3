//! Whether a program is a closed term of another one.

ghost use Rattle.std.specs.Prelude.{◌≡◌, ◌-◌, IsTrue, map};
ghost use Rattle.fc_values.specs.Types.{local_type_of, type_of};
ghost use Rattle.fc_values.specs.Values.{local_of};
ghost use Rattle.fc_nodes.specs.Terms.{sort_of, view_of};
ghost use Rattle.closed_terms.specs.Parts.{lowered_sort, lowered_view, IsClosedTerm, IsClosedPart};

use fc_nodes::{Node, Op, Unfolded};
use fc_values::{Local, LocalTy, Ty};

/// Whether a program with the same declarations is the closed term at a place, which ends before another place.
pub fn is_part(program: &Unfolded, place: u32, end: u32, part: &Unfolded) -> bool
    requires term { IsClosedTerm program.now place end }
    requires declared { part.now.declared ≡ program.now.declared }
    ensures { IsTrue result → IsClosedPart program.now place part.now }
{
    let _program = program.declared();
    let size = part.size();
    if size != end - place {
        return false;
    }
    for at in 0..size {
        if !is_lowered(program.node(place + at), place, part.node(at)) {
            return false;
        }
    }
    true
}

// Whether a node is another one as it is counted from a root.
fn is_lowered(node: &Node, root: u32, part: &Node) -> bool
    ensures { IsTrue result → view_of part.now ≡ lowered_view root (view_of node.now) }
{
    is_lowered_op(&node.op, root, &part.op)
        && same_type(&node.ty, &part.ty)
        && are_lowered(&node.kids, root, &part.kids)
}

fn is_lowered_op(op: &Op, root: u32, part: &Op) -> bool
    ensures { IsTrue result → sort_of part.now ≡ lowered_sort root (sort_of op.now) }
{
    match (op, part) {
        (Op::Lit(a), Op::Lit(b)) => same_local(a, b),
        (Op::Var(a), Op::Var(b)) => a.saturating_sub(root) == *b,
        (Op::Sense(a), Op::Sense(b)) => *a == *b,
        (Op::Uid, Op::Uid) => true,
        (Op::NbrLink, Op::NbrLink) => true,
        (Op::Apply(a), Op::Apply(b)) => *a == *b,
        (Op::Nbr, Op::Nbr) => true,
        (Op::Rep, Op::Rep) => true,
        (Op::Share, Op::Share) => true,
        (Op::If, Op::If) => true,
        (Op::Let, Op::Let) => true,
        _ => false,
    }
}

fn same_type(a: &Ty, b: &Ty) -> bool
    ensures { IsTrue result → type_of b.now ≡ type_of a.now }
{
    match (a, b) {
        (Ty::Local(a), Ty::Local(b)) => same_local_type(a, b),
        (Ty::Field(a), Ty::Field(b)) => same_local_type(a, b),
        _ => false,
    }
}

fn same_local_type(a: &LocalTy, b: &LocalTy) -> bool
    ensures { IsTrue result → local_type_of b.now ≡ local_type_of a.now }
{
    match (a, b) {
        (LocalTy::Int, LocalTy::Int) => true,
        (LocalTy::Bool, LocalTy::Bool) => true,
        (LocalTy::Pair(a, b), LocalTy::Pair(c, d)) => same_local_type(a, c)
            && same_local_type(b, d),
        _ => false,
    }
}

fn same_local(a: &Local, b: &Local) -> bool
    ensures { IsTrue result → local_of b.now ≡ local_of a.now }
{
    match (a, b) {
        (Local::Int(x), Local::Int(y)) => *x == *y,
        (Local::Bool(x), Local::Bool(y)) => *x == *y,
        (Local::Pair(x, y), Local::Pair(z, w)) => same_local(x, z) && same_local(y, w),
        _ => false,
    }
}

fn are_lowered(places: &[u32], root: u32, part: &[u32]) -> bool
    ensures { IsTrue result → part.now ≡ map (λ q. q - root) places.now }
{
    let Some((first, rest)) = places.split_first() else {
        return part.is_empty();
    };
    let Some((second, others)) = part.split_first() else {
        return false;
    };
    first.saturating_sub(root) == *second && are_lowered(rest, root, others)
}
