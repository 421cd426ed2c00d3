//! The lines of facts of a program's nodes.

ghost use Rattle.std.specs.Prelude.{◌≡◌, ◌<◌, ◌++◌, IfOk, OnOk, OnErr, length};
ghost use Rattle.fc_values.specs.Types.{type_of as type_of_value};
ghost use Rattle.fc_nodes.specs.Subterms.{subterm_at};
ghost use Rattle.fc_nodes.specs.Terms.{sort_of, term_type};
ghost use Rattle.fc_nodes.specs.Program.{unfolding_of};
ghost use Rattle.interval_facts.specs.Ranges.{AreRangesOf, range_value};
ghost use Rattle.report.specs.Facts.{fact_line, facts_text, level_text, mark_text, node_text, range_text, root_sort};
ghost use Rattle.report.specs.Facts.{sort_text};

use crate::writing::{write_number, write_value};
use fc_nodes::{Node, Op, Unfolded};
use fc_syntax::{builtin_word, write_type};
use fc_values::{Builtin, Memory};
use interval_facts::{Range, Ranges};
use std::alloc::Global;

/// Appends a line for each node of a program, with its range and its level; or leaves `out` as it was.
pub fn facts(
    alloc: Global,
    out: &mut Vec<u8>,
    program: &Unfolded,
    ranges: &Ranges,
    levels: &[Option<u64>],
) -> Result<(), Memory>
    requires ranges { AreRangesOf (unfolding_of program.now) ranges.now }
    requires levels { length levels.now ≡ length program.now.nodes }
    ensures ok { OnOk result (out.new.items
        ≡ out.old.items ++ facts_text (unfolding_of program.now) ranges.now levels.now) }
    ensures err { OnErr result (out.new.items ≡ out.old.items) }
{
    let lines = fact_lines(alloc, program, ranges, levels)?;
    out.extend_from_slice(&lines)?;
    Ok(())
}

// The lines of a program's nodes.
fn fact_lines(
    alloc: Global,
    program: &Unfolded,
    ranges: &Ranges,
    levels: &[Option<u64>],
) -> Result<Vec<u8>, Memory>
    requires ranges { AreRangesOf (unfolding_of program.now) ranges.now }
    requires levels { length levels.now ≡ length program.now.nodes }
    ensures { IfOk result (λ v. v.items ≡ facts_text (unfolding_of program.now) ranges.now levels.now) }
{
    let mut lines = Vec::new(alloc);
    for place in 0..program.size() {
        write_fact(
            alloc,
            &mut lines,
            program,
            place,
            ranges.at(place),
            levels[place as usize],
        )?;
    }
    Ok(lines)
}

// Appends the line of the node at a place.
fn write_fact(
    alloc: Global,
    out: &mut Vec<u8>,
    program: &Unfolded,
    place: u32,
    range: &Range,
    level: Option<u64>,
) -> Result<(), Memory>
    requires { place < length program.now.nodes }
    ensures { OnOk result (out.new.items ≡ out.old.items
        ++ fact_line place (subterm_at place (unfolding_of program.now).main) (range_value range.now) level) }
{
    write_node(alloc, out, place, node_at(program, place))?;
    out.push(b' ')?;
    write_range(alloc, out, range)?;
    out.push(b' ')?;
    write_level(alloc, out, level)?;
    out.push(b'\n')?;
    Ok(())
}

// The node at a place: the root of the part there.
fn node_at(program: &Unfolded, place: u32) -> &Node
    requires { place < length program.now.nodes }
    ensures sort { sort_of result.now.op ≡ root_sort (subterm_at place (unfolding_of program.now).main) }
    ensures ty { type_of_value result.now.ty ≡ term_type (subterm_at place (unfolding_of program.now).main) }
{
    program.node(place)
}

// Appends the place of a node, what it is, and its type.
fn write_node(alloc: Global, out: &mut Vec<u8>, place: u32, node: &Node) -> Result<(), Memory>
    ensures { OnOk result (out.new.items
        ≡ out.old.items ++ node_text place (sort_of node.now.op) (type_of_value node.now.ty)) }
{
    write_number(alloc, out, place)?;
    out.push(b' ')?;
    write_op(alloc, out, &node.op)?;
    out.push(b' ')?;
    write_type(out, &node.ty)
}

// Appends what a node is.
fn write_op(alloc: Global, out: &mut Vec<u8>, op: &Op) -> Result<(), Memory>
    ensures { OnOk result (out.new.items ≡ out.old.items ++ sort_text (sort_of op.now)) }
{
    match op {
        Op::Lit(value) => write_value(alloc, out, value)?,
        Op::Var(binder) => out.extend_from_slice(format!(in alloc; "var {binder}")?.as_bytes())?,
        Op::Sense(input) => out.extend_from_slice(format!(in alloc; "sense {input}")?.as_bytes())?,
        Op::Uid => out.extend_from_slice(b"uid")?,
        Op::NbrLink => out.extend_from_slice(b"nbrLink")?,
        Op::Apply(builtin) => out.extend_from_slice(mark(*builtin))?,
        Op::Nbr => out.extend_from_slice(b"nbr")?,
        Op::Rep => out.extend_from_slice(b"rep")?,
        Op::Share => out.extend_from_slice(b"share")?,
        Op::If => out.extend_from_slice(b"if")?,
        Op::Let => out.extend_from_slice(b"let")?,
    }
    Ok(())
}

// The mark or word of a builtin.
fn mark(builtin: Builtin) -> &'static [u8]
    ensures { result.now ≡ mark_text builtin }
{
    match builtin {
        Builtin::Pair => b"pair",
        _ => builtin_word(builtin),
    }
}

// Appends a range.
fn write_range(alloc: Global, out: &mut Vec<u8>, range: &Range) -> Result<(), Memory>
    ensures { OnOk result (out.new.items ≡ out.old.items ++ range_text (range_value range.now)) }
{
    match range {
        Range::Int(least, greatest) => {
            write_number(alloc, out, *least)?;
            out.extend_from_slice(b"..")?;
            write_number(alloc, out, *greatest)?;
        }
        Range::Bool => out.push(b'-')?,
        Range::Pair(a, b) => {
            out.push(b'(')?;
            write_range(alloc, out, a)?;
            out.push(b',')?;
            write_range(alloc, out, b)?;
            out.push(b')')?;
        }
    }
    Ok(())
}

// Appends a level.
fn write_level(alloc: Global, out: &mut Vec<u8>, level: Option<u64>) -> Result<(), Memory>
    ensures { OnOk result (out.new.items ≡ out.old.items ++ level_text level) }
{
    match level {
        Some(level) => out.extend_from_slice(format!(in alloc; "{level}")?.as_bytes())?,
        None => out.push(b'-')?,
    }
    Ok(())
}
