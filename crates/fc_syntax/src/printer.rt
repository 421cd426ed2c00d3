//! Printing.

ghost use Rattle.std.specs.Prelude.{◌≡◌, ◌++◌, IfOk, codes, decimal, map};
ghost use Rattle.fc_values.specs.Types.{local_type_of, type_of};
ghost use Rattle.fc_syntax.specs.Printable.{IsPrintable};
ghost use Rattle.fc_syntax.specs.Terms.{declaration_of, parameter_of, program_of, term_of};
ghost use Rattle.fc_syntax.specs.Text.{declaration_text, input_type_text, local_type_text, parameter_text};
ghost use Rattle.fc_syntax.specs.Text.{program_text, text, type_text, with_commas};

use crate::pieces::{Piece, push_expression, push_operand, push_rest};
use crate::tree::{Decl, Expr, Param, Program};
use fc_values::{InputTy, LocalTy, Memory, Ty};
use std::alloc::Global;

/// The canonical text of a program.
pub fn print(alloc: Global, program: &Program) -> Result<Vec<u8>, Memory>
    requires { IsPrintable (program_of program.now) }
    ensures { IfOk result (λ v. v.items ≡ program_text (program_of program.now)) }
{
    let mut out = Vec::new(alloc);
    for decl in &program.decls {
        print_declaration(alloc, &mut out, decl)?;
        out.extend_from_slice(b";\n")?;
    }
    Ok(out)
}

fn print_declaration(alloc: Global, out: &mut Vec<u8>, decl: &Decl) -> Result<(), Memory>
    ensures { IfOk result (λ _. out.new.items ≡ out.old.items ++ declaration_text (declaration_of decl.now)) }
{
    match decl {
        Decl::Language(n) => {
            out.extend_from_slice(b"language ")?;
            print_number(alloc, out, *n)
        }
        Decl::Ceiling(n) => {
            out.extend_from_slice(b"ceiling ")?;
            print_number(alloc, out, *n)
        }
        Decl::Input(name, ty) => {
            out.extend_from_slice(b"input ")?;
            out.extend_from_slice(&name.text)?;
            out.extend_from_slice(b": ")?;
            print_input_type(alloc, out, *ty)
        }
        Decl::Metric(least, greatest) => {
            out.extend_from_slice(b"metric ")?;
            print_range(alloc, out, *least, *greatest)
        }
        Decl::Def {
            name,
            params,
            result,
            body,
        } => {
            out.extend_from_slice(b"def ")?;
            out.extend_from_slice(&name.text)?;
            out.extend_from_slice(b"(")?;
            print_parameters(out, params)?;
            out.extend_from_slice(b"): ")?;
            write_type(out, result)?;
            out.extend_from_slice(b" = ")?;
            print_expression(alloc, out, body)
        }
        Decl::Main(expr) => {
            out.extend_from_slice(b"main = ")?;
            print_expression(alloc, out, expr)
        }
    }
}

fn print_number(alloc: Global, out: &mut Vec<u8>, n: u32) -> Result<(), Memory>
    ensures { IfOk result (λ _. out.new.items ≡ out.old.items ++ decimal n) }
{
    out.extend_from_slice(n.to_string(alloc)?.as_bytes())?;
    Ok(())
}

fn print_range(alloc: Global, out: &mut Vec<u8>, least: u32, greatest: u32) -> Result<(), Memory>
    ensures { IfOk result (λ _. out.new.items ≡ out.old.items ++ decimal least ++ codes ".." ++ decimal greatest) }
{
    print_number(alloc, out, least)?;
    out.extend_from_slice(b"..")?;
    print_number(alloc, out, greatest)
}

fn print_input_type(alloc: Global, out: &mut Vec<u8>, ty: InputTy) -> Result<(), Memory>
    ensures { IfOk result (λ _. out.new.items ≡ out.old.items ++ input_type_text ty) }
{
    match ty {
        InputTy::Truth => {
            out.extend_from_slice(b"bool")?;
            Ok(())
        }
        InputTy::Whole(least, greatest) => {
            out.extend_from_slice(b"int ")?;
            print_range(alloc, out, least, greatest)
        }
    }
}

fn print_parameters(out: &mut Vec<u8>, params: &[Param]) -> Result<(), Memory>
    ensures { IfOk result (λ _. out.new.items ≡ out.old.items
        ++ with_commas (map parameter_text (map parameter_of params.now))) }
{
    let [first, rest @ ..] = params else {
        return Ok(());
    };
    print_parameter(out, first)?;
    for param in rest {
        out.extend_from_slice(b", ")?;
        print_parameter(out, param)?;
    }
    Ok(())
}

fn print_parameter(out: &mut Vec<u8>, param: &Param) -> Result<(), Memory>
    ensures { IfOk result (λ _. out.new.items ≡ out.old.items ++ parameter_text (parameter_of param.now)) }
{
    out.extend_from_slice(&param.name.text)?;
    out.extend_from_slice(b": ")?;
    write_type(out, &param.ty)
}

/// Appends the text of a type. Each of its levels is a bracket, so the limit on brackets bounds the recursion.
pub fn write_type(out: &mut Vec<u8>, ty: &Ty) -> Result<(), Memory>
    ensures { IfOk result (λ _. out.new.items ≡ out.old.items ++ type_text (type_of ty.now)) }
{
    match ty {
        Ty::Local(ty) => write_local_type(out, ty),
        Ty::Field(ty) => {
            out.extend_from_slice(b"field ")?;
            write_local_type(out, ty)
        }
    }
}

fn write_local_type(out: &mut Vec<u8>, ty: &LocalTy) -> Result<(), Memory>
    ensures { IfOk result (λ _. out.new.items ≡ out.old.items ++ local_type_text (local_type_of ty.now)) }
{
    match ty {
        LocalTy::Int => out.extend_from_slice(b"int")?,
        LocalTy::Bool => out.extend_from_slice(b"bool")?,
        LocalTy::Pair(first, second) => {
            out.extend_from_slice(b"(")?;
            write_local_type(out, first)?;
            out.extend_from_slice(b", ")?;
            write_local_type(out, second)?;
            out.extend_from_slice(b")")?;
        }
    }
    Ok(())
}

fn print_expression(alloc: Global, out: &mut Vec<u8>, expr: &Expr) -> Result<(), Memory>
    ensures { IfOk result (λ _. out.new.items ≡ out.old.items ++ text (term_of expr.now)) }
{
    let mut stack = Vec::new(alloc);
    stack.push(Piece::Whole(expr))?;
    while let Some(piece) = stack.pop() {
        match piece {
            Piece::Text(bytes) => out.extend_from_slice(bytes)?,
            Piece::Number(n) => print_number(alloc, out, n)?,
            Piece::Whole(expr) => push_expression(&mut stack, expr)?,
            Piece::Operand(expr, asks) => push_operand(&mut stack, expr, asks)?,
            Piece::Rest(args) => push_rest(&mut stack, args)?,
        }
    }
    Ok(())
}
