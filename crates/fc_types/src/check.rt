//! The types of programs.

ghost use Rattle.std.specs.Prelude.{ℕ, ◌≡◌, ◌<◌, ◌^◌, [], IfErr, IfOk, IsErrAnd, length, map};
ghost use Rattle.fc_syntax.specs.Printable.{IsPrintable};
ghost use Rattle.fc_syntax.specs.Terms.{InputIs, declaration_of, parameter_of, program_of, term_of};
ghost use Rattle.fc_values.specs.Types.{declarations_of, type_of};
ghost use Rattle.fc_types.specs.declared.faults.TypeKind.{TypeKind as AKind};
ghost use Rattle.fc_types.specs.Before.{declared_by};
ghost use Rattle.fc_types.specs.Faults.{FirstFault};
ghost use Rattle.fc_types.specs.Judging.{body_fault, declaration_fault, judge as judgement, main_fault};
ghost use Rattle.fc_types.specs.Judging.{parameter_fault, range_fault, width_fault};
ghost use Rattle.fc_types.specs.Typing.{IsTyped};
ghost use Rattle.fc_types.specs.Views.{IfFault, IsFaultOrMemory, IsMemory, Passes, known_of};

use crate::expressions::judge;
use crate::faults::{TypeFault, TypeKind};
use crate::known::Known;
use crate::refusal::TypeRefusal;
use crate::scopes::{Scope, lookup_parameter};
use crate::typed::Typed;
use crate::types::{leaves_to_nine, same_types};
use fc_syntax::{Decl, Expr, Param, Program};
use fc_values::{Declared, InputTy, Name, Ty, inner};
use std::alloc::Global;

/// The types of a program: the program with what it declares, or its first fault.
pub fn check_types(alloc: Global, program: Program) -> Result<Typed, TypeFault>
    requires printable { IsPrintable (program_of program) }
    requires few { length program.decls.items < 2 ^ 32 }
    ensures program { IfOk result (λ typed. typed.program ≡ program) }
    ensures declared { IfOk result (λ typed. typed.declared ≡ declared_by (program_of program)) }
    ensures typed { IfOk result (λ _. IsTyped (program_of program)) }
    ensures fault { IfErr result (λ e. IfFault e (FirstFault (program_of program))) }
    ensures always { IsTyped (program_of program) → IfErr result IsMemory }
    ensures never { (n : ℕ) (k : AKind) → FirstFault (program_of program) n k
        → IsErrAnd result (λ e. IsFaultOrMemory n k e) }
{
    let declared = check_program(alloc, &program)?;
    Ok(Typed::new(program, declared))
}

// What a program declares, or its first fault.
fn check_program(alloc: Global, program: &Program) -> Result<Declared, TypeFault>
    requires { length program.now.decls.items < 2 ^ 32 }
    ensures declared { IfOk result (λ d. declarations_of d ≡ declared_by (program_of program.now)) }
    ensures typed { IfOk result (λ _. IsTyped (program_of program.now)) }
    ensures fault { IfErr result (λ e. IfFault e (FirstFault (program_of program.now))) }
{
    let mut known = Known::new(alloc);
    for (index, decl) in program.decls.iter().enumerate() {
        match check_declaration(alloc, &known, decl) {
            Ok(()) => known.declare(decl)?,
            Err(TypeRefusal::Kind(kind)) => {
                let declaration = index as u32 + 1;
                return Err(TypeFault::Fault { declaration, kind });
            }
            Err(TypeRefusal::Memory) => return Err(TypeFault::Memory),
        }
    }
    Ok(known.declared(alloc)?)
}

// Whether a declaration is typed, under those before it.
fn check_declaration(alloc: Global, known: &Known<'_>, decl: &Decl) -> Result<(), TypeRefusal>
    ensures { Passes result (declaration_fault (known_of known.now) (declaration_of decl.now)) }
{
    match decl {
        Decl::Language(_) => Ok(()),
        Decl::Ceiling(n) => {
            if *n == 0 {
                Err(TypeRefusal::Kind(TypeKind::Range))
            } else {
                Ok(())
            }
        }
        Decl::Input(name, ty) => check_input(known, name, *ty),
        Decl::Metric(least, greatest) => {
            if known.metric.is_some() {
                Err(TypeRefusal::Kind(TypeKind::Twice))
            } else {
                check_range(known.ceiling, *least, *greatest)
            }
        }
        Decl::Def {
            name,
            params,
            result,
            body,
        } => {
            if known.function(&name.text).is_some() {
                return Err(TypeRefusal::Kind(TypeKind::Twice));
            }
            check_parameters(params)?;
            check_width(result)?;
            check_body(alloc, known, params, result, body)
        }
        Decl::Main(expr) => check_main(alloc, known, expr),
    }
}

fn check_range(ceiling: u32, least: u32, greatest: u32) -> Result<(), TypeRefusal>
    ensures { Passes result (range_fault ceiling least greatest) }
{
    if greatest < least || ceiling < greatest {
        Err(TypeRefusal::Kind(TypeKind::Range))
    } else {
        Ok(())
    }
}

fn check_input(known: &Known<'_>, name: &Name, ty: InputTy) -> Result<(), TypeRefusal>
    ensures { Passes result (declaration_fault (known_of known.now) (InputIs name.now.text.items ty)) }
{
    if known.input(&name.text).is_some() {
        return Err(TypeRefusal::Kind(TypeKind::Twice));
    }
    match ty {
        InputTy::Truth => Ok(()),
        InputTy::Whole(least, greatest) => check_range(known.ceiling, least, greatest),
    }
}

fn check_width(ty: &Ty) -> Result<(), TypeRefusal>
    ensures { Passes result (width_fault (type_of ty.now)) }
{
    if leaves_to_nine(inner(ty)) > 8 {
        Err(TypeRefusal::Kind(TypeKind::Wide))
    } else {
        Ok(())
    }
}

// Whether parameters have distinct names, and types of at most 8 leaves.
fn check_parameters(params: &[Param]) -> Result<(), TypeRefusal>
    ensures { Passes result (parameter_fault [] (map parameter_of params.now)) }
{
    for (index, param) in params.iter().enumerate() {
        if lookup_parameter(&params[..index], &param.name).is_some() {
            return Err(TypeRefusal::Kind(TypeKind::Twice));
        }
        check_width(&param.ty)?;
    }
    Ok(())
}

fn check_body(
    alloc: Global,
    known: &Known<'_>,
    params: &[Param],
    declared: &Ty,
    body: &Expr,
) -> Result<(), TypeRefusal>
    ensures { Passes result (body_fault (type_of declared.now)
        (judgement (known_of known.now) (map parameter_of params.now) (term_of body.now))) }
{
    let ty = judge(alloc, known, &Scope::Params(params), body)?;
    if same_types(&ty, declared) {
        Ok(())
    } else {
        Err(TypeRefusal::Kind(TypeKind::Result))
    }
}

fn check_main(alloc: Global, known: &Known<'_>, expr: &Expr) -> Result<(), TypeRefusal>
    ensures { Passes result (main_fault (judgement (known_of known.now) [] (term_of expr.now))) }
{
    match judge(alloc, known, &Scope::Params(&[]), expr)? {
        Ty::Local(_) => Ok(()),
        Ty::Field(_) => Err(TypeRefusal::Kind(TypeKind::NotLocal)),
    }
}
