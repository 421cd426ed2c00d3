//! Typed programs.

use fc_syntax::Program;
use fc_values::Declared;
use std::marker::Model;

/// A typed program, with what it declares: the ceiling, the inputs in declared order, and the metric.
#[derive(Drop)]
pub struct Typed {
    program: Program,
    declared: Declared,
}

impl Model for Typed {
    ghost use Rattle.fc_values.specs.Types.{declarations_of};
    ghost use Rattle.fc_types.specs.Typed.{TypedProgram, IsTypedProgram};
    ghost use Rattle.std.specs.Coded.{codes};
    ghost use Rattle.fc_syntax.specs.contracts.tree.Expr as expr;
    ghost use Rattle.fc_values.specs.contracts.types.LocalTy as local_ty;

    ghost Value = { TypedProgram };

    ghost coded = { Prim.hlevel (codes, expr.the_row.coded, local_ty.the_row.coded) };

    ghost view = { λ t. record { program = t.program; declared = declarations_of t.declared } };

    ghost invariant = { λ t. IsTypedProgram (record { program = t.program; declared = declarations_of t.declared }) };
}

impl Typed {
    ghost use Rattle.std.specs.Prelude.{◌≡◌};
    ghost use Rattle.fc_values.specs.Types.{declarations_of};
    ghost use Rattle.fc_types.specs.Typed.{IsTypedProgram};

    /// A typed program with what it declares.
    pub(crate) fn new(program: Program, declared: Declared) -> Self
        requires { IsTypedProgram (record { program = program; declared = declarations_of declared }) }
        ensures { result ≡ record { program = program; declared = declarations_of declared } }
    {
        Typed { program, declared }
    }

    /// The program.
    pub fn program(&self) -> &Program
        ensures value { result.now ≡ self.now.program }
        ensures typed { IsTypedProgram self.now }
    {
        &self.program
    }

    /// What the program declares.
    pub fn declared(&self) -> &Declared
        ensures value { declarations_of result.now ≡ self.now.declared }
        ensures typed { IsTypedProgram self.now }
    {
        &self.declared
    }
}
