//! Laws of the definitions.

ghost use Rattle.fc_parser.specs.Laws.{AlwaysOne, DerivedIsPrintable, FewDeclarations, NeverBoth, OneFault, OneProgram};

/// Tokens derive one program or have one first fault, and not both.
pub fn one_meaning()
    ensures one_program { OneProgram }
    ensures one_fault { OneFault }
    ensures never_both { NeverBoth }
    ensures always_one { AlwaysOne }
{}

/// What the tokens of a text derive can be printed.
pub fn derived_is_printable()
    ensures { DerivedIsPrintable }
{}

/// A program has at most as many declarations as tokens.
pub fn few_declarations()
    ensures { FewDeclarations }
{}
