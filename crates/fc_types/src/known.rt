//! What the earlier declarations have declared.

ghost use Rattle.std.specs.Prelude.{◌≡◌, IfOk, None, map};
ghost use Rattle.std.specs.Option.{option_map};
ghost use Rattle.fc_syntax.specs.Terms.{declaration_of};
ghost use Rattle.fc_values.specs.Types.{declarations_of, type_of};
ghost use Rattle.fc_types.specs.Before.{with_declaration, declared_before, function_named, input_named, nothing_declared, type_in};
ghost use Rattle.fc_types.specs.Typing.{IsTypedDeclaration};
ghost use Rattle.fc_types.specs.Views.{function_of, known_of};

use fc_syntax::{Decl, Expr, Param};
use fc_values::{Declared, InputDecl, InputTy, Memory, Name, Ty};
use indexmap::IndexMap;
use std::alloc::Global;

/// A defined function.
#[derive(Clone, Copy)]
pub struct Function<'a> {
    pub params: &'a [Param],
    pub result: &'a Ty,
    pub body: &'a Expr,
}

/// What the earlier declarations have declared: inputs and functions are numbered in the order of their declarations.
#[derive(Drop)]
pub struct Known<'a> {
    pub ceiling: u32,
    pub inputs: IndexMap<&'a [u8], InputTy>,
    pub metric: Option<(u32, u32)>,
    pub functions: IndexMap<&'a [u8], Function<'a>>,
}

impl<'a> Known<'a> {
    /// Before the first declaration.
    pub fn new(alloc: Global) -> Self
        ensures { known_of result ≡ nothing_declared }
    {
        Known {
            ceiling: 0,
            inputs: IndexMap::new(alloc),
            metric: None,
            functions: IndexMap::new(alloc),
        }
    }

    /// The type of an input.
    pub fn input(&self, name: &[u8]) -> Option<InputTy>
        ensures { result ≡ option_map (λ i. i.type) (input_named name.now (known_of self.now).inputs) }
    {
        self.inputs.get(&name).copied()
    }

    /// The function of a name.
    pub fn function(&self, name: &[u8]) -> Option<Function<'a>>
        ensures { option_map (λ f. function_of name.now f) result
            ≡ function_named name.now (known_of self.now).functions }
    {
        self.functions.get(&name).copied()
    }

    /// Adds a declaration.
    pub fn declare(&mut self, decl: &'a Decl) -> Result<(), Memory>
        requires { IsTypedDeclaration (known_of self.old) (declaration_of decl.now) }
        ensures { IfOk result (λ _.
            known_of self.new ≡ with_declaration (known_of self.old) (declaration_of decl.now)) }
    {
        match decl {
            Decl::Language(_) => {}
            Decl::Ceiling(n) => self.ceiling = *n,
            Decl::Input(name, ty) => {
                self.inputs.insert(&name.text, *ty)?;
            }
            Decl::Metric(least, greatest) => self.metric = Some((*least, *greatest)),
            Decl::Def {
                name,
                params,
                result,
                body,
            } => {
                let function = Function {
                    params,
                    result,
                    body,
                };
                self.functions.insert(&name.text, function)?;
            }
            Decl::Main(_) => {}
        }
        Ok(())
    }

    /// What is declared.
    pub fn declared(&self, alloc: Global) -> Result<Declared, Memory>
        ensures { IfOk result (λ d. declarations_of d ≡ declared_before (known_of self.now)) }
    {
        let mut inputs = Vec::with_capacity(alloc, self.inputs.len())?;
        for (name, ty) in &self.inputs {
            let name = Name {
                text: name.to_vec(alloc)?,
            };
            inputs.push(InputDecl { name, ty: *ty })?;
        }
        Ok(Declared {
            ceiling: self.ceiling,
            inputs,
            metric: self.metric.unwrap_or((1, 1)),
        })
    }
}
