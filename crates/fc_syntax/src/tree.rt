//! Programs as trees.

use fc_values::{Builtin, InputTy, Name, Ty};

/// An expression.
pub enum Expr {
    Int(u32),
    Truth(bool),
    Var(Name),
    Uid,
    NbrLink,
    Sense(Name),
    Apply(Builtin, Vec<Expr>),
    Nbr(Box<Expr>),
    Rep(Box<Expr>, Name, Box<Expr>),
    Share(Box<Expr>, Name, Box<Expr>),
    If(Box<Expr>, Box<Expr>, Box<Expr>),
    Let(Name, Box<Expr>, Box<Expr>),
    Call(Name, Vec<Expr>),
}

// Bodies of `let`, operands of `not` and left operands are freed in a loop, since no limit on brackets bounds their
// chains.
impl Drop for Expr {
    fn drop(mut self) {
        loop {
            match self {
                Expr::Apply(_, mut args) => {
                    if args.is_empty() {
                        return;
                    }
                    self = args.remove(0);
                }
                Expr::Let(_, _, body) => self = Box::into_inner(body),
                Expr::Int(_) | Expr::Truth(_) | Expr::Uid | Expr::NbrLink => return,
                Expr::Var(_) | Expr::Sense(_) | Expr::Nbr(_) | Expr::Call(_, _) => return,
                Expr::Rep(_, _, _) | Expr::Share(_, _, _) | Expr::If(_, _, _) => return,
            }
        }
    }
}

/// A parameter of a function.
#[derive(Drop)]
pub struct Param {
    pub name: Name,
    pub ty: Ty,
}

/// A declaration.
#[derive(Drop)]
pub enum Decl {
    Language(u32),
    Ceiling(u32),
    Input(Name, InputTy),
    Metric(u32, u32),
    Def {
        name: Name,
        params: Vec<Param>,
        result: Ty,
        body: Expr,
    },
    Main(Expr),
}

/// A program: its declarations, in order.
#[derive(Drop)]
pub struct Program {
    pub decls: Vec<Decl>,
}
