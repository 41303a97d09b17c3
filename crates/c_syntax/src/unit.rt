//! Whole sources, as the grammar has them (docs/LANGUAGE.md, "Grammar").
ghost use Rattle.std.specs.Prelude.{◌≡◌};
ghost use Rattle.c_syntax.specs.SyntaxView.{unit_of};
ghost use Rattle.c_syntax.specs.Units.{IsUnit};

use crate::decl::{Decl, Params};
use crate::expr::Specs;
use crate::stmt::Stmt;
use std::marker::Model;
use word_base::{Items, Text};

/// A function with its body.
#[derive(Drop)]
pub struct FunctionDef {
    pub specs: Specs,
    pub stars: u32,
    pub name: Text,
    pub params: Params,
    pub declarations: Items<Decl>,
    pub statements: Items<Stmt>,
    /// The place of the opening brace of the body, in bytes.
    pub body_at: u32,
    /// The place of the function, in bytes.
    pub at: u32,
}

/// What a source consists of.
#[derive(Drop)]
pub enum External {
    Function(FunctionDef),
    Declaration(Decl),
}

/// The tree of a whole source, a list of externals. It is at most 200 high, and has at most 400,000 expressions, statements
/// and declared items, and at most 200,000 externals, parameters and stars each. Its functions have names as tokens have them, its
/// braces hold values, and its character constants are words. Contracts see the externals, whose tree is `unit_of`.
#[derive(Drop)]
pub struct Unit {
    externals: Vec<External>,
}

impl Model for Unit {
    ghost use Rattle.std.specs.Prelude.{List};
    ghost use Rattle.c_syntax.specs.declared.unit.External.{External};
    ghost use Rattle.c_syntax.specs.SyntaxView.{unit_of};
    ghost use Rattle.c_syntax.specs.Units.{IsUnit};
    ghost use Rattle.c_syntax.specs.contracts.expr.ExprKind as expression;
    ghost use Rattle.c_syntax.specs.contracts.stmt.StmtKind as statement;
    ghost use Rattle.std.specs.Coded.{codes};

    ghost Value = { List External };

    ghost coded = { Prim.hlevel (codes, expression.the_row.coded, statement.the_row.coded) };

    ghost view = { λ u. u.externals.items };

    ghost invariant = { λ u. IsUnit (unit_of u.externals.items) };
}

impl Unit {
    /// The tree of these externals. It takes no memory.
    pub fn new(externals: Vec<External>) -> Self
        requires { IsUnit (unit_of externals.items) }
        ensures { result ≡ externals.items }
    {
        Unit { externals }
    }

    /// The externals, in their order.
    pub fn externals(&self) -> &[External]
        ensures externals { result.now ≡ self.now }
        ensures unit { IsUnit (unit_of self.now) }
    {
        &self.externals
    }
}
