//! Calls of typed arguments, and the words of expressions that have to be constant: ISO 9899:1990 6.3.2.2 and 6.4.
ghost use Rattle.std.specs.Prelude.{◌≡◌};
ghost use Rattle.c_tree.specs.View.{expr_of};
ghost use Rattle.c_tree.specs.TypedTree as typed;
ghost use Rattle.c_syntax.specs.SyntaxView.{expression_of};
ghost use Rattle.c_rules.specs.Outcome.{Outcome};
ghost use Rattle.c_rules.specs.Answers.{Follows, Refuses};
ghost use Rattle.c_names.specs.Tables.{scope_of};
ghost use Rattle.c_rules.specs.Typing as rules;
ghost use Rattle.c_scopes.specs.ArgumentView.{arguments_of};

use crate::names::called;
use c_conversions::{Operand, constant};
use c_names::{Scopes, is_in};
use c_operands::{input, output, wrong_count};
use c_rules::{Class, Refusal, Rule};
use c_syntax::Expr;
use c_tree::TypedExpr;

/// What a call has once its arguments are typed.
#[derive(Drop)]
pub(crate) enum Arguments {
    /// Those of a function.
    Operands(Vec<Operand>),
    /// None, where a port is wanted.
    NoPort,
    /// The number of a port and the class of its type, and the operands behind it.
    Port {
        class: Class,
        port: u16,
        behind: Vec<Operand>,
    },
}

/// A call with these arguments.
pub(crate) fn call_of(
    scopes: &Scopes<'_>,
    name: &str,
    at: u32,
    arguments: Arguments,
) -> Result<TypedExpr, Refusal>
    ensures { Follows expr_of (rules.call_of (scope_of scopes.now) name.now at (arguments_of arguments)) result }
{
    match arguments {
        Arguments::Operands(operands) => called(scopes, name, at, operands),
        Arguments::NoPort => Err(wrong_count(at)),
        Arguments::Port {
            class,
            port,
            behind,
        } => {
            if is_in(name) {
                return input(at, class, port, &behind);
            }
            output(scopes.alloc, at, class, port, behind)
        }
    }
}

/// A call with these arguments, where it has to be constant.
pub(crate) fn constant_call_of(
    scopes: &Scopes<'_>,
    name: &str,
    at: u32,
    arguments: Arguments,
) -> Result<TypedExpr, Refusal>
    ensures { Follows expr_of (rules.no_constant (rules.call_of (scope_of scopes.now) name.now at (arguments_of arguments))) result }
{
    match call_of(scopes, name, at, arguments) {
        Ok(value) => Ok(value),
        Err(refusal) => Err(no_constant(refusal)),
    }
}

// What the refusal of a call becomes where it has to be constant: it isn't, whatever its port and the number of its arguments.
fn no_constant(refusal: Refusal) -> Refusal
    ensures { (o : Outcome typed.Expr) → Refuses o refusal → Refuses (rules.no_constant o) result }
{
    let Refusal::Broken { rule, at } = refusal else {
        return refusal;
    };
    if is_of_calls(rule) {
        return Refusal::Broken {
            rule: Rule::NotConstant,
            at,
        };
    }
    refusal
}

// The rules that calls alone break.
fn is_of_calls(rule: Rule) -> bool
    ensures { result ≡ rules.is_of_calls rule }
{
    match rule {
        Rule::BadPort | Rule::ArgCount => true,
        Rule::Undeclared
        | Rule::Redeclared
        | Rule::Mismatch
        | Rule::NotLvalue
        | Rule::NotConstant
        | Rule::LongConstant
        | Rule::Misplaced => false,
    }
}

/// The word of an expression that has to be constant, whose tree isn't wanted further.
pub(crate) fn word_of(e: &Expr, value: TypedExpr) -> Result<u16, Refusal>
    ensures { Follows (λ w. w) (rules.word_at (expression_of e.now) (expr_of value)) result }
{
    let word = word_at(e, &value);
    drop(value);
    word
}

/// The word of an expression that has to be constant, which is typed as this.
pub fn word_at(e: &Expr, x: &TypedExpr) -> Result<u16, Refusal>
    ensures { Follows (λ w. w) (rules.word_at (expression_of e.now) (expr_of x.now)) result }
{
    constant(e, x).ok_or(Refusal::Broken {
        rule: Rule::NotConstant,
        at: e.at,
    })
}
