//! The arguments of calls and of ports: ISO 9899:1990 6.3.2.2.
ghost use Rattle.std.specs.Prelude.{◌≡◌, Some, true, false, nat_lt, IfOk, IfErr, IfSome, IfNone, None, map, [], ◌∷◌, length, ◌≢◌};
ghost use Rattle.c_tree.specs.View.{expr_of, argument_list};
ghost use Rattle.std.specs.List.{list_any};
ghost use Rattle.c_tree.specs.TypedTree.{Node, In, Out};
ghost use Rattle.c_rules.specs.Kinds.{is_void, int};
ghost use Rattle.c_rules.specs.Outcome.{Is};
ghost use Rattle.c_rules.specs.Answers.{Follows};
ghost use Rattle.c_rules.specs.Operands as rules;
ghost use Rattle.c_conversions.specs.OperandView.{operand_of};
ghost use Rattle.c_rules.specs.declared.fault.Refusal.TheVariants as refusals;
ghost use Rattle.c_rules.specs.declared.fault.Rule.TheVariants as rule;

use c_conversions::{INT, Operand, class_of, given, in_box};
use c_rules::{Class, Refusal, Rule, mismatch};
use c_tree::{ExprForm, Port, ScalarType, TypedExpr};
use std::alloc::Global;

/// Another number of arguments than a call takes.
pub fn wrong_count(at: u32) -> Refusal
    ensures { result ≡ refusals.Broken rule.ArgCount at }
{
    Refusal::Broken {
        rule: Rule::ArgCount,
        at,
    }
}

fn any_void(xs: &[Operand]) -> bool
    ensures { result ≡ list_any (λ x. is_void x.value.kind) xs.now }
{
    xs.iter().any(|x| x.value.kind.is_none())
}

/// `__in` of a port, with the operands behind the port.
#[tactic(auto, using(crate::proofs::OperandLists::any_void_of))]
pub fn input(at: u32, class: Class, port: u16, xs: &[Operand]) -> Result<TypedExpr, Refusal>
    ensures { Follows expr_of (rules.input at class port (map operand_of xs.now)) result }
{
    if class != Class::Integer || any_void(xs) {
        return Err(mismatch(at));
    }
    let port = port_number(at, port)?;
    received(at, port, xs)
}

// The word of a port, with nothing behind the port.
fn received(at: u32, port: Port, xs: &[Operand]) -> Result<TypedExpr, Refusal>
    ensures { Follows expr_of (rules.no_more at (map operand_of xs.now) (Is (Node (In port) (Some int) at))) result }
{
    if !xs.is_empty() {
        return Err(wrong_count(at));
    }
    Ok(TypedExpr {
        form: ExprForm::In { port },
        kind: Some(INT),
        at,
    })
}

/// `__out` of a port and of a word, with the operands behind the port.
#[tactic(auto, using(crate::proofs::OperandLists::any_void_of))]
pub fn output(
    alloc: Global,
    at: u32,
    class: Class,
    port: u16,
    xs: Vec<Operand>,
) -> Result<TypedExpr, Refusal>
    ensures { Follows expr_of (rules.output at class port (map operand_of xs.items)) result }
{
    if class != Class::Integer || !is_word_first(&xs) || any_void(&xs) {
        return Err(mismatch(at));
    }
    let port = port_number(at, port)?;
    sent(alloc, at, port, xs)
}

fn is_word_first(xs: &[Operand]) -> bool
    ensures { result ≡ rules.is_word_first (map operand_of xs.now) }
{
    match xs {
        [first, ..] => class_of(first.value.kind) == Class::Integer,
        [] => true,
    }
}

// The port of a number, of which there are 16.
fn port_number(at: u32, port: u16) -> Result<Port, Refusal>
    ensures number { IfOk result (λ p. p ≡ port) }
    ensures low { IfOk result (λ _. nat_lt 15 port ≡ false) }
    ensures high { IfErr result (λ _. nat_lt 15 port ≡ true) }
    ensures refused { IfErr result (λ f. f ≡ refusals.Broken rule.BadPort at) }
{
    if port > 15 {
        return Err(Refusal::Broken {
            rule: Rule::BadPort,
            at,
        });
    }
    Ok(Port::new(port as u8))
}

// The one word that goes to a port.
fn sent(alloc: Global, at: u32, port: Port, xs: Vec<Operand>) -> Result<TypedExpr, Refusal>
    ensures { Follows expr_of (rules.sent at port (map operand_of xs.items)) result }
{
    match only(xs) {
        Some(word) => sent_word(alloc, at, port, word),
        None => Err(wrong_count(at)),
    }
}

// The one operand that there is.
fn only(mut xs: Vec<Operand>) -> Option<Operand>
    ensures one { IfSome result (λ x. xs.items ≡ x ∷ []) }
    ensures other { IfNone result (length xs.items ≢ 1) }
{
    if xs.len() == 1 { xs.pop() } else { None }
}

fn sent_word(alloc: Global, at: u32, port: Port, word: Operand) -> Result<TypedExpr, Refusal>
    ensures typed { IfOk result (λ e. expr_of e ≡ Node (Out port (expr_of word.value)) None at) }
    ensures memory { IfErr result (λ f. f ≡ refusals.NoMemory) }
{
    let value = in_box(alloc, word.value)?;
    Ok(TypedExpr {
        form: ExprForm::Out { port, value },
        kind: None,
        at,
    })
}

/// What a call passes: each operand as one of the type of its parameter.
#[tactic(auto, using(crate::proofs::OperandLists::any_void_of))]
pub fn passed(
    alloc: Global,
    kinds: &[ScalarType],
    at: u32,
    xs: Vec<Operand>,
) -> Result<Vec<TypedExpr>, Refusal>
    ensures { Follows (λ values. argument_list values.items) (rules.passed kinds.now at (map operand_of xs.items)) result }
{
    let void = any_void(&xs);
    let mut values = Vec::with_capacity(alloc, kinds.len())?;
    let mut operands = xs.into_iter();
    for kind in kinds {
        let Some(x) = operands.next() else {
            return Err(wrong_count(at));
        };
        values.push(given(alloc, *kind, at, x)?)?;
    }
    // None of those that are passed is void.
    none_left(at, operands.len(), void)?;
    Ok(values)
}

// No operand is left over.
fn none_left(at: u32, left: usize, void: bool) -> Result<(), Refusal>
    ensures none { IfOk result (λ _. left ≡ 0) }
    ensures some { IfErr result (λ _. left ≢ 0) }
    ensures void { IfErr result (λ f. void ≡ true → f ≡ refusals.Broken rule.Mismatch at) }
    ensures count { IfErr result (λ f. void ≡ false → f ≡ refusals.Broken rule.ArgCount at) }
{
    if left == 0 {
        return Ok(());
    }
    if void {
        return Err(mismatch(at));
    }
    Err(wrong_count(at))
}
