//! What the body of a function asks for: the functions that it calls, and whether it uses a routine.
ghost use Rattle.std.specs.Prelude.{◌≡◌, ◌++◌, ◌∷◌, [], ◌||◌, ℕ, IfOk};
ghost use Rattle.c_tree.specs.Uses.{called};
ghost use Rattle.tree_code.specs.WordHelpers as routines;
ghost use Rattle.tree_code.specs.WordHelpers.{needs_routine, uses_helper};
ghost use Rattle.tree_code.specs.WordTemporaries.{is_constant_word};
ghost use Rattle.tree_code.specs.WordTree.{no_more};
ghost use Rattle.tree_code.specs.WordUses as uses;
ghost use Rattle.tree_code.specs.WordView.{word_expr_of, word_lvalue_of, word_argument_list, optional_word_of, word_stmt_of, word_statement_list, word_choice_list, word_choice_before};

use std::alloc::Global;
use tree_code::{
    WordChoice, WordExpr, WordForm, WordOp, WordStmt, WordTarget, WordTargetForm, is_constant,
};
use word_base::NoMemory;

/// What a body asks for.
#[derive(Drop)]
pub(crate) struct Body {
    /// The functions that are called, in order.
    pub(crate) calls: Vec<u16>,
    /// Whether a routine is used.
    pub(crate) routine: bool,
}

/// What a statement asks for.
pub(crate) fn body_of(alloc: Global, s: &WordStmt) -> Result<Body, NoMemory>
    ensures calls { IfOk result (λ b. b.calls.items ≡ called (uses.word_statement_uses (word_stmt_of s.now))) }
    ensures routine { IfOk result (λ b. b.routine ≡ uses_helper (word_stmt_of s.now)) }
{
    let mut body = Body {
        calls: Vec::new(alloc),
        routine: false,
    };
    body.statement(s)?;
    Ok(body)
}

// Whether an operation is done by a routine, with a right operand that is a constant or isn't.
fn done_by_routine(op: WordOp, constant: bool) -> bool
    ensures { result ≡ routines.done_by_routine op constant }
{
    match op {
        WordOp::DivInt | WordOp::DivUnsigned | WordOp::RemInt | WordOp::RemUnsigned => true,
        WordOp::ShrInt | WordOp::ShrUnsigned => !constant,
        WordOp::Add
        | WordOp::Sub
        | WordOp::Mul
        | WordOp::And
        | WordOp::Or
        | WordOp::Xor
        | WordOp::Shl
        | WordOp::Eq
        | WordOp::Ne
        | WordOp::LtInt
        | WordOp::LtUnsigned
        | WordOp::GtInt
        | WordOp::GtUnsigned
        | WordOp::LeInt
        | WordOp::LeUnsigned
        | WordOp::GeInt
        | WordOp::GeUnsigned => false,
    }
}

impl Body {
    #[cycle(expressions)]
    fn expression(&mut self, e: &WordExpr) -> Result<(), NoMemory>
        ensures calls { IfOk result (λ _. self.new.calls.items ≡ self.old.calls.items ++ called (uses.word_uses (word_expr_of e.now))) }
        ensures routine { IfOk result (λ _. self.new.routine ≡ (self.old.routine || routines.some_form needs_routine (word_expr_of e.now))) }
    {
        match &e.form {
            WordForm::Const(_) | WordForm::Read(_) | WordForm::AddressOf(_) | WordForm::In { .. } =>
                Ok(()),
            WordForm::Load(value)
            | WordForm::Not(value)
            | WordForm::Unary { value, .. }
            | WordForm::Out { value, .. } => self.expression(value),
            WordForm::And { left, right }
            | WordForm::Or { left, right }
            | WordForm::Comma { left, right } => {
                self.expression(left)?;
                self.expression(right)
            }
            WordForm::Binary { op, left, right } => {
                self.operation(*op, right);
                self.expression(left)?;
                self.expression(right)
            }
            WordForm::Pick { test, yes, no } => {
                self.expression(test)?;
                self.expression(yes)?;
                self.expression(no)
            }
            WordForm::Assign { to, value } => {
                self.target(to)?;
                self.expression(value)
            }
            WordForm::AssignOp { op, to, value } => {
                self.operation(*op, value);
                self.target(to)?;
                self.expression(value)
            }
            WordForm::StepBefore { to, .. } | WordForm::StepAfter { to, .. } => self.target(to),
            WordForm::Call { function, args } => {
                self.expressions(args)?;
                self.call(*function)
            }
        }
    }

    // An operation with this right operand.
    fn operation(&mut self, op: WordOp, right: &WordExpr)
        ensures calls { self.new.calls.items ≡ self.old.calls.items }
        ensures routine { self.new.routine ≡ (self.old.routine || routines.done_by_routine op (is_constant_word (word_expr_of right.now))) }
    {
        if done_by_routine(op, is_constant(right)) {
            self.routine = true;
        }
    }

    fn call(&mut self, function: u16) -> Result<(), NoMemory>
        ensures calls { IfOk result (λ _. self.new.calls.items ≡ self.old.calls.items ++ function ∷ []) }
        ensures routine { IfOk result (λ _. self.new.routine ≡ self.old.routine) }
    {
        self.calls.push(function)?;
        Ok(())
    }

    #[cycle(expressions)]
    fn target(&mut self, to: &WordTarget) -> Result<(), NoMemory>
        ensures calls { IfOk result (λ _. self.new.calls.items ≡ self.old.calls.items ++ called (uses.word_target_uses (word_lvalue_of to.now.form to.now.at))) }
        ensures routine { IfOk result (λ _. self.new.routine ≡ (self.old.routine || routines.some_target_form needs_routine (word_lvalue_of to.now.form to.now.at))) }
    {
        match &to.form {
            WordTargetForm::Named(_) => Ok(()),
            WordTargetForm::At(pointer) => self.expression(pointer),
        }
    }

    #[cycle(expressions)]
    fn expressions(&mut self, list: &[WordExpr]) -> Result<(), NoMemory>
        ensures calls { IfOk result (λ _. self.new.calls.items ≡ self.old.calls.items ++ called (uses.word_list_uses (word_argument_list list.now))) }
        ensures routine { IfOk result (λ _. self.new.routine ≡ (self.old.routine || routines.some_argument_form needs_routine (word_argument_list list.now))) }
    {
        for e in list {
            self.expression(e)?;
        }
        Ok(())
    }

    fn optional(&mut self, e: &Option<WordExpr>) -> Result<(), NoMemory>
        ensures calls { IfOk result (λ _. self.new.calls.items ≡ self.old.calls.items ++ called (uses.optional_word_uses (optional_word_of e.now))) }
        ensures routine { IfOk result (λ _. self.new.routine ≡ (self.old.routine || routines.some_optional_form needs_routine (optional_word_of e.now))) }
    {
        match e {
            Some(e) => self.expression(e),
            None => Ok(()),
        }
    }

    #[cycle(statements)]
    fn statement(&mut self, s: &WordStmt) -> Result<(), NoMemory>
        ensures calls { IfOk result (λ _. self.new.calls.items ≡ self.old.calls.items ++ called (uses.word_statement_uses (word_stmt_of s.now))) }
        ensures routine { IfOk result (λ _. self.new.routine ≡ (self.old.routine || routines.some_statement_form needs_routine (word_stmt_of s.now))) }
    {
        match s {
            WordStmt::Fill(_) | WordStmt::Break | WordStmt::Continue => Ok(()),
            WordStmt::Expr(e) => self.expression(e),
            WordStmt::Return(value) => self.optional(value),
            WordStmt::Block { body, .. } => self.statements(body),
            WordStmt::If { test, yes, no } => {
                self.expression(test)?;
                self.statement(yes)?;
                self.statement(no)
            }
            WordStmt::While { test, body } => {
                self.expression(test)?;
                self.statement(body)
            }
            WordStmt::Do { body, test } => {
                self.statement(body)?;
                self.expression(test)
            }
            WordStmt::For {
                first,
                test,
                third,
                body,
            } => {
                self.optional(first)?;
                self.optional(test)?;
                self.optional(third)?;
                self.statement(body)
            }
            WordStmt::Switch { value, choices } => {
                self.expression(value)?;
                self.choices(choices)
            }
        }
    }

    #[cycle(statements)]
    fn statements(&mut self, list: &[WordStmt]) -> Result<(), NoMemory>
        ensures calls { IfOk result (λ _. self.new.calls.items ≡ self.old.calls.items ++ called (uses.word_statements_uses (word_statement_list list.now))) }
        ensures routine { IfOk result (λ _. self.new.routine ≡ (self.old.routine || routines.some_list_form needs_routine (word_statement_list list.now))) }
    {
        for s in list {
            self.statement(s)?;
        }
        Ok(())
    }

    #[cycle(statements)]
    fn choices(&mut self, list: &[WordChoice]) -> Result<(), NoMemory>
        ensures calls { IfOk result (λ _. self.new.calls.items ≡ self.old.calls.items ++ called (uses.word_choices_uses (word_choice_list list.now))) }
        ensures routine { IfOk result (λ _. self.new.routine ≡ (self.old.routine || routines.some_choice_form needs_routine (word_choice_list list.now))) }
    {
        for choice in list {
            self.choice(choice)?;
        }
        Ok(())
    }

    #[cycle(statements)]
    fn choice(&mut self, choice: &WordChoice) -> Result<(), NoMemory>
        ensures calls { IfOk result (λ _. self.new.calls.items ≡ self.old.calls.items ++ called (uses.word_choices_uses (word_choice_before choice.now no_more))) }
        ensures routine { IfOk result (λ _. self.new.routine ≡ (self.old.routine || routines.some_choice_form needs_routine (word_choice_before choice.now no_more))) }
    {
        match choice {
            WordChoice::Case(_) | WordChoice::Default => Ok(()),
            WordChoice::Body(s) => self.statement(s),
        }
    }
}
