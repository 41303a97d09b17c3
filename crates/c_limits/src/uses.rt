//! What the typed tree of a function uses beside its values: addresses and functions.
ghost use Rattle.std.specs.Prelude.{◌≡◌, ◌≤◌, ◌++◌, ◌∷◌, [], IfOk};
ghost use Rattle.c_tree.specs.View.{expr_of, lvalue_of, argument_list, option_expr_of, stmt_of, statement_list, choice_list, choice_before};
ghost use Rattle.c_tree.specs.TypedTree.{no_more};
ghost use Rattle.c_tree.specs.Uses as uses;

use c_tree::{Choice, ExprForm, Target, TargetForm, TypedExpr, TypedStmt, Use};
use std::alloc::Global;
use word_base::NoMemory;

/// The uses of a function, in order.
#[derive(Drop)]
pub(crate) struct Uses {
    pub(crate) list: Vec<Use>,
}

impl Uses {
    #[cycle(expressions)]
    fn expression(&mut self, e: &TypedExpr) -> Result<(), NoMemory>
        ensures { IfOk result (λ _. self.new.list.items ≡ self.old.list.items ++ uses.uses (expr_of e.now)) }
    {
        match &e.form {
            ExprForm::Const(_) | ExprForm::Read(_) | ExprForm::In { .. } => Ok(()),
            ExprForm::AddressOf(name) => self.add(Use::Address(*name)),
            ExprForm::Load(value)
            | ExprForm::Not(value)
            | ExprForm::Convert(value)
            | ExprForm::Unary { value, .. }
            | ExprForm::Out { value, .. } => self.expression(value),
            ExprForm::Binary { left, right, .. }
            | ExprForm::And { left, right }
            | ExprForm::Or { left, right }
            | ExprForm::Comma { left, right } => {
                self.expression(left)?;
                self.expression(right)
            }
            ExprForm::Pick { test, yes, no } => {
                self.expression(test)?;
                self.expression(yes)?;
                self.expression(no)
            }
            ExprForm::Assign { to, value } | ExprForm::AssignOp { to, value, .. } => {
                self.target(to)?;
                self.expression(value)
            }
            ExprForm::StepBefore { to, .. } | ExprForm::StepAfter { to, .. } => self.target(to),
            ExprForm::Call { function, args } => {
                self.expressions(args)?;
                self.add(Use::Call {
                    function: *function,
                    at: e.at,
                })
            }
        }
    }

    fn add(&mut self, found: Use) -> Result<(), NoMemory>
        ensures { IfOk result (λ _. self.new.list.items ≡ self.old.list.items ++ found ∷ []) }
    {
        self.list.push(found)?;
        Ok(())
    }

    #[cycle(expressions)]
    fn target(&mut self, to: &Target) -> Result<(), NoMemory>
        ensures { IfOk result (λ _. self.new.list.items ≡ self.old.list.items ++ uses.target_uses (lvalue_of to.now.form to.now.at)) }
    {
        match &to.form {
            TargetForm::Named(_) => Ok(()),
            TargetForm::At(pointer) => self.expression(pointer),
        }
    }

    #[cycle(expressions)]
    fn expressions(&mut self, list: &[TypedExpr]) -> Result<(), NoMemory>
        ensures { IfOk result (λ _. self.new.list.items ≡ self.old.list.items ++ uses.list_uses (argument_list list.now)) }
    {
        for e in list {
            self.expression(e)?;
        }
        Ok(())
    }

    fn optional(&mut self, e: &Option<TypedExpr>) -> Result<(), NoMemory>
        ensures { IfOk result (λ _. self.new.list.items ≡ self.old.list.items ++ uses.optional_uses (option_expr_of e.now)) }
    {
        match e {
            Some(e) => self.expression(e),
            None => Ok(()),
        }
    }

    #[cycle(statements)]
    fn statement(&mut self, s: &TypedStmt) -> Result<(), NoMemory>
        ensures { IfOk result (λ _. self.new.list.items ≡ self.old.list.items ++ uses.statement_uses (stmt_of s.now)) }
    {
        match s {
            TypedStmt::Fill(_) | TypedStmt::Break | TypedStmt::Continue => Ok(()),
            TypedStmt::Expr(e) => self.expression(e),
            TypedStmt::Return(value) => self.optional(value),
            TypedStmt::Block { body, .. } => self.statements(body),
            TypedStmt::If { test, yes, no } => {
                self.expression(test)?;
                self.statement(yes)?;
                self.statement(no)
            }
            TypedStmt::While { test, body } => {
                self.expression(test)?;
                self.statement(body)
            }
            TypedStmt::Do { body, test } => {
                self.statement(body)?;
                self.expression(test)
            }
            TypedStmt::For {
                first,
                test,
                third,
                body,
            } => {
                self.optional(first)?;
                self.optional(test)?;
                self.optional(third)?;
                self.statement(body)
            }
            TypedStmt::Switch { value, choices } => {
                self.expression(value)?;
                self.add(Use::Cases(case_count(choices)))?;
                self.choices(choices)
            }
        }
    }

    #[cycle(statements)]
    fn statements(&mut self, list: &[TypedStmt]) -> Result<(), NoMemory>
        ensures { IfOk result (λ _. self.new.list.items ≡ self.old.list.items ++ uses.statements_uses (statement_list list.now)) }
    {
        for s in list {
            self.statement(s)?;
        }
        Ok(())
    }

    #[cycle(statements)]
    fn choices(&mut self, list: &[Choice]) -> Result<(), NoMemory>
        ensures { IfOk result (λ _. self.new.list.items ≡ self.old.list.items ++ uses.choices_uses (choice_list list.now)) }
    {
        for choice in list {
            self.choice(choice)?;
        }
        Ok(())
    }

    #[cycle(statements)]
    fn choice(&mut self, choice: &Choice) -> Result<(), NoMemory>
        ensures { IfOk result (λ _. self.new.list.items ≡ self.old.list.items ++ uses.choices_uses (choice_before choice.now no_more)) }
    {
        match choice {
            Choice::Case(_) | Choice::Default => Ok(()),
            Choice::Body(s) => self.statement(s),
        }
    }
}

// How many cases there are among the choices of a switch.
fn case_count(list: &[Choice]) -> usize
    ensures { result ≡ uses.case_count (choice_list list.now) }
{
    let mut count: usize = 0;
    for choice in list {
        count += cases_in(choice);
    }
    count
}

fn cases_in(choice: &Choice) -> usize
    ensures count { result ≡ uses.case_count (choice_before choice.now no_more) }
    ensures one { result ≤ 1 }
{
    match choice {
        Choice::Case(_) => 1,
        Choice::Default | Choice::Body(_) => 0,
    }
}

/// The uses of a statement.
pub(crate) fn uses_of(alloc: Global, s: &TypedStmt) -> Result<Vec<Use>, NoMemory>
    ensures { IfOk result (λ found. found.items ≡ uses.statement_uses (stmt_of s.now)) }
{
    let mut found = Uses {
        list: Vec::new(alloc),
    };
    found.statement(s)?;
    Ok(found.list)
}
