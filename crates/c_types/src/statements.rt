//! The typed trees of statements: ISO 9899:1990 6.6.
ghost use Rattle.std.specs.Prelude.{◌≡◌, ◌∷◌, true, false, IfOk, IfErr, OnOk, OnErr, map, Some, None, []};
ghost use Rattle.c_tree.specs.Eval.{kind_of};
ghost use Rattle.c_syntax.specs.SyntaxTree as tree;
ghost use Rattle.c_syntax.specs.SyntaxView.{body_of, declaration_of, expression_of, optional_of, part_before, statement_of};
ghost use Rattle.c_tree.specs.Labels.{may_break, may_continue};
ghost use Rattle.c_tree.specs.TypedTree.{Block, Break, Continue, If, While, done};
ghost use Rattle.c_tree.specs.View.{expr_of, option_expr_of, statement_list, stmt_of};
ghost use Rattle.c_rules.specs.declared.fault.Refusal.TheVariants as refusals;
ghost use Rattle.c_rules.specs.declared.fault.Rule.TheVariants as rule;
ghost use Rattle.c_tree.specs.declared.enclosing.Enclosing.TheVariants as enclosings;
ghost use Rattle.c_rules.specs.Answers.{Follows, Refuses};
ghost use Rattle.c_types.specs.Bodies.{behind, behind_choices, block_in, choices_in, else_in, for_in, labelled_of, parts_of, statement_in, statements_in, test_in, tested_in};
ghost use Rattle.c_rules.specs.Kinds.{is_void};
ghost use Rattle.c_rules.specs.Typing.{constant_typing, typing};
ghost use Rattle.c_rules.specs.Statements as rules;
ghost use Rattle.c_rules.specs.Statements.{just};
ghost use Rattle.c_scopes.specs.Tables.{scope_of};
ghost use Rattle.c_conversions.specs.OperandView.{operand_of};
ghost use Rattle.c_types.specs.BodyView.{context_around, context_of, locals_of, typed_in};

use crate::blocks::{Body, Opening};
use crate::labels::{Labelled, switched};
use c_conversions::{Operand, given};
use c_objects::{add, boxed};
use c_rules::{Refusal, Rule, mismatch};
use c_scopes::{constant_tree, expression, operand, word_at};
use c_syntax::{Decl, Expr, Stmt, StmtKind, SwitchPart};
use c_tree::{Choice, Enclosing, ScalarType, TypedExpr, TypedStmt, points};
use std::alloc::Global;

/// What stands once between the braces of a switch.
#[derive(Drop)]
struct LabelOrBody {
    choice: Choice,
    /// Whether it's a label that is a pointer.
    pointer: bool,
}

/// What stands between the parentheses of a `for`.
#[derive(Drop)]
struct ForHead {
    first: Box<Option<TypedExpr>>,
    test: Box<Option<TypedExpr>>,
    third: Box<Option<TypedExpr>>,
}

impl<'a> Body<'a> {
    /// The typed tree of a statement.
    #[cycle(statements)]
    pub(crate) fn statement(
        &mut self,
        s: &'a Stmt,
        enclosing: Enclosing,
    ) -> Result<TypedStmt, Refusal>
        ensures follows { Follows (λ t. typed_in self.new (stmt_of t)) (statement_in self.old enclosing (statement_of s.now.kind s.now.at)) result }
        ensures kept { OnOk result (context_of self.new ≡ context_of self.old) }
    {
        let at = s.at;
        match &s.kind {
            StmtKind::Empty => Ok(empty(self.scopes.alloc)),
            StmtKind::Evaluate(e) => Ok(TypedStmt::Expr(expression(&self.scopes, e)?)),
            StmtKind::Block {
                declarations,
                statements,
            } => self.block(declarations, statements, enclosing, at),
            StmtKind::Break => break_from(enclosing, at),
            StmtKind::Continue => continue_from(enclosing, at),
            StmtKind::Return(None) => self.empty_return(at),
            StmtKind::Return(Some(value)) => self.value_return(value, at),
            StmtKind::If { test, yes } => self.choice(test, yes, enclosing, at),
            StmtKind::IfElse { test, yes, no } => self.either(test, yes, no, enclosing, at),
            StmtKind::While { test, body } => self.while_loop(test, body, at),
            StmtKind::Do { body, test } => self.do_loop(body, test, at),
            StmtKind::For {
                first,
                test,
                third,
                body,
            } => self.for_loop(first, test, third, body, at),
            StmtKind::Switch {
                value,
                parts,
                parts_at,
            } => self.switch(parts, value, *parts_at, enclosing, at),
        }
    }

    // A statement within another. It is kept in its box while the rest of the other is typed.
    #[cycle(statements)]
    fn inner(&mut self, s: &'a Stmt, enclosing: Enclosing) -> Result<Box<TypedStmt>, Refusal>
        ensures follows { Follows (λ t. typed_in self.new (stmt_of t.value)) (statement_in self.old enclosing (statement_of s.now.kind s.now.at)) result }
        ensures kept { OnOk result (context_of self.new ≡ context_of self.old) }
    {
        let typed = self.statement(s, enclosing)?;
        boxed(self.scopes.alloc, typed)
    }

    // A block, in a scope of its own: 6.6.2.
    #[cycle(statements)]
    fn block(
        &mut self,
        declarations: &'a [Decl],
        statements: &'a [Stmt],
        enclosing: Enclosing,
        at: u32,
    ) -> Result<TypedStmt, Refusal>
        ensures follows { Follows (λ t. typed_in self.new (stmt_of t)) (statement_in self.old enclosing (tree.Block (map declaration_of declarations.now) (body_of statements.now) at)) result }
        ensures kept { OnOk result (context_of self.new ≡ context_of self.old) }
    {
        self.scopes.open()?;
        let block = self.block_here(declarations, statements, enclosing)?;
        self.scopes.close();
        Ok(block)
    }

    /// The body of a function, in the scope of its parameters.
    pub(crate) fn body(
        &mut self,
        declarations: &'a [Decl],
        statements: &'a [Stmt],
    ) -> Result<Box<TypedStmt>, Refusal>
        ensures follows { Follows (λ t. typed_in self.new (stmt_of t.value)) (rules.typed_body self.old.result (scope_of self.old.scopes) (locals_of self.old) (map declaration_of declarations.now) (body_of statements.now)) result }
        ensures kept { OnOk result (context_around self.new ≡ context_around self.old) }
    {
        let block = self.block_here(declarations, statements, Enclosing::Body)?;
        boxed(self.scopes.alloc, block)
    }

    // A block in the scope that is open.
    #[cycle(statements)]
    fn block_here(
        &mut self,
        declarations: &'a [Decl],
        statements: &'a [Stmt],
        enclosing: Enclosing,
    ) -> Result<TypedStmt, Refusal>
        ensures follows { Follows (λ t. typed_in self.new (stmt_of t)) (block_in self.old enclosing (map declaration_of declarations.now) (body_of statements.now)) result }
        ensures kept { OnOk result (context_around self.new ≡ context_around self.old) }
    {
        let alloc = self.scopes.alloc;
        let mut opening = Opening {
            declared: Vec::new(alloc),
            statements: Vec::new(alloc),
        };
        self.declarations(&mut opening, declarations)?;
        self.statements(statements, enclosing, &mut opening.statements)?;
        Ok(TypedStmt::Block {
            declared: opening.declared,
            body: opening.statements,
        })
    }

    // Statements, which are put behind those that are there.
    #[cycle(statements)]
    fn statements(
        &mut self,
        list: &'a [Stmt],
        enclosing: Enclosing,
        into: &mut Vec<TypedStmt>,
    ) -> Result<(), Refusal>
        ensures typed { OnOk result (behind into.old.items (statements_in self.old enclosing (body_of list.now)) ≡ just (statement_list into.new.items) (locals_of self.new)) }
        ensures refused { IfErr result (Refuses (statements_in self.old enclosing (body_of list.now))) }
        ensures kept { OnOk result (context_of self.new ≡ context_of self.old) }
    {
        for s in list {
            add(into, self.statement(s, enclosing)?)?;
        }
        Ok(())
    }

    // A return without a value: 6.6.6.4.
    fn empty_return(&self, at: u32) -> Result<TypedStmt, Refusal>
        ensures { Follows (λ t. typed_in self.now (stmt_of t)) (statement_in self.now enclosings.Body (tree.Return None at)) result }
    {
        match self.result {
            None => Ok(TypedStmt::Return(None)),
            Some(_) => Err(mismatch(at)),
        }
    }

    // A return with a value.
    fn value_return(&self, value: &Expr, at: u32) -> Result<TypedStmt, Refusal>
        ensures { Follows (λ t. typed_in self.now (stmt_of t)) (statement_in self.now enclosings.Body (tree.Return (Some (expression_of value.now)) at)) result }
    {
        let value = operand(&self.scopes, value)?;
        let value = returned(self.scopes.alloc, self.result, at, value)?;
        Ok(TypedStmt::Return(Some(value)))
    }

    // An if without an else: 6.6.4.1.
    #[cycle(statements)]
    fn choice(
        &mut self,
        test: &Expr,
        yes: &'a Stmt,
        enclosing: Enclosing,
        at: u32,
    ) -> Result<TypedStmt, Refusal>
        ensures follows { Follows (λ t. typed_in self.new (stmt_of t)) (statement_in self.old enclosing (tree.If (expression_of test.now) (statement_of yes.now.kind yes.now.at) at)) result }
        ensures kept { OnOk result (context_of self.new ≡ context_of self.old) }
    {
        let test = self.tested(test)?;
        let yes = self.inner(yes, enclosing)?;
        self.one_armed(test, yes, at)
    }

    // An if over its test and its only arm.
    fn one_armed(
        &self,
        test: Box<TypedExpr>,
        yes: Box<TypedStmt>,
        at: u32,
    ) -> Result<TypedStmt, Refusal>
        ensures { Follows (λ t. typed_in self.now (stmt_of t)) (tested_in self.now at (expr_of test.value) (If (expr_of test.value) (stmt_of yes.value) (Block [] done))) result }
    {
        let alloc = self.scopes.alloc;
        let no = boxed(alloc, empty(alloc))?;
        self.two_armed(test, yes, no, at)
    }

    // An if with an else.
    #[cycle(statements)]
    fn either(
        &mut self,
        test: &Expr,
        yes: &'a Stmt,
        no: &'a Stmt,
        enclosing: Enclosing,
        at: u32,
    ) -> Result<TypedStmt, Refusal>
        ensures follows { Follows (λ t. typed_in self.new (stmt_of t)) (statement_in self.old enclosing (tree.IfElse (expression_of test.now) (statement_of yes.now.kind yes.now.at) (statement_of no.now.kind no.now.at) at)) result }
        ensures kept { OnOk result (context_of self.new ≡ context_of self.old) }
    {
        let test = self.tested(test)?;
        let yes = self.inner(yes, enclosing)?;
        self.otherwise(test, yes, no, enclosing, at)
    }

    // The else behind the first arm of an if.
    #[cycle(statements)]
    fn otherwise(
        &mut self,
        test: Box<TypedExpr>,
        yes: Box<TypedStmt>,
        no: &'a Stmt,
        enclosing: Enclosing,
        at: u32,
    ) -> Result<TypedStmt, Refusal>
        ensures follows { Follows (λ t. typed_in self.new (stmt_of t)) (else_in self.old enclosing at (expr_of test.value) (stmt_of yes.value) (statement_of no.now.kind no.now.at)) result }
        ensures kept { OnOk result (context_of self.new ≡ context_of self.old) }
    {
        let no = self.inner(no, enclosing)?;
        self.two_armed(test, yes, no, at)
    }

    // An if over its test and both arms.
    fn two_armed(
        &self,
        test: Box<TypedExpr>,
        yes: Box<TypedStmt>,
        no: Box<TypedStmt>,
        at: u32,
    ) -> Result<TypedStmt, Refusal>
        ensures { Follows (λ t. typed_in self.now (stmt_of t)) (tested_in self.now at (expr_of test.value) (If (expr_of test.value) (stmt_of yes.value) (stmt_of no.value))) result }
    {
        not_void(&test, at)?;
        Ok(TypedStmt::If {
            test: Box::into_inner(test),
            yes,
            no,
        })
    }

    // 6.6.4.2.
    #[cycle(statements)]
    fn switch(
        &mut self,
        parts: &'a [SwitchPart],
        value: &Expr,
        place: u32,
        enclosing: Enclosing,
        at: u32,
    ) -> Result<TypedStmt, Refusal>
        ensures follows { Follows (λ t. typed_in self.new (stmt_of t)) (statement_in self.old enclosing (tree.Switch (expression_of value.now) (parts_of parts.now) place at)) result }
        ensures kept { OnOk result (context_of self.new ≡ context_of self.old) }
    {
        let value = self.tested(value)?;
        let labelled = self.choices(parts, enclosing.in_switch())?;
        switched(self.scopes.alloc, place, at, value, labelled)
    }

    // Labels and statements of a switch.
    #[cycle(statements)]
    fn choices(
        &mut self,
        parts: &'a [SwitchPart],
        enclosing: Enclosing,
    ) -> Result<Labelled, Refusal>
        ensures follows { Follows (λ l. typed_in self.new (labelled_of l)) (choices_in self.old enclosing (parts_of parts.now)) result }
        ensures kept { OnOk result (context_of self.new ≡ context_of self.old) }
    {
        let mut labelled = Labelled {
            choices: Vec::new(self.scopes.alloc),
            pointer: false,
        };
        for part in parts {
            let found = self.label_or_body(part, enclosing)?;
            let LabelOrBody { choice, pointer } = found;
            add(&mut labelled.choices, choice)?;
            labelled.pointer |= pointer;
        }
        Ok(labelled)
    }

    // A label or a statement of a switch.
    #[cycle(statements)]
    fn label_or_body(
        &mut self,
        part: &'a SwitchPart,
        enclosing: Enclosing,
    ) -> Result<LabelOrBody, Refusal>
        ensures typed { IfOk result (λ f. (rest : tree.Choices) → choices_in self.old enclosing (part_before part.now rest) ≡ behind_choices (f.choice ∷ []) f.pointer (choices_in self.new enclosing rest)) }
        ensures refused { IfErr result (λ f. (rest : tree.Choices) → Refuses (choices_in self.old enclosing (part_before part.now rest)) f) }
        ensures kept { OnOk result (context_of self.new ≡ context_of self.old) }
    {
        match part {
            SwitchPart::Case(label) => {
                let value = self.label(label)?;
                let word = word_at(label, &value)?;
                Ok(LabelOrBody {
                    choice: Choice::Case(word),
                    pointer: points(value.kind),
                })
            }
            SwitchPart::Default => Ok(LabelOrBody {
                choice: Choice::Default,
                pointer: false,
            }),
            SwitchPart::Body(s) => Ok(LabelOrBody {
                choice: Choice::Body(self.statement(s, enclosing)?),
                pointer: false,
            }),
        }
    }

    // 6.6.5.1.
    #[cycle(statements)]
    fn while_loop(&mut self, test: &Expr, body: &'a Stmt, at: u32) -> Result<TypedStmt, Refusal>
        ensures follows { Follows (λ t. typed_in self.new (stmt_of t)) (statement_in self.old enclosings.Loop (tree.While (expression_of test.now) (statement_of body.now.kind body.now.at) at)) result }
        ensures kept { OnOk result (context_of self.new ≡ context_of self.old) }
    {
        let test = self.tested(test)?;
        let body = self.inner(body, Enclosing::Loop)?;
        self.while_over(test, body, at)
    }

    // A while over its test and its body.
    fn while_over(
        &self,
        test: Box<TypedExpr>,
        body: Box<TypedStmt>,
        at: u32,
    ) -> Result<TypedStmt, Refusal>
        ensures { Follows (λ t. typed_in self.now (stmt_of t)) (tested_in self.now at (expr_of test.value) (While (expr_of test.value) (stmt_of body.value))) result }
    {
        not_void(&test, at)?;
        Ok(TypedStmt::While {
            test: Box::into_inner(test),
            body,
        })
    }

    // 6.6.5.2.
    #[cycle(statements)]
    fn do_loop(&mut self, body: &'a Stmt, test: &Expr, at: u32) -> Result<TypedStmt, Refusal>
        ensures follows { Follows (λ t. typed_in self.new (stmt_of t)) (statement_in self.old enclosings.Loop (tree.DoWhile (statement_of body.now.kind body.now.at) (expression_of test.now) at)) result }
        ensures kept { OnOk result (context_of self.new ≡ context_of self.old) }
    {
        let body = self.inner(body, Enclosing::Loop)?;
        self.do_test(body, test, at)
    }

    // The test behind the body of a do.
    fn do_test(&self, body: Box<TypedStmt>, test: &Expr, at: u32) -> Result<TypedStmt, Refusal>
        ensures { Follows (λ t. typed_in self.now (stmt_of t)) (test_in self.now at (stmt_of body.value) (expression_of test.now)) result }
    {
        let test = self.tested(test)?;
        not_void(&test, at)?;
        Ok(TypedStmt::Do {
            body,
            test: Box::into_inner(test),
        })
    }

    // 6.6.5.3.
    #[cycle(statements)]
    fn for_loop(
        &mut self,
        first: &Option<Expr>,
        test: &Option<Expr>,
        third: &Option<Expr>,
        body: &'a Stmt,
        at: u32,
    ) -> Result<TypedStmt, Refusal>
        ensures follows { Follows (λ t. typed_in self.new (stmt_of t)) (statement_in self.old enclosings.Loop (tree.For (optional_of first.now) (optional_of test.now) (optional_of third.now) (statement_of body.now.kind body.now.at) at)) result }
        ensures kept { OnOk result (context_of self.new ≡ context_of self.old) }
    {
        let first = self.optional(first)?;
        let test = self.optional(test)?;
        let third = self.optional(third)?;
        let head = ForHead { first, test, third };
        let body = self.inner(body, Enclosing::Loop)?;
        self.for_over(head, body, at)
    }

    // A for over what stands between its parentheses and its body.
    fn for_over(&self, head: ForHead, body: Box<TypedStmt>, at: u32) -> Result<TypedStmt, Refusal>
        ensures { Follows (λ t. typed_in self.now (stmt_of t)) (for_in self.now at head (stmt_of body.value)) result }
    {
        test_not_void(&head.test, at)?;
        Ok(TypedStmt::For {
            first: Box::into_inner(head.first),
            test: Box::into_inner(head.test),
            third: Box::into_inner(head.third),
            body,
        })
    }

    // An expression that may be absent, in a box.
    fn optional(&self, e: &Option<Expr>) -> Result<Box<Option<TypedExpr>>, Refusal>
        ensures { Follows (λ x. option_expr_of x.value) (rules.optional (scope_of self.now.scopes) (optional_of e.now)) result }
    {
        let typed = match e {
            None => None,
            Some(e) => Some(expression(&self.scopes, e)?),
        };
        boxed(self.scopes.alloc, typed)
    }

    // A test or the value of a switch, which is kept in its box while what stands behind it is typed.
    fn tested(&self, e: &Expr) -> Result<Box<TypedExpr>, Refusal>
        ensures { Follows (λ x. expr_of x.value) (typing (scope_of self.now.scopes) (expression_of e.now)) result }
    {
        let typed = expression(&self.scopes, e)?;
        boxed(self.scopes.alloc, typed)
    }

    // A label, in a box while its word is looked for.
    fn label(&self, e: &Expr) -> Result<Box<TypedExpr>, Refusal>
        ensures { Follows (λ x. expr_of x.value) (constant_typing (scope_of self.now.scopes) (expression_of e.now)) result }
    {
        let typed = constant_tree(&self.scopes, e)?;
        boxed(self.scopes.alloc, typed)
    }
}

// A block without names and without a body.
fn empty(alloc: Global) -> TypedStmt
    ensures { stmt_of result ≡ Block [] done }
{
    TypedStmt::Block {
        declared: Vec::new(alloc),
        body: Vec::new(alloc),
    }
}

// A break, where there is something to leave: 6.6.6.3.
fn break_from(enclosing: Enclosing, at: u32) -> Result<TypedStmt, Refusal>
    ensures typed { IfOk result (λ t. stmt_of t ≡ Break) }
    ensures may { OnOk result (may_break enclosing ≡ true) }
    ensures refused { IfErr result (λ f. f ≡ refusals.Broken rule.Misplaced at) }
    ensures may_not { OnErr result (may_break enclosing ≡ false) }
{
    if enclosing.may_break() {
        return Ok(TypedStmt::Break);
    }
    Err(misplaced(at))
}

// A continue, where there is a loop to go on with: 6.6.6.2.
fn continue_from(enclosing: Enclosing, at: u32) -> Result<TypedStmt, Refusal>
    ensures typed { IfOk result (λ t. stmt_of t ≡ Continue) }
    ensures may { OnOk result (may_continue enclosing ≡ true) }
    ensures refused { IfErr result (λ f. f ≡ refusals.Broken rule.Misplaced at) }
    ensures may_not { OnErr result (may_continue enclosing ≡ false) }
{
    if enclosing.may_continue() {
        return Ok(TypedStmt::Continue);
    }
    Err(misplaced(at))
}

// What is refused where nothing can be left.
fn misplaced(at: u32) -> Refusal
    ensures { result ≡ refusals.Broken rule.Misplaced at }
{
    Refusal::Broken {
        rule: Rule::Misplaced,
        at,
    }
}

// The value of a return from a function of this type.
fn returned(
    alloc: Global,
    kind: Option<ScalarType>,
    at: u32,
    value: Operand,
) -> Result<TypedExpr, Refusal>
    ensures { Follows expr_of (rules.typed_return kind at (operand_of value)) result }
{
    let Some(kind) = kind else {
        drop(value);
        return Err(mismatch(at));
    };
    given(alloc, kind, at, value)
}

// A test has a value.
fn not_void(test: &TypedExpr, at: u32) -> Result<(), Refusal>
    ensures value { OnOk result (is_void (kind_of (expr_of test.now)) ≡ false) }
    ensures refused { IfErr result (λ f. f ≡ refusals.Broken rule.Mismatch at) }
    ensures void { OnErr result (is_void (kind_of (expr_of test.now)) ≡ true) }
{
    if test.kind.is_none() {
        return Err(mismatch(at));
    }
    Ok(())
}

// The test of a for has a value, where it is there.
fn test_not_void(test: &Option<TypedExpr>, at: u32) -> Result<(), Refusal>
    ensures value { OnOk result (rules.is_void_test (option_expr_of test.now) ≡ false) }
    ensures refused { IfErr result (λ f. f ≡ refusals.Broken rule.Mismatch at) }
    ensures void { OnErr result (rules.is_void_test (option_expr_of test.now) ≡ true) }
{
    match test {
        Some(test) => not_void(test, at),
        None => Ok(()),
    }
}
