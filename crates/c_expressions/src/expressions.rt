//! The rows of expressions, from `expression` to `cast`.
//!
//! A row that may begin with a primary that was read already takes it as its start: so nested parentheses are closed one by
//! one in a loop, and none of them costs a call.
ghost use Rattle.std.specs.Prelude.{◌≡◌, ◌+◌, ◌<◌, max, true, false, IfOk, IfErr, Some, None, MatchOption};
ghost use Rattle.c_syntax.specs.Grammar.{ExpressionRow, AssignmentRow, ConditionalRow, CastRow};
ghost use Rattle.c_syntax.specs.SyntaxTree.{Comma, Conditional, Cast};
ghost use Rattle.c_syntax.specs.Lookahead.{next_of, going_of, Stops};
ghost use Rattle.c_syntax.specs.Measures.{greatest_height};
ghost use Rattle.c_syntax.specs.SyntaxView.{expression_of, form_of, type_of};
ghost use Rattle.c_syntax.specs.declared.token.Punct.TheVariants as marks;
ghost use Rattle.c_cursor.specs.Front.{mark_at};
ghost use Rattle.c_expressions.specs.Operators.{level_row, row_at, infix_form, assignment_form, next_assignment, IsInfix};
ghost use Rattle.c_cursor.specs.declared.fault.Refusal.TheVariants as refusals;
ghost use Rattle.c_expressions.specs.Parses.{MayStart, IsMeasured, IsParsed, IsMore, IsNode, NoReading, NoMore};
ghost use Rattle.c_expressions.specs.Yields.{Yields};

use crate::operators::{Assignment, Infix, Level, assignment_of, infix_of};
use crate::parser::{Parsed, Parser};
use c_cursor::Refusal;
use c_syntax::{Expr, ExprKind, Punct, TypeName};

impl<'a> Parser<'a> {
    /// The row `expression`, under so many nodes.
    #[cycle(parser)]
    pub(crate) fn expression(
        &mut self,
        start: Option<Parsed>,
        depth: u32,
    ) -> Result<Parsed, Refusal>
        requires room { depth < greatest_height }
        requires start { MayStart depth start }
        ensures { Yields (λ p. IsParsed ExpressionRow start self.old.cursor depth p self.new.cursor) (NoReading ExpressionRow start depth self.old.cursor) result }
    {
        let first = self.assignment(start, depth)?;
        self.commas(first, depth)
    }

    // The commas that stand behind what was read first, and their other operands. What goes on with a row is read by a
    // function of its own: a frame of the row's is then small, and deep nests cost little of the stack.
    #[cycle(parser)]
    fn commas(&mut self, start: Parsed, depth: u32) -> Result<Parsed, Refusal>
        requires room { depth < greatest_height }
        requires start { IsMeasured depth start }
        ensures { Yields (λ p. IsMore ExpressionRow start self.old.cursor depth p self.new.cursor) (NoMore ExpressionRow start depth self.old.cursor) result }
    {
        let mut left = start;
        while self.cursor.stands(Punct::Comma) {
            self.allow(left.height, depth)?;
            self.cursor.skip();
            let right = self.assignment(None, depth + 1)?;
            left = self.joined_by_comma(left, right)?;
        }
        Ok(left)
    }

    fn joined_by_comma(&self, left: Parsed, right: Parsed) -> Result<Parsed, Refusal>
        requires left { left.height < greatest_height }
        requires right { right.height < greatest_height }
        ensures node { IfOk result (IsNode (Comma (expression_of left.tree.value) (expression_of right.tree.value)) left.at false (max left.height right.height)) }
        ensures memory { IfErr result (λ f. f ≡ refusals.NoMemory) }
    {
        let parts = left.height.max(right.height);
        let kind = ExprKind::Comma {
            left: left.tree,
            right: right.tree,
        };
        Parsed::node(self.alloc, kind, parts, left.at, false)
    }

    /// The row `assignment`.
    #[cycle(parser)]
    pub(crate) fn assignment(
        &mut self,
        start: Option<Parsed>,
        depth: u32,
    ) -> Result<Parsed, Refusal>
        requires room { depth < greatest_height }
        requires start { MayStart depth start }
        ensures { Yields (λ p. IsParsed AssignmentRow start self.old.cursor depth p self.new.cursor) (NoReading AssignmentRow start depth self.old.cursor) result }
    {
        let left = self.conditional(start, depth)?;
        let Some(assignment) = self.next_assignment() else {
            return Ok(left);
        };
        if !left.is_unary {
            return Err(self.cursor.refused());
        }
        self.assignment_to(left, assignment, depth)
    }

    // The assignment that stands behind what is assigned to.
    #[cycle(parser)]
    fn assignment_to(
        &mut self,
        left: Parsed,
        assignment: Assignment,
        depth: u32,
    ) -> Result<Parsed, Refusal>
        requires room { depth < greatest_height }
        requires left { IsMeasured depth left }
        requires unary { left.is_unary ≡ true }
        requires assignment { next_assignment (next_of self.old.cursor) ≡ Some assignment }
        ensures { Yields (λ p. IsMore AssignmentRow left self.old.cursor depth p self.new.cursor) (NoMore AssignmentRow left depth self.old.cursor) result }
    {
        self.allow(left.height, depth)?;
        self.cursor.skip();
        let right = self.assignment(None, depth + 1)?;
        self.assigned(assignment, left, right)
    }

    // The assignment that stands next.
    fn next_assignment(&self) -> Option<Assignment>
        ensures { result ≡ next_assignment (next_of self.now.cursor) }
    {
        assignment_of(self.cursor.mark()?)
    }

    fn assigned(
        &self,
        assignment: Assignment,
        left: Parsed,
        right: Parsed,
    ) -> Result<Parsed, Refusal>
        requires left { left.height < greatest_height }
        requires right { right.height < greatest_height }
        ensures node { IfOk result (IsNode (assignment_form assignment (expression_of left.tree.value) (expression_of right.tree.value)) left.at false (max left.height right.height)) }
        ensures memory { IfErr result (λ f. f ≡ refusals.NoMemory) }
    {
        let parts = left.height.max(right.height);
        let kind = assignment_kind(assignment, left.tree, right.tree);
        Parsed::node(self.alloc, kind, parts, left.at, false)
    }

    /// The row `conditional`.
    #[cycle(parser)]
    pub(crate) fn conditional(
        &mut self,
        start: Option<Parsed>,
        depth: u32,
    ) -> Result<Parsed, Refusal>
        requires room { depth < greatest_height }
        requires start { MayStart depth start }
        ensures { Yields (λ p. IsParsed ConditionalRow start self.old.cursor depth p self.new.cursor) (NoReading ConditionalRow start depth self.old.cursor) result }
    {
        let test = self.levels(Some(Level::Or), start, depth)?;
        if !self.cursor.stands(Punct::Question) {
            return Ok(test);
        }
        self.alternatives(test, depth)
    }

    // `?` and what is chosen from by a test.
    #[cycle(parser)]
    fn alternatives(&mut self, test: Parsed, depth: u32) -> Result<Parsed, Refusal>
        requires room { depth < greatest_height }
        requires test { IsMeasured depth test }
        requires question { mark_at self.old.cursor ≡ Some marks.Question }
        ensures { Yields (λ p. IsMore ConditionalRow test self.old.cursor depth p self.new.cursor) (NoMore ConditionalRow test depth self.old.cursor) result }
    {
        self.allow(test.height, depth)?;
        self.cursor.skip();
        let yes = self.expression(None, depth + 1)?;
        self.cursor.expect(Punct::Colon)?;
        let no = self.conditional(None, depth + 1)?;
        self.chosen(test, yes, no)
    }

    fn chosen(&self, test: Parsed, yes: Parsed, no: Parsed) -> Result<Parsed, Refusal>
        requires test { test.height < greatest_height }
        requires yes { yes.height < greatest_height }
        requires no { no.height < greatest_height }
        ensures node { IfOk result (IsNode (Conditional (expression_of test.tree.value) (expression_of yes.tree.value) (expression_of no.tree.value)) test.at false (max test.height (max yes.height no.height))) }
        ensures memory { IfErr result (λ f. f ≡ refusals.NoMemory) }
    {
        let parts = test.height.max(yes.height.max(no.height));
        let kind = ExprKind::Conditional {
            test: test.tree,
            yes: yes.tree,
            no: no.tree,
        };
        Parsed::node(self.alloc, kind, parts, test.at, false)
    }

    /// The row of a level, or the row `cast` where there is none. The tighter levels are read in a loop, so that nested
    /// operands cost few calls.
    #[cycle(parser)]
    fn levels(
        &mut self,
        loosest: Option<Level>,
        start: Option<Parsed>,
        depth: u32,
    ) -> Result<Parsed, Refusal>
        requires room { depth < greatest_height }
        requires start { MayStart depth start }
        ensures { Yields (λ p. IsParsed (row_at loosest) start self.old.cursor depth p self.new.cursor) (NoReading (row_at loosest) start depth self.old.cursor) result }
    {
        let mut left = self.cast(start, depth)?;
        let mut level = None;
        while level != loosest {
            let looser = Level::looser(level);
            left = self.more_of(looser, left, depth)?;
            level = Some(looser);
        }
        Ok(left)
    }

    // The operators of a level that stand behind its first operand, and their other operands.
    #[cycle(parser)]
    fn more_of(&mut self, level: Level, start: Parsed, depth: u32) -> Result<Parsed, Refusal>
        requires room { depth < greatest_height }
        requires start { IsMeasured depth start }
        ensures { Yields (λ p. IsMore (level_row level) start self.old.cursor depth p self.new.cursor) (NoMore (level_row level) start depth self.old.cursor) result }
    {
        let mut left = start;
        while let Some(operator) = self.operator_of(level) {
            self.allow(left.height, depth)?;
            self.cursor.skip();
            let right = self.levels(level.tighter(), None, depth + 1)?;
            left = self.joined(operator, left, right)?;
        }
        Ok(left)
    }

    // The operator of the level that stands next.
    fn operator_of(&self, level: Level) -> Option<Infix>
        ensures { MatchOption result (going_of (level_row level) (next_of self.now.cursor) ≡ Stops) (IsInfix level (next_of self.now.cursor)) }
    {
        let (found, infix) = infix_of(self.cursor.mark()?)?;
        if found == level { Some(infix) } else { None }
    }

    fn joined(&self, operator: Infix, left: Parsed, right: Parsed) -> Result<Parsed, Refusal>
        requires left { left.height < greatest_height }
        requires right { right.height < greatest_height }
        ensures node { IfOk result (IsNode (infix_form operator (expression_of left.tree.value) (expression_of right.tree.value)) left.at false (max left.height right.height)) }
        ensures memory { IfErr result (λ f. f ≡ refusals.NoMemory) }
    {
        let parts = left.height.max(right.height);
        let kind = infix_kind(operator, left.tree, right.tree);
        Parsed::node(self.alloc, kind, parts, left.at, false)
    }

    /// The row `cast`.
    #[cycle(parser)]
    pub(crate) fn cast(&mut self, start: Option<Parsed>, depth: u32) -> Result<Parsed, Refusal>
        requires room { depth < greatest_height }
        requires start { MayStart depth start }
        ensures { Yields (λ p. IsParsed CastRow start self.old.cursor depth p self.new.cursor) (NoReading CastRow start depth self.old.cursor) result }
    {
        match start {
            Some(start) => self.unary(Some(start), depth),
            None => self.first_cast(depth),
        }
    }

    // The row `cast` from the next token on.
    #[cycle(parser)]
    fn first_cast(&mut self, depth: u32) -> Result<Parsed, Refusal>
        requires { depth < greatest_height }
        ensures { Yields (λ p. IsParsed CastRow None self.old.cursor depth p self.new.cursor) (NoReading CastRow None depth self.old.cursor) result }
    {
        if !self.cursor.opens_type() {
            return self.unary(None, depth);
        }
        let at = self.cursor.place();
        if self.allow(1, depth).is_err() {
            // An expression in parentheses may be low enough: it is the type that has no place.
            return Err(self.cursor.refused_behind());
        }
        let to = self.type_in_parentheses()?;
        let operand = self.cast(None, depth + 1)?;
        self.converted(to, operand, at)
    }

    fn converted(&self, to: TypeName, operand: Parsed, at: u32) -> Result<Parsed, Refusal>
        requires { operand.height < greatest_height }
        ensures node { IfOk result (IsNode (Cast (type_of to) (expression_of operand.tree.value)) at false operand.height) }
        ensures memory { IfErr result (λ f. f ≡ refusals.NoMemory) }
    {
        let kind = ExprKind::Cast {
            to,
            operand: operand.tree,
        };
        Parsed::node(self.alloc, kind, operand.height, at, false)
    }
}

// An assignment of what stands right to what stands left.
fn assignment_kind(assignment: Assignment, left: Box<Expr>, right: Box<Expr>) -> ExprKind
    ensures { form_of result ≡ assignment_form assignment (expression_of left.value) (expression_of right.value) }
{
    match assignment {
        Assignment::Plain => ExprKind::Assign { left, right },
        Assignment::With(op) => ExprKind::AssignOp { op, left, right },
    }
}

// An operator between two operands.
fn infix_kind(operator: Infix, left: Box<Expr>, right: Box<Expr>) -> ExprKind
    ensures { form_of result ≡ infix_form operator (expression_of left.value) (expression_of right.value) }
{
    match operator {
        Infix::Or => ExprKind::Or { left, right },
        Infix::And => ExprKind::And { left, right },
        Infix::Value(op) => ExprKind::Binary { op, left, right },
    }
}
