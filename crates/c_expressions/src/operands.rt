//! The rows of operands: `unary`, `postfix` and `primary`.
ghost use Rattle.std.specs.Prelude.{◌≡◌, ◌+◌, ◌<◌, max, true, length, IfOk, IfErr, IsSome, Some, None, MatchOption};
ghost use Rattle.c_syntax.specs.declared.token.Keyword.TheVariants as keywords;
ghost use Rattle.c_syntax.specs.SyntaxTree.{StepBefore, Prefix, SizeofValue, SizeofType, Index, StepAfter, Call};
ghost use Rattle.c_syntax.specs.declared.token.Punct.TheVariants as marks;
ghost use Rattle.c_cursor.specs.declared.fault.Refusal.TheVariants as refusals;
ghost use Rattle.c_syntax.specs.Grammar.{UnaryRow};
ghost use Rattle.c_syntax.specs.Measures.{greatest_height};
ghost use Rattle.c_syntax.specs.SyntaxView.{expression_of, form_of, type_of};
ghost use Rattle.c_cursor.specs.Front.{mark_at, word_at, name_at, opens_type};
ghost use Rattle.c_expressions.specs.Operators.{step_at, prefix_at};
ghost use Rattle.c_expressions.specs.Parses.{MayStart, IsMeasured, IsParsed, IsOperand, IsBehind, IsOneBehind, IsConstant, constant_form, constant_at, IsNode, ReadsClosed, Opened, AreRead, NoReading, NoOperand, NoneBehind, NoArguments, NotClosed};
ghost use Rattle.c_cursor.specs.Refusals.{Refuses};
ghost use Rattle.c_expressions.specs.Yields.{Yields};

use crate::operators::{prefix_of, step_of};
use crate::parser::{Arguments, Parsed, Parser};
use c_cursor::Refusal;
use c_syntax::{ExprKind, Keyword, PrefixOp, Punct, TokenKind, TypeName};
use word_base::Text;

impl<'a> Parser<'a> {
    /// The row `unary`, under so many nodes.
    #[cycle(parser)]
    pub(crate) fn unary(&mut self, start: Option<Parsed>, depth: u32) -> Result<Parsed, Refusal>
        requires room { depth < greatest_height }
        requires start { MayStart depth start }
        ensures { Yields (λ p. IsParsed UnaryRow start self.old.cursor depth p self.new.cursor) (NoReading UnaryRow start depth self.old.cursor) result }
    {
        match start {
            Some(start) => self.postfix(start, depth),
            None => self.first_unary(depth),
        }
    }

    // The row `unary` from the next token on.
    #[cycle(parser)]
    fn first_unary(&mut self, depth: u32) -> Result<Parsed, Refusal>
        requires { depth < greatest_height }
        ensures { Yields (λ p. IsParsed UnaryRow None self.old.cursor depth p self.new.cursor) (NoReading UnaryRow None depth self.old.cursor) result }
    {
        if self.cursor.stands_word(Keyword::Sizeof) {
            return self.size(depth);
        }
        if let Some(up) = self.next_step() {
            return self.step(up, depth);
        }
        if let Some(op) = self.next_prefix() {
            return self.prefix(op, depth);
        }
        let start = self.primary(depth)?;
        self.postfix(start, depth)
    }

    // The step that stands next.
    fn next_step(&self) -> Option<bool>
        ensures { result ≡ step_at (mark_at self.now.cursor) }
    {
        step_of(self.cursor.mark()?)
    }

    // The operator before a cast that stands next.
    fn next_prefix(&self) -> Option<PrefixOp>
        ensures { result ≡ prefix_at (mark_at self.now.cursor) }
    {
        prefix_of(self.cursor.mark()?)
    }

    // A step before its operand.
    #[cycle(parser)]
    fn step(&mut self, up: bool, depth: u32) -> Result<Parsed, Refusal>
        requires room { depth < greatest_height }
        requires step { step_at (mark_at self.old.cursor) ≡ Some up }
        ensures { Yields (λ p. IsParsed UnaryRow None self.old.cursor depth p self.new.cursor) (NoReading UnaryRow None depth self.old.cursor) result }
    {
        let at = self.cursor.place();
        self.allow(1, depth)?;
        self.cursor.skip();
        let operand = self.unary(None, depth + 1)?;
        self.stepped_before(up, operand, at)
    }

    fn stepped_before(&self, up: bool, operand: Parsed, at: u32) -> Result<Parsed, Refusal>
        requires { operand.height < greatest_height }
        ensures node { IfOk result (IsNode (StepBefore up (expression_of operand.tree.value)) at true operand.height) }
        ensures memory { IfErr result (λ f. f ≡ refusals.NoMemory) }
    {
        let kind = ExprKind::StepBefore {
            up,
            operand: operand.tree,
        };
        Parsed::node(self.alloc, kind, operand.height, at, true)
    }

    // An operator before a cast.
    #[cycle(parser)]
    fn prefix(&mut self, op: PrefixOp, depth: u32) -> Result<Parsed, Refusal>
        requires room { depth < greatest_height }
        requires operator { prefix_at (mark_at self.old.cursor) ≡ Some op }
        ensures { Yields (λ p. IsParsed UnaryRow None self.old.cursor depth p self.new.cursor) (NoReading UnaryRow None depth self.old.cursor) result }
    {
        let at = self.cursor.place();
        self.allow(1, depth)?;
        self.cursor.skip();
        let operand = self.cast(None, depth + 1)?;
        self.prefixed(op, operand, at)
    }

    fn prefixed(&self, op: PrefixOp, operand: Parsed, at: u32) -> Result<Parsed, Refusal>
        requires { operand.height < greatest_height }
        ensures node { IfOk result (IsNode (Prefix op (expression_of operand.tree.value)) at true operand.height) }
        ensures memory { IfErr result (λ f. f ≡ refusals.NoMemory) }
    {
        let kind = ExprKind::Prefix {
            op,
            operand: operand.tree,
        };
        Parsed::node(self.alloc, kind, operand.height, at, true)
    }

    // `sizeof` of a type or of a value.
    #[cycle(parser)]
    fn size(&mut self, depth: u32) -> Result<Parsed, Refusal>
        requires room { depth < greatest_height }
        requires word { word_at self.old.cursor ≡ Some keywords.Sizeof }
        ensures { Yields (λ p. IsParsed UnaryRow None self.old.cursor depth p self.new.cursor) (NoReading UnaryRow None depth self.old.cursor) result }
    {
        let at = self.cursor.place();
        self.allow(1, depth)?;
        self.cursor.skip();
        if self.cursor.opens_type() {
            let sized = self.type_in_parentheses()?;
            return Parsed::node(self.alloc, ExprKind::SizeofType(sized), 1, at, true);
        }
        let operand = self.unary(None, depth + 1)?;
        self.sized(operand, at)
    }

    fn sized(&self, operand: Parsed, at: u32) -> Result<Parsed, Refusal>
        requires { operand.height < greatest_height }
        ensures node { IfOk result (IsNode (SizeofValue (expression_of operand.tree.value)) at true operand.height) }
        ensures memory { IfErr result (λ f. f ≡ refusals.NoMemory) }
    {
        let kind = ExprKind::SizeofValue(operand.tree);
        Parsed::node(self.alloc, kind, operand.height, at, true)
    }

    // `(`, a type and `)`.
    pub(crate) fn type_in_parentheses(&mut self) -> Result<TypeName, Refusal>
        requires { opens_type self.old.cursor ≡ true }
        ensures { Yields (λ tree. ReadsClosed self.old.cursor (type_of tree) self.new.cursor) (NotClosed self.old.cursor) result }
    {
        self.cursor.skip();
        let type_name = self.type_name()?;
        self.cursor.expect(Punct::CloseParen)?;
        Ok(type_name)
    }

    // What stands behind an operand: indexes and steps.
    #[cycle(parser)]
    fn postfix(&mut self, start: Parsed, depth: u32) -> Result<Parsed, Refusal>
        requires room { depth < greatest_height }
        requires start { IsMeasured depth start }
        ensures { Yields (λ p. IsBehind start self.old.cursor depth p self.new.cursor) (NoneBehind start depth self.old.cursor) result }
    {
        let mut left = start;
        loop {
            if self.cursor.stands(Punct::OpenBracket) {
                left = self.indexed(left, depth)?;
            } else if let Some(up) = self.next_step() {
                left = self.stepped(left, up, depth)?;
            } else {
                return Ok(left);
            }
        }
    }

    // An index behind an operand.
    #[cycle(parser)]
    fn indexed(&mut self, left: Parsed, depth: u32) -> Result<Parsed, Refusal>
        requires room { depth < greatest_height }
        requires left { IsMeasured depth left }
        requires open { mark_at self.old.cursor ≡ Some marks.OpenBracket }
        ensures { Yields (λ p. IsOneBehind left self.old.cursor depth p self.new.cursor) (NoneBehind left depth self.old.cursor) result }
    {
        self.allow(left.height, depth)?;
        self.cursor.skip();
        let index = self.expression(None, depth + 1)?;
        self.cursor.expect(Punct::CloseBracket)?;
        self.element(left, index)
    }

    fn element(&self, left: Parsed, index: Parsed) -> Result<Parsed, Refusal>
        requires left { left.height < greatest_height }
        requires index { index.height < greatest_height }
        ensures node { IfOk result (IsNode (Index (expression_of left.tree.value) (expression_of index.tree.value)) left.at true (max left.height index.height)) }
        ensures memory { IfErr result (λ f. f ≡ refusals.NoMemory) }
    {
        let parts = left.height.max(index.height);
        let kind = ExprKind::Index {
            operand: left.tree,
            index: index.tree,
        };
        Parsed::node(self.alloc, kind, parts, left.at, true)
    }

    // A step behind its operand.
    #[tactic(auto, using(crate::proofs::Rows::step_behind))]
    fn stepped(&mut self, left: Parsed, up: bool, depth: u32) -> Result<Parsed, Refusal>
        requires left { IsMeasured depth left }
        requires step { step_at (mark_at self.old.cursor) ≡ Some up }
        ensures { Yields (λ p. IsOneBehind left self.old.cursor depth p self.new.cursor) (NoneBehind left depth self.old.cursor) result }
    {
        self.allow(left.height, depth)?;
        self.cursor.skip();
        self.stepped_after(up, left)
    }

    fn stepped_after(&self, up: bool, left: Parsed) -> Result<Parsed, Refusal>
        requires { left.height < greatest_height }
        ensures node { IfOk result (IsNode (StepAfter up (expression_of left.tree.value)) left.at true left.height) }
        ensures memory { IfErr result (λ f. f ≡ refusals.NoMemory) }
    {
        let kind = ExprKind::StepAfter {
            up,
            operand: left.tree,
        };
        Parsed::node(self.alloc, kind, left.height, left.at, true)
    }

    /// The row `primary`, and calls of names.
    #[cycle(parser)]
    fn primary(&mut self, depth: u32) -> Result<Parsed, Refusal>
        requires room { depth < greatest_height }
        ensures { Yields (λ p. IsOperand self.old.cursor depth p self.new.cursor) (NoOperand depth self.old.cursor) result }
    {
        if self.cursor.stands(Punct::OpenParen) {
            return self.parenthesised(depth);
        }
        if self.cursor.is_name() {
            return self.named(depth);
        }
        self.constant()
    }

    // A number or a character.
    fn constant(&mut self) -> Result<Parsed, Refusal>
        ensures { Yields (λ p. IsConstant self.old.cursor p self.new.cursor) (constant_at self.old.cursor ≡ None) result }
    {
        let at = self.cursor.place();
        let Some(kind) = self.cursor.kind() else {
            return Err(self.cursor.refused());
        };
        let Some(constant) = constant_of(kind) else {
            return Err(self.cursor.refused());
        };
        self.cursor.skip();
        Parsed::node(self.alloc, constant, 0, at, true)
    }

    // A name, or a call of one.
    #[cycle(parser)]
    fn named(&mut self, depth: u32) -> Result<Parsed, Refusal>
        requires room { depth < greatest_height }
        requires name { IsSome (name_at self.old.cursor) }
        ensures { Yields (λ p. IsOperand self.old.cursor depth p self.new.cursor) (NoOperand depth self.old.cursor) result }
    {
        let at = self.cursor.place();
        let name = self.cursor.take_name()?;
        let name = Text::copy_of(self.alloc, name)?;
        if !self.cursor.take(Punct::OpenParen) {
            return Parsed::node(self.alloc, ExprKind::Name(name), 0, at, true);
        }
        let arguments = self.arguments(depth)?;
        let kind = ExprKind::Call {
            name,
            arguments: arguments.list,
        };
        Parsed::node(self.alloc, kind, arguments.height, at, true)
    }

    // The arguments of a call to its closing parenthesis.
    #[cycle(parser)]
    fn arguments(&mut self, depth: u32) -> Result<Arguments, Refusal>
        requires room { depth < greatest_height }
        ensures { Yields (λ a. AreRead self.old.cursor depth a self.new.cursor) (NoArguments depth self.old.cursor) result }
    {
        let mut arguments = Arguments {
            list: Vec::new(self.alloc),
            height: 0,
        };
        if self.cursor.take(Punct::CloseParen) {
            return Ok(arguments);
        }
        self.allow(1, depth)?;
        loop {
            let next = self.assignment(None, depth + 1)?;
            arguments.add(next)?;
            if !self.cursor.take(Punct::Comma) {
                self.cursor.expect(Punct::CloseParen)?;
                return Ok(arguments);
            }
        }
    }

    // An expression in parentheses. They are opened and closed in loops, each closing one followed by what may stand behind
    // it within the next.
    #[cycle(parser)]
    fn parenthesised(&mut self, depth: u32) -> Result<Parsed, Refusal>
        requires room { depth < greatest_height }
        requires open { mark_at self.old.cursor ≡ Some marks.OpenParen }
        ensures { Yields (λ p. IsOperand self.old.cursor depth p self.new.cursor) (NoOperand depth self.old.cursor) result }
    {
        let mut places = self.open_parentheses()?;
        let mut inner = self.expression(None, depth)?;
        while let Some(at) = places.pop() {
            self.cursor.expect(Punct::CloseParen)?;
            inner.enclose(at);
            if !places.is_empty() {
                inner = self.expression(Some(inner), depth)?;
            }
        }
        Ok(inner)
    }

    #[tactic(auto, using(crate::proofs::Parens::opened_more, crate::proofs::Words::mark_some))]
    // The places of the parentheses that open next, one or more, but for one before a type.
    fn open_parentheses(&mut self) -> Result<Vec<u32>, Refusal>
        requires { mark_at self.old.cursor ≡ Some marks.OpenParen }
        ensures opened { IfOk result (λ places. Opened self.old.cursor places.items self.new.cursor) }
        ensures some { IfOk result (λ places. 0 < length places.items) }
        ensures refused { IfErr result (Refuses (opens_type self.old.cursor ≡ true)) }
    {
        let mut places = Vec::new(self.alloc);
        while self.cursor.stands(Punct::OpenParen) && !self.cursor.opens_type() {
            places.push(self.cursor.place())?;
            self.cursor.skip();
        }
        if places.is_empty() {
            // A type stands behind it, and a cast is no primary.
            self.cursor.skip();
            return Err(self.cursor.refused());
        }
        Ok(places)
    }
}

// The constant that a token is.
fn constant_of(kind: &TokenKind) -> Option<ExprKind>
    ensures { MatchOption result (constant_form kind.now ≡ None) (λ constant. constant_form kind.now ≡ Some (form_of constant)) }
{
    match kind {
        TokenKind::Number {
            value,
            unsigned_mark,
            decimal,
        } => Some(ExprKind::Number {
            value: *value,
            unsigned_mark: *unsigned_mark,
            decimal: *decimal,
        }),
        TokenKind::Char(value) => Some(ExprKind::Char(*value)),
        _ => None,
    }
}
