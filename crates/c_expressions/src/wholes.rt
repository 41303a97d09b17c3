//! Whole parts that begin at the next token, as the rows of declarations and statements want them.
ghost use Rattle.std.specs.Prelude.{◌≡◌, ◌+◌, ◌<◌, ◌≤◌, length, IfOk, IfErr, None};
ghost use Rattle.c_syntax.specs.Grammar.{Derives, ExpressionRow, AssignmentRow, ConditionalRow, AreStars};
ghost use Rattle.c_syntax.specs.Derives.{DerivesSpecs};
ghost use Rattle.c_syntax.specs.Measures.{expression_height, greatest_height};
ghost use Rattle.c_syntax.specs.SyntaxView.{expression_of, specs_of};
ghost use Rattle.c_cursor.specs.Takes.{Takes};
ghost use Rattle.c_expressions.specs.Fronts.{NoFront, OnlyTo, ExpressionFront, SpecsFront, StarsFront};
ghost use Rattle.c_cursor.specs.Refusals.{Refuses};

use crate::parser::{Parsed, Parser, Tall};
use c_cursor::Refusal;
use c_syntax::{Expr, Specs};

fn whole(parsed: Parsed) -> Tall<Expr>
    ensures { result ≡ record { tree = parsed.tree.value; height = parsed.height } }
{
    Tall {
        tree: Box::into_inner(parsed.tree),
        height: parsed.height,
    }
}

impl<'a> Parser<'a> {
    /// The words of a type, one or more.
    pub fn whole_specs(&mut self) -> Result<Specs, Refusal>
        ensures tree { IfOk result (λ s. Takes (λ taken. DerivesSpecs taken (specs_of s)) self.old.cursor self.new.cursor) }
        ensures only { IfOk result (λ _. OnlyTo SpecsFront self.old.cursor self.new.cursor) }
        ensures refused { IfErr result (Refuses (NoFront SpecsFront self.old.cursor)) }
        ensures fewer { IfOk result (λ _. length self.new.cursor < length self.old.cursor) }
    {
        let specs = self.specs()?;
        Ok(specs)
    }

    /// How many stars stand next.
    pub fn whole_stars(&mut self) -> u32
        ensures tree { Takes (λ taken. AreStars taken result) self.old.cursor self.new.cursor }
        ensures only { OnlyTo StarsFront self.old.cursor self.new.cursor }
        ensures no_more { length self.new.cursor ≤ length self.old.cursor }
    {
        self.stars()
    }

    /// The row `expression`, under so many nodes.
    pub fn whole_expression(&mut self, depth: u32) -> Result<Tall<Expr>, Refusal>
        requires { depth < greatest_height }
        ensures tree { IfOk result (λ p. Takes (λ taken. Derives ExpressionRow taken (expression_of p.tree)) self.old.cursor self.new.cursor) }
        ensures only { IfOk result (λ _. OnlyTo (ExpressionFront ExpressionRow depth) self.old.cursor self.new.cursor) }
        ensures refused { IfErr result (Refuses (NoFront (ExpressionFront ExpressionRow depth) self.old.cursor)) }
        ensures height { IfOk result (λ p. p.height ≡ expression_height (expression_of p.tree)) }
        ensures room { IfOk result (λ p. depth + p.height ≤ greatest_height) }
        ensures fewer { IfOk result (λ _. length self.new.cursor < length self.old.cursor) }
    {
        let parsed = self.expression(None, depth)?;
        Ok(whole(parsed))
    }

    /// The row `assignment`, under so many nodes.
    pub fn whole_assignment(&mut self, depth: u32) -> Result<Tall<Expr>, Refusal>
        requires { depth < greatest_height }
        ensures tree { IfOk result (λ p. Takes (λ taken. Derives AssignmentRow taken (expression_of p.tree)) self.old.cursor self.new.cursor) }
        ensures only { IfOk result (λ _. OnlyTo (ExpressionFront AssignmentRow depth) self.old.cursor self.new.cursor) }
        ensures refused { IfErr result (Refuses (NoFront (ExpressionFront AssignmentRow depth) self.old.cursor)) }
        ensures height { IfOk result (λ p. p.height ≡ expression_height (expression_of p.tree)) }
        ensures room { IfOk result (λ p. depth + p.height ≤ greatest_height) }
        ensures fewer { IfOk result (λ _. length self.new.cursor < length self.old.cursor) }
    {
        let parsed = self.assignment(None, depth)?;
        Ok(whole(parsed))
    }

    /// The row `conditional`, under so many nodes.
    pub fn whole_conditional(&mut self, depth: u32) -> Result<Tall<Expr>, Refusal>
        requires { depth < greatest_height }
        ensures tree { IfOk result (λ p. Takes (λ taken. Derives ConditionalRow taken (expression_of p.tree)) self.old.cursor self.new.cursor) }
        ensures only { IfOk result (λ _. OnlyTo (ExpressionFront ConditionalRow depth) self.old.cursor self.new.cursor) }
        ensures refused { IfErr result (Refuses (NoFront (ExpressionFront ConditionalRow depth) self.old.cursor)) }
        ensures height { IfOk result (λ p. p.height ≡ expression_height (expression_of p.tree)) }
        ensures room { IfOk result (λ p. depth + p.height ≤ greatest_height) }
        ensures fewer { IfOk result (λ _. length self.new.cursor < length self.old.cursor) }
    {
        let parsed = self.conditional(None, depth)?;
        Ok(whole(parsed))
    }
}
