//! What the parts of the parser share: where it stands, and how high a tree may be.
ghost use Rattle.std.specs.Prelude.{◌≡◌, ◌↔◌, ◌+◌, ◌<◌, ◌≤◌, ◌^◌, ◌++◌, ◌∷◌, [], max, true, length, IfOk, IfErr, None};
ghost use Rattle.c_syntax.specs.Measures.{greatest_height};
ghost use Rattle.c_syntax.specs.SyntaxView.{form_of, specs_of, type_of};
ghost use Rattle.c_cursor.specs.declared.fault.Refusal.TheVariants as refusals;
ghost use Rattle.c_expressions.specs.Parses.{IsNode, ReadsSpecs, ReadsStars, ReadsType};
ghost use Rattle.c_cursor.specs.Refusals.{Refuses};
ghost use Rattle.c_syntax.specs.Lookahead.{spec_of};

use crate::steps::{add, kept};
use c_cursor::{Cursor, Refusal};
use c_syntax::{Expr, ExprKind, GREATEST_HEIGHT, Punct, SpecWord, Specs, Token, TypeName};
use std::alloc::Global;
use word_base::Items;

/// A parser in the middle of its tokens.
#[derive(Drop)]
pub struct Parser<'a> {
    /// Where trees lie.
    pub alloc: Global,
    /// The tokens that are left.
    pub cursor: Cursor<'a>,
}

/// A part of a tree, with its height.
#[derive(Drop)]
pub struct Tall<T> {
    pub tree: T,
    pub height: u32,
}

/// An expression that was read. Its tree waits in a box: little is moved then, and a proof needn't open it where it is dropped.
#[derive(Drop)]
pub(crate) struct Parsed {
    pub(crate) tree: Box<Expr>,
    pub(crate) height: u32,
    /// The place of its first token, which may be a parenthesis.
    pub(crate) at: u32,
    /// Whether the row `unary` has it, so that it may stand before `=`.
    pub(crate) is_unary: bool,
}

/// The arguments of a call.
#[derive(Drop)]
pub(crate) struct Arguments {
    pub(crate) list: Vec<Expr>,
    /// The height of the highest, or 0 where there is none.
    pub(crate) height: u32,
}

impl Arguments {
    /// Puts one behind the others.
    pub(crate) fn add(&mut self, next: Parsed) -> Result<(), Refusal>
        ensures items { IfOk result (λ _. self.new.list.items ≡ self.old.list.items ++ next.tree.value ∷ []) }
        ensures height { self.new.height ≡ max self.old.height next.height }
        ensures memory { IfErr result (λ f. f ≡ refusals.NoMemory) }
    {
        self.height = self.height.max(next.height);
        add(&mut self.list, Box::into_inner(next.tree))
    }
}

impl Parsed {
    /// A node over parts of this height.
    pub(crate) fn node(
        alloc: Global,
        kind: ExprKind,
        parts: u32,
        at: u32,
        is_unary: bool,
    ) -> Result<Self, Refusal>
        requires { parts < greatest_height }
        ensures node { IfOk result (IsNode (form_of kind) at is_unary parts) }
        ensures memory { IfErr result (λ f. f ≡ refusals.NoMemory) }
    {
        let tree = kept(alloc, Expr { kind, at })?;
        Ok(Parsed {
            tree,
            height: parts + 1,
            at,
            is_unary,
        })
    }

    /// Puts it in parentheses, of which the first stands there.
    pub(crate) fn enclose(&mut self, at: u32)
        ensures { self.new ≡ record { tree = self.old.tree; height = self.old.height; at = at; is_unary = true } }
    {
        self.at = at;
        self.is_unary = true;
    }
}

impl<'a> Parser<'a> {
    /// A parser before its tokens.
    pub fn new(alloc: Global, tokens: &'a [Token]) -> Self
        requires { length tokens.now < 2 ^ 32 }
        ensures { result.cursor ≡ tokens.now }
    {
        Parser {
            alloc,
            cursor: Cursor::new(tokens),
        }
    }

    /// Whether a node over parts of this height may stand under `depth` nodes. It is refused at the next token where the whole
    /// tree would be too high.
    pub fn allow(&self, parts: u32, depth: u32) -> Result<(), Refusal>
        ensures low { IfOk result (λ _. depth + parts + 1 ≤ greatest_height) }
        ensures refused { IfErr result (λ _. greatest_height < depth + parts + 1) }
    {
        if parts < GREATEST_HEIGHT && depth < GREATEST_HEIGHT - parts {
            Ok(())
        } else {
            Err(self.cursor.refused())
        }
    }

    /// The words of a type, one or more.
    #[tactic(auto, using(crate::proofs::Words::spec_some, crate::proofs::Words::specs_done))]
    pub(crate) fn specs(&mut self) -> Result<Specs, Refusal>
        ensures read { IfOk result (λ specs. ReadsSpecs self.old.cursor (specs_of specs) self.new.cursor) }
        ensures refused { IfErr result (Refuses (spec_of self.old.cursor ≡ None)) }
    {
        let at = self.cursor.place();
        let mut words: Vec<SpecWord> = Vec::new(self.alloc);
        while let Some(word) = self.cursor.spec_word() {
            self.cursor.skip();
            words.push(word)?;
        }
        if words.is_empty() {
            return Err(self.cursor.refused());
        }
        Ok(Specs {
            words: Items::new(words),
            at,
        })
    }

    /// How many stars stand next.
    #[tactic(auto, using(crate::proofs::Words::mark_some, crate::proofs::Words::no_stars, crate::proofs::Words::stars_more, crate::proofs::Words::stars_done))]
    pub(crate) fn stars(&mut self) -> u32
        ensures { ReadsStars self.old.cursor result self.new.cursor }
    {
        let all = self.cursor.left();
        while self.cursor.take(Punct::Star) {}
        all - self.cursor.left()
    }

    pub(crate) fn type_name(&mut self) -> Result<TypeName, Refusal>
        ensures read { IfOk result (λ tree. ReadsType self.old.cursor (type_of tree) self.new.cursor) }
        ensures refused { IfErr result (Refuses (spec_of self.old.cursor ≡ None)) }
    {
        let specs = self.specs()?;
        let stars = self.stars();
        Ok(TypeName { specs, stars })
    }
}
