//! The rows of statements.
ghost use Rattle.std.specs.Prelude.{◌≡◌, ◌≢◌, ◌⊎◌, ◌+◌, ◌<◌, ◌≤◌, max, false, [], map, Some};
ghost use Rattle.c_syntax.specs.declared.token.Keyword.TheVariants as keyword;
ghost use Rattle.c_syntax.specs.declared.token.Punct.TheVariants as mark;
ghost use Rattle.c_syntax.specs.SyntaxTree.{no_choice, chosen, Block, DoWhile, If, IfElse, While, For, Switch};
ghost use Rattle.c_syntax.specs.Grammar.{ExpressionRow, IsMark};
ghost use Rattle.c_syntax.specs.Derives.{DerivesOptional, DerivesDeclarations, IsTested, IsForHead, DerivesChoices};
ghost use Rattle.c_syntax.specs.Measures.{greatest, expression_height, optional_height, declaration_height, statement_height, statements_height, choices_height, greatest_height};
ghost use Rattle.c_syntax.specs.SyntaxView.{expression_of, optional_of, declaration_of, body_of, part_before};
ghost use Rattle.c_cursor.specs.Front.{mark_at, word_at};
ghost use Rattle.c_statements.specs.StatementFronts.{TestedFront, StatementFront, ReadsStatement, OptionalFront, DoTestFront, ForHeadFront, CaseFront, DefaultFront, PartFront, PartsFront, DeclarationsFront, BodyFront, holds_others, begins_statement};
ghost use Rattle.c_cursor.specs.Takes.{Takes, IsOne, Both};
ghost use Rattle.c_statements.specs.StatementRows.{IsStatement, tree_of, parts_of, IsBody, IsDoEnd};
ghost use Rattle.c_expressions.specs.Parts.{ReadsAny, ReadsPart, ReadsWhole};

use c_declarations::declaration;
use c_expressions::{Parser, Refusal, Tall, add, boxed, ended, kept};
use c_syntax::{Decl, Expr, Keyword, Punct, Stmt, StmtKind, SwitchPart};

/// What stands between the braces of a block.
#[derive(Drop)]
pub struct BlockBody {
    pub declarations: Vec<Decl>,
    pub statements: Vec<Stmt>,
}

/// What stands between the parentheses of a `for`.
#[derive(Drop)]
struct ForHead {
    first: Box<Option<Expr>>,
    test: Box<Option<Expr>>,
    third: Box<Option<Expr>>,
}

// A statement of a kind over parts of a height.
fn over(kind: StmtKind, at: u32, parts: u32) -> Tall<Stmt>
    requires { parts < greatest_height }
    ensures { result ≡ record { tree = record { kind = kind; at = at }; height = parts + 1 } }
{
    Tall {
        tree: Stmt { kind, at },
        height: parts + 1,
    }
}

// The rows `closed` and `open`, under so many nodes. An `else` goes with the innermost `if`.
#[cycle(statements)]
fn statement(parser: &mut Parser<'_>, depth: u32) -> Result<Tall<Stmt>, Refusal>
    requires { depth ≤ greatest_height }
    ensures { ReadsStatement depth parser.old.cursor parser.new.cursor result }
{
    parser.allow(0, depth)?;
    if parser.cursor.stands(Punct::OpenBrace) {
        return inner_block(parser, depth);
    }
    match parser.cursor.keyword() {
        Some(Keyword::Do) => do_loop(parser, depth),
        Some(Keyword::If) => choice(parser, depth),
        Some(Keyword::While) => while_loop(parser, depth),
        Some(Keyword::For) => for_loop(parser, depth),
        Some(Keyword::Switch) => switch(parser, depth),
        _ => simple(parser, depth),
    }
}

// A statement within another. It is kept in its box while the rest of the other is read.
#[cycle(statements)]
fn inner(parser: &mut Parser<'_>, depth: u32) -> Result<Tall<Box<Stmt>>, Refusal>
    requires { depth ≤ greatest_height }
    ensures { ReadsPart (λ t. IsStatement (tree_of t.value) parser.new.cursor) (StatementFront depth) (λ t. statement_height (tree_of t.value)) depth parser.old.cursor parser.new.cursor result }
{
    let read = statement(parser, depth)?;
    boxed(parser.alloc, read)
}

// A statement without other statements in it.
fn simple(parser: &mut Parser<'_>, depth: u32) -> Result<Tall<Stmt>, Refusal>
    requires low { depth < greatest_height }
    requires no_brace { mark_at parser.old.cursor ≢ Some mark.OpenBrace }
    requires no_other { holds_others (word_at parser.old.cursor) ≡ false }
    ensures { ReadsStatement depth parser.old.cursor parser.new.cursor result }
{
    if parser.cursor.stands(Punct::Semicolon) {
        return empty(parser, depth);
    }
    match parser.cursor.keyword() {
        Some(Keyword::Break) => broken(parser, depth),
        Some(Keyword::Continue) => continued(parser, depth),
        Some(Keyword::Return) => returned(parser, depth),
        _ => evaluated(parser, depth),
    }
}

fn empty(parser: &mut Parser<'_>, depth: u32) -> Result<Tall<Stmt>, Refusal>
    requires low { depth < greatest_height }
    requires begun { mark_at parser.old.cursor ≡ Some mark.Semicolon }
    ensures { ReadsStatement depth parser.old.cursor parser.new.cursor result }
{
    let at = parser.cursor.place();
    parser.cursor.expect(Punct::Semicolon)?;
    Ok(over(StmtKind::Empty, at, 0))
}

fn broken(parser: &mut Parser<'_>, depth: u32) -> Result<Tall<Stmt>, Refusal>
    requires low { depth < greatest_height }
    requires begun { word_at parser.old.cursor ≡ Some keyword.Break }
    ensures { ReadsStatement depth parser.old.cursor parser.new.cursor result }
{
    let at = parser.cursor.place();
    parser.cursor.expect_keyword(Keyword::Break)?;
    parser.cursor.expect(Punct::Semicolon)?;
    Ok(over(StmtKind::Break, at, 0))
}

fn continued(parser: &mut Parser<'_>, depth: u32) -> Result<Tall<Stmt>, Refusal>
    requires low { depth < greatest_height }
    requires begun { word_at parser.old.cursor ≡ Some keyword.Continue }
    ensures { ReadsStatement depth parser.old.cursor parser.new.cursor result }
{
    let at = parser.cursor.place();
    parser.cursor.expect_keyword(Keyword::Continue)?;
    parser.cursor.expect(Punct::Semicolon)?;
    Ok(over(StmtKind::Continue, at, 0))
}

fn returned(parser: &mut Parser<'_>, depth: u32) -> Result<Tall<Stmt>, Refusal>
    requires low { depth < greatest_height }
    requires begun { word_at parser.old.cursor ≡ Some keyword.Return }
    ensures { ReadsStatement depth parser.old.cursor parser.new.cursor result }
{
    let at = parser.cursor.place();
    parser.cursor.expect_keyword(Keyword::Return)?;
    let value = optional(parser, Punct::Semicolon, depth + 1)?;
    Ok(over(
        StmtKind::Return(Box::into_inner(value.tree)),
        at,
        value.height,
    ))
}

fn evaluated(parser: &mut Parser<'_>, depth: u32) -> Result<Tall<Stmt>, Refusal>
    requires low { depth < greatest_height }
    requires no_semicolon { mark_at parser.old.cursor ≢ Some mark.Semicolon }
    requires no_brace { mark_at parser.old.cursor ≢ Some mark.OpenBrace }
    requires no_word { begins_statement (word_at parser.old.cursor) ≡ false }
    ensures { ReadsStatement depth parser.old.cursor parser.new.cursor result }
{
    let at = parser.cursor.place();
    parser.allow(1, depth)?;
    let value = parser.whole_expression(depth + 1)?;
    let whole = ended(parser, value, Punct::Semicolon)?;
    Ok(over(StmtKind::Evaluate(whole.tree), at, whole.height))
}

// An expression before a mark, where there is one, and the mark. It is kept in its box while the rest is read.
fn optional(
    parser: &mut Parser<'_>,
    end: Punct,
    depth: u32,
) -> Result<Tall<Box<Option<Expr>>>, Refusal>
    requires low { depth ≤ greatest_height }
    requires ends { (end ≡ mark.Semicolon) ⊎ (end ≡ mark.CloseParen) }
    ensures { ReadsPart (λ t. Both (λ a. DerivesOptional ExpressionRow a (optional_of t.value)) (IsOne (IsMark end))) (OptionalFront end depth) (λ t. optional_height (optional_of t.value)) depth parser.old.cursor parser.new.cursor result }
{
    if parser.cursor.take(end) {
        let empty = kept(parser.alloc, None)?;
        return Ok(Tall {
            tree: empty,
            height: 0,
        });
    }
    parser.allow(0, depth)?;
    let value = parser.whole_expression(depth)?;
    let tree = kept(parser.alloc, Some(value.tree))?;
    parser.cursor.expect(end)?;
    Ok(Tall {
        tree,
        height: value.height,
    })
}

// `(`, an expression and `)`. It is kept in its box while the rest of the statement is read.
fn tested(parser: &mut Parser<'_>, depth: u32) -> Result<Tall<Box<Expr>>, Refusal>
    requires { depth ≤ greatest_height }
    ensures { ReadsWhole (λ t all. IsTested [] all (expression_of t.value)) (TestedFront depth) (λ t. expression_height (expression_of t.value)) depth parser.old.cursor parser.new.cursor result }
{
    parser.cursor.expect(Punct::OpenParen)?;
    parser.allow(0, depth)?;
    let test = parser.whole_expression(depth)?;
    let tested = boxed(parser.alloc, test)?;
    let whole = ended(parser, tested, Punct::CloseParen)?;
    Ok(whole)
}

#[cycle(statements)]
fn do_loop(parser: &mut Parser<'_>, depth: u32) -> Result<Tall<Stmt>, Refusal>
    requires low { depth < greatest_height }
    requires begun { word_at parser.old.cursor ≡ Some keyword.Do }
    ensures { ReadsStatement depth parser.old.cursor parser.new.cursor result }
{
    let at = parser.cursor.place();
    parser.allow(1, depth)?;
    parser.cursor.expect_keyword(Keyword::Do)?;
    let body = inner(parser, depth + 1)?;
    let test = do_test(parser, depth + 1)?;
    Ok(do_over(at, body, test))
}

// `while`, a test and `;` behind the body of a `do`.
fn do_test(parser: &mut Parser<'_>, depth: u32) -> Result<Tall<Box<Expr>>, Refusal>
    requires { depth ≤ greatest_height }
    ensures { ReadsPart (λ t. IsDoEnd (expression_of t.value)) (DoTestFront depth) (λ t. expression_height (expression_of t.value)) depth parser.old.cursor parser.new.cursor result }
{
    parser.cursor.expect_keyword(Keyword::While)?;
    let test = tested(parser, depth)?;
    let whole = ended(parser, test, Punct::Semicolon)?;
    Ok(whole)
}

fn do_over(at: u32, body: Tall<Box<Stmt>>, test: Tall<Box<Expr>>) -> Tall<Stmt>
    requires body_low { body.height < greatest_height }
    requires test_low { test.height < greatest_height }
    ensures tree { tree_of result.tree ≡ DoWhile (tree_of body.tree.value) (expression_of test.tree.value) at }
    ensures height { result.height ≡ 1 + max body.height test.height }
{
    let kind = StmtKind::Do {
        body: body.tree,
        test: Box::into_inner(test.tree),
    };
    over(kind, at, body.height.max(test.height))
}

// An `if`, and its `else` where one stands behind it.
#[cycle(statements)]
fn choice(parser: &mut Parser<'_>, depth: u32) -> Result<Tall<Stmt>, Refusal>
    requires low { depth < greatest_height }
    requires begun { word_at parser.old.cursor ≡ Some keyword.If }
    ensures { ReadsStatement depth parser.old.cursor parser.new.cursor result }
{
    let at = parser.cursor.place();
    parser.allow(1, depth)?;
    parser.cursor.expect_keyword(Keyword::If)?;
    let test = tested(parser, depth + 1)?;
    let yes = inner(parser, depth + 1)?;
    if !parser.cursor.takes_else() {
        return Ok(if_alone(at, test, yes));
    }
    let no = inner(parser, depth + 1)?;
    Ok(if_else(at, test, yes, no))
}

fn if_alone(at: u32, test: Tall<Box<Expr>>, yes: Tall<Box<Stmt>>) -> Tall<Stmt>
    requires test_low { test.height < greatest_height }
    requires yes_low { yes.height < greatest_height }
    ensures tree { tree_of result.tree ≡ If (expression_of test.tree.value) (tree_of yes.tree.value) at }
    ensures height { result.height ≡ 1 + max test.height yes.height }
{
    let kind = StmtKind::If {
        test: Box::into_inner(test.tree),
        yes: yes.tree,
    };
    over(kind, at, test.height.max(yes.height))
}

fn if_else(at: u32, test: Tall<Box<Expr>>, yes: Tall<Box<Stmt>>, no: Tall<Box<Stmt>>) -> Tall<Stmt>
    requires test_low { test.height < greatest_height }
    requires yes_low { yes.height < greatest_height }
    requires no_low { no.height < greatest_height }
    ensures tree { tree_of result.tree ≡ IfElse (expression_of test.tree.value) (tree_of yes.tree.value) (tree_of no.tree.value) at }
    ensures height { result.height ≡ 1 + max test.height (max yes.height no.height) }
{
    let parts = test.height.max(yes.height.max(no.height));
    let kind = StmtKind::IfElse {
        test: Box::into_inner(test.tree),
        yes: yes.tree,
        no: no.tree,
    };
    over(kind, at, parts)
}

#[cycle(statements)]
fn while_loop(parser: &mut Parser<'_>, depth: u32) -> Result<Tall<Stmt>, Refusal>
    requires low { depth < greatest_height }
    requires begun { word_at parser.old.cursor ≡ Some keyword.While }
    ensures { ReadsStatement depth parser.old.cursor parser.new.cursor result }
{
    let at = parser.cursor.place();
    parser.allow(1, depth)?;
    parser.cursor.expect_keyword(Keyword::While)?;
    let test = tested(parser, depth + 1)?;
    let body = inner(parser, depth + 1)?;
    Ok(while_over(at, test, body))
}

fn while_over(at: u32, test: Tall<Box<Expr>>, body: Tall<Box<Stmt>>) -> Tall<Stmt>
    requires test_low { test.height < greatest_height }
    requires body_low { body.height < greatest_height }
    ensures tree { tree_of result.tree ≡ While (expression_of test.tree.value) (tree_of body.tree.value) at }
    ensures height { result.height ≡ 1 + max test.height body.height }
{
    let kind = StmtKind::While {
        test: Box::into_inner(test.tree),
        body: body.tree,
    };
    over(kind, at, test.height.max(body.height))
}

#[cycle(statements)]
fn for_loop(parser: &mut Parser<'_>, depth: u32) -> Result<Tall<Stmt>, Refusal>
    requires low { depth < greatest_height }
    requires begun { word_at parser.old.cursor ≡ Some keyword.For }
    ensures { ReadsStatement depth parser.old.cursor parser.new.cursor result }
{
    let at = parser.cursor.place();
    parser.allow(1, depth)?;
    let head = for_head(parser, depth + 1)?;
    let body = inner(parser, depth + 1)?;
    Ok(for_over(at, head, body))
}

// `for` and what stands between its parentheses.
fn for_head(parser: &mut Parser<'_>, depth: u32) -> Result<Tall<ForHead>, Refusal>
    requires { depth ≤ greatest_height }
    ensures { ReadsPart (λ t all. IsForHead all (optional_of t.first.value) (optional_of t.test.value) (optional_of t.third.value)) (ForHeadFront depth) (λ t. max (optional_height (optional_of t.first.value)) (max (optional_height (optional_of t.test.value)) (optional_height (optional_of t.third.value)))) depth parser.old.cursor parser.new.cursor result }
{
    parser.cursor.expect_keyword(Keyword::For)?;
    parser.cursor.expect(Punct::OpenParen)?;
    let first = optional(parser, Punct::Semicolon, depth)?;
    let test = optional(parser, Punct::Semicolon, depth)?;
    let third = optional(parser, Punct::CloseParen, depth)?;
    Ok(Tall {
        tree: ForHead {
            first: first.tree,
            test: test.tree,
            third: third.tree,
        },
        height: first.height.max(test.height.max(third.height)),
    })
}

fn for_over(at: u32, head: Tall<ForHead>, body: Tall<Box<Stmt>>) -> Tall<Stmt>
    requires head_low { head.height < greatest_height }
    requires body_low { body.height < greatest_height }
    ensures tree { tree_of result.tree ≡ For (optional_of head.tree.first.value) (optional_of head.tree.test.value) (optional_of head.tree.third.value) (tree_of body.tree.value) at }
    ensures height { result.height ≡ 1 + max head.height body.height }
{
    let kind = StmtKind::For {
        first: Box::into_inner(head.tree.first),
        test: Box::into_inner(head.tree.test),
        third: Box::into_inner(head.tree.third),
        body: body.tree,
    };
    over(kind, at, head.height.max(body.height))
}

#[cycle(statements)]
fn switch(parser: &mut Parser<'_>, depth: u32) -> Result<Tall<Stmt>, Refusal>
    requires low { depth < greatest_height }
    requires begun { word_at parser.old.cursor ≡ Some keyword.Switch }
    ensures { ReadsStatement depth parser.old.cursor parser.new.cursor result }
{
    let at = parser.cursor.place();
    parser.allow(1, depth)?;
    parser.cursor.expect_keyword(Keyword::Switch)?;
    let value = tested(parser, depth + 1)?;
    let parts_at = parser.cursor.place();
    parser.cursor.expect(Punct::OpenBrace)?;
    let parts = switch_parts(parser, depth + 1)?;
    let highest = value.height.max(parts.height);
    Ok(switch_over(at, value.tree, parts.tree, parts_at, highest))
}

// The row `choices` behind its `{`, and `}`.
#[cycle(statements)]
fn switch_parts(parser: &mut Parser<'_>, depth: u32) -> Result<Tall<Vec<SwitchPart>>, Refusal>
    requires { depth < greatest_height }
    ensures { ReadsPart (λ t. Both (λ a. DerivesChoices a (parts_of t.items)) (IsOne (IsMark mark.CloseBrace))) (PartsFront depth) (λ t. 1 + choices_height (parts_of t.items)) depth parser.old.cursor parser.new.cursor result }
{
    let mut parts = Vec::new(parser.alloc);
    let mut highest = 0u32;
    while !parser.cursor.take(Punct::CloseBrace) {
        let part = switch_part(parser, depth + 1)?;
        highest = highest.max(part.height);
        add(&mut parts, part.tree)?;
    }
    Ok(Tall {
        tree: parts,
        height: highest + 1,
    })
}

// A label or a statement.
#[cycle(statements)]
fn switch_part(parser: &mut Parser<'_>, depth: u32) -> Result<Tall<SwitchPart>, Refusal>
    requires { depth ≤ greatest_height }
    ensures { ReadsWhole (λ t a. DerivesChoices a (part_before t no_choice)) (PartFront depth) (λ t. choices_height (part_before t no_choice)) depth parser.old.cursor parser.new.cursor result }
{
    if parser.cursor.stands_word(Keyword::Default) {
        return default_label(parser, depth);
    }
    if parser.cursor.stands_word(Keyword::Case) {
        return case_label(parser, depth);
    }
    let statement = statement(parser, depth)?;
    Ok(part_over(statement))
}

fn default_label(parser: &mut Parser<'_>, depth: u32) -> Result<Tall<SwitchPart>, Refusal>
    requires { depth ≤ greatest_height }
    ensures { ReadsWhole (λ t a. DerivesChoices a (part_before t no_choice)) DefaultFront (λ t. choices_height (part_before t no_choice)) depth parser.old.cursor parser.new.cursor result }
{
    parser.cursor.expect_keyword(Keyword::Default)?;
    parser.cursor.expect(Punct::Colon)?;
    Ok(Tall {
        tree: SwitchPart::Default,
        height: 0,
    })
}

fn case_label(parser: &mut Parser<'_>, depth: u32) -> Result<Tall<SwitchPart>, Refusal>
    requires { depth ≤ greatest_height }
    ensures { ReadsWhole (λ t a. DerivesChoices a (part_before t no_choice)) (CaseFront depth) (λ t. choices_height (part_before t no_choice)) depth parser.old.cursor parser.new.cursor result }
{
    parser.allow(0, depth)?;
    parser.cursor.expect_keyword(Keyword::Case)?;
    let value = parser.whole_conditional(depth)?;
    let whole = ended(parser, value, Punct::Colon)?;
    Ok(Tall {
        tree: SwitchPart::Case(whole.tree),
        height: whole.height,
    })
}

// A block within another statement.
#[cycle(statements)]
fn inner_block(parser: &mut Parser<'_>, depth: u32) -> Result<Tall<Stmt>, Refusal>
    requires low { depth < greatest_height }
    requires begun { mark_at parser.old.cursor ≡ Some mark.OpenBrace }
    ensures { ReadsStatement depth parser.old.cursor parser.new.cursor result }
{
    let at = parser.cursor.place();
    parser.cursor.expect(Punct::OpenBrace)?;
    let body = body(parser, depth)?;
    Ok(block_over(at, body))
}

/// What stands behind the `{` of a block under so many nodes, and `}`. The height is the block's.
#[cycle(statements)]
pub fn body(parser: &mut Parser<'_>, depth: u32) -> Result<Tall<BlockBody>, Refusal>
    requires { depth < greatest_height }
    ensures { ReadsPart (λ t. IsBody (map declaration_of t.declarations.items) (body_of t.statements.items)) (BodyFront depth) (λ t. 1 + max (greatest (map declaration_height (map declaration_of t.declarations.items))) (statements_height (body_of t.statements.items))) depth parser.old.cursor parser.new.cursor result }
{
    let declarations = declarations(parser, depth + 1)?;
    let mut highest = declarations.height;
    let mut statements = Vec::new(parser.alloc);
    while !parser.cursor.take(Punct::CloseBrace) {
        let next = statement(parser, depth + 1)?;
        highest = highest.max(next.height);
        add(&mut statements, next.tree)?;
    }
    Ok(Tall {
        tree: BlockBody {
            declarations: declarations.tree,
            statements,
        },
        height: highest + 1,
    })
}

// The declarations at the front of a block.
fn declarations(parser: &mut Parser<'_>, depth: u32) -> Result<Tall<Vec<Decl>>, Refusal>
    requires { depth ≤ greatest_height }
    ensures { ReadsAny (λ t all. DerivesDeclarations all (map declaration_of t.items)) (DeclarationsFront depth) (λ t. greatest (map declaration_height (map declaration_of t.items))) depth parser.old.cursor parser.new.cursor result }
{
    let mut declarations = Vec::new(parser.alloc);
    let mut highest = 0u32;
    while parser.cursor.spec_word().is_some() {
        parser.allow(2, depth)?;
        let next = declaration(parser, depth)?;
        highest = highest.max(next.height);
        add(&mut declarations, next.tree)?;
    }
    Ok(Tall {
        tree: declarations,
        height: highest,
    })
}

fn switch_over(
    at: u32,
    value: Box<Expr>,
    parts: Vec<SwitchPart>,
    parts_at: u32,
    highest: u32,
) -> Tall<Stmt>
    requires { highest < greatest_height }
    ensures tree { tree_of result.tree ≡ Switch (expression_of value.value) (parts_of parts.items) parts_at at }
    ensures height { result.height ≡ 1 + highest }
{
    let kind = StmtKind::Switch {
        value: Box::into_inner(value),
        parts,
        parts_at,
    };
    over(kind, at, highest)
}

fn part_over(statement: Tall<Stmt>) -> Tall<SwitchPart>
    ensures tree { part_before result.tree no_choice ≡ chosen (tree_of statement.tree) no_choice }
    ensures height { result.height ≡ statement.height }
{
    Tall {
        tree: SwitchPart::Body(statement.tree),
        height: statement.height,
    }
}

fn block_over(at: u32, body: Tall<BlockBody>) -> Tall<Stmt>
    ensures tree { tree_of result.tree ≡ Block (map declaration_of body.tree.declarations.items) (body_of body.tree.statements.items) at }
    ensures height { result.height ≡ body.height }
{
    let kind = StmtKind::Block {
        declarations: body.tree.declarations,
        statements: body.tree.statements,
    };
    Tall {
        tree: Stmt { kind, at },
        height: body.height,
    }
}
