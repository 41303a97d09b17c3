//! Whole sources.
ghost use Rattle.std.specs.Prelude.{◌≡◌, ◌+◌, ◌<◌, ◌≤◌, length, All, IfOk, IfErr};
ghost use Rattle.c_syntax.specs.Lexes.{most_tokens};
ghost use Rattle.c_syntax.specs.TokenSpellings.{HasSpelling};
ghost use Rattle.c_syntax.specs.Derives.{DerivesSpecs, DerivesExternal};
ghost use Rattle.c_syntax.specs.Measures.{parameters_height, item_form_height, external_height, greatest_height};
ghost use Rattle.c_syntax.specs.SyntaxView.{specs_of, parameters_of, item_form_of, external_of, unit_of};
ghost use Rattle.c_syntax.specs.declared.decl.ItemKind.TheVariants as functions;
ghost use Rattle.c_syntax.specs.Source.{IsSource, NoSource, IsPlace, end_of};
ghost use Rattle.c_parser.specs.ParseFaults.{Says};
ghost use Rattle.c_cursor.specs.Refusals.{Refuses};
ghost use Rattle.c_cursor.specs.Takes.{Both, Behind};
ghost use Rattle.c_declarations.specs.DeclarationRows.{IsItemFront};
ghost use Rattle.c_parser.specs.UnitFronts.{ExternalFront, IsListed, ListedFront, DeclarationEnd, FunctionEnd, IsFunctionHead};
ghost use Rattle.c_expressions.specs.Parts.{ReadsPart};

use crate::fault::ParseFault;
use c_declarations::{declaration_from, item_from, item_kind, name, params};
use c_expressions::{Parser, Refusal, Tall, add, ended};
use c_statements::body;
use c_syntax::{External, FunctionDef, ItemKind, Params, Punct, Specs, Token, Unit};
use std::alloc::Global;
use word_base::{Items, Text};

/// The nodes over an external: the unit.
const OVER_EXTERNAL: u32 = 1;

// The row `external`: a function where a body follows its parameters.
fn external(parser: &mut Parser<'_>) -> Result<Tall<External>, Refusal>
    ensures { ReadsPart (λ t all. DerivesExternal all (external_of t)) ExternalFront (λ t. external_height (external_of t)) 1 parser.old.cursor parser.new.cursor result }
{
    let specs = parser.whole_specs()?;
    let item_at = parser.cursor.place();
    let stars = parser.whole_stars();
    let name = name(parser)?;
    if !parser.cursor.stands(Punct::OpenParen) {
        let kind = item_kind(parser, OVER_EXTERNAL + 2)?;
        return declared(parser, specs, item_at, stars, name, kind);
    }
    let params = listed(parser, OVER_EXTERNAL + 1)?;
    if parser.cursor.stands(Punct::OpenBrace) {
        return function(parser, specs, stars, name, params);
    }
    parser.allow(params.height, OVER_EXTERNAL + 1)?;
    declared(parser, specs, item_at, stars, name, function_kind(params))
}

// Parameters in their parentheses.
fn listed(parser: &mut Parser<'_>, depth: u32) -> Result<Tall<Params>, Refusal>
    requires { depth ≤ greatest_height }
    ensures { ReadsPart (λ t all. IsListed all (parameters_of t)) (ListedFront depth) (λ t. parameters_height (parameters_of t)) depth parser.old.cursor parser.new.cursor result }
{
    parser.cursor.expect(Punct::OpenParen)?;
    let params = params(parser, depth)?;
    let whole = ended(parser, params, Punct::CloseParen)?;
    Ok(whole)
}

// A declaration, behind the form of its first item.
fn declared(
    parser: &mut Parser<'_>,
    specs: Specs,
    item_at: u32,
    stars: u32,
    name: Text,
    kind: Tall<ItemKind>,
) -> Result<Tall<External>, Refusal>
    requires kind_height { kind.height ≡ item_form_height (item_form_of kind.tree) }
    requires kind_room { 3 + kind.height ≤ greatest_height }
    ensures { ReadsPart (λ t. Behind (Both (λ a. DerivesSpecs a (specs_of specs)) (IsItemFront stars name (item_form_of kind.tree) item_at)) (λ all. DerivesExternal all (external_of t))) DeclarationEnd (λ t. external_height (external_of t)) 1 parser.old.cursor parser.new.cursor result }
{
    let first = item_from(parser, item_at, stars, name, kind, OVER_EXTERNAL + 1)?;
    let declaration = declaration_from(parser, specs, first, OVER_EXTERNAL)?;
    Ok(Tall {
        tree: External::Declaration(declaration.tree),
        height: declaration.height,
    })
}

// A function, behind its parameters. It stands where its specs do.
fn function(
    parser: &mut Parser<'_>,
    specs: Specs,
    stars: u32,
    name: Text,
    params: Tall<Params>,
) -> Result<Tall<External>, Refusal>
    requires params_height { params.height ≡ parameters_height (parameters_of params.tree) }
    requires params_room { 2 + params.height ≤ greatest_height }
    ensures { ReadsPart (λ t. Behind (IsFunctionHead (specs_of specs) stars name (parameters_of params.tree)) (λ all. DerivesExternal all (external_of t))) FunctionEnd (λ t. external_height (external_of t)) 1 parser.old.cursor parser.new.cursor result }
{
    let at = specs.at;
    let body_at = parser.cursor.place();
    parser.cursor.expect(Punct::OpenBrace)?;
    let body = body(parser, OVER_EXTERNAL + 1)?;
    let parts = params.height.max(body.height);
    Ok(Tall {
        tree: External::Function(FunctionDef {
            specs,
            stars,
            name,
            params: params.tree,
            declarations: Items::new(body.tree.declarations),
            statements: Items::new(body.tree.statements),
            body_at,
            at,
        }),
        height: parts + 1,
    })
}
// What stands behind the name of a declared function.
fn function_kind(params: Tall<Params>) -> Tall<ItemKind>
    ensures { result ≡ record { tree = functions.Function params.tree; height = params.height } }
{
    Tall {
        tree: ItemKind::Function(params.tree),
        height: params.height,
    }
}

// The row `unit` over all tokens.
fn unit(alloc: Global, tokens: &[Token]) -> Result<Unit, Refusal>
    requires few { length tokens.now ≤ most_tokens }
    requires spelled { All (λ t. HasSpelling t.kind) tokens.now }
    ensures tree { IfOk result (λ u. IsSource tokens.now (unit_of u)) }
    ensures refused { IfErr result (Refuses (NoSource tokens.now)) }
{
    let mut parser = Parser::new(alloc, tokens);
    let first = external(&mut parser)?;
    let mut highest = first.height;
    let mut externals = Vec::new(alloc);
    add(&mut externals, first.tree)?;
    while !parser.cursor.is_at_end() {
        let next = external(&mut parser)?;
        highest = highest.max(next.height);
        add(&mut externals, next.tree)?;
    }
    Ok(Unit::new(externals))
}

// Where the tokens end, in bytes, or 0 where there is none.
fn end(tokens: &[Token]) -> u32
    ensures { result ≡ end_of tokens.now }
{
    match tokens.split_last() {
        Some((token, _)) => token.at.saturating_add(token.len),
        None => 0,
    }
}

// The place of the first of so many tokens that are left, or the end of all where none is.
fn place(tokens: &[Token], left: u32) -> u32
    ensures { IsPlace tokens.now result }
{
    let passed = tokens.len().saturating_sub(left as usize);
    let (_, rest) = tokens.split_at(passed);
    match rest.split_first() {
        Some((token, _)) => token.at,
        None => end(tokens),
    }
}

/// The tree of a list of tokens such as a text has, which the row `unit` derives and which is at most 200 high (docs/LANGUAGE.md, "Grammar").
/// Tokens that have no such tree are refused: at the first token with which none can go on, or at the end of the last one.
pub fn parse(alloc: Global, tokens: &[Token]) -> Result<Unit, ParseFault>
    requires few { length tokens.now ≤ most_tokens }
    requires spelled { All (λ t. HasSpelling t.kind) tokens.now }
    ensures tree { IfOk result (λ u. IsSource tokens.now (unit_of u)) }
    ensures refused { IfErr result (Says tokens.now) }
{
    match unit(alloc, tokens) {
        Ok(unit) => Ok(unit),
        Err(Refusal::Syntax { left }) => Err(ParseFault::Syntax {
            at: place(tokens, left),
        }),
        Err(Refusal::NoMemory) => Err(ParseFault::NoMemory),
    }
}
