//! The rows of declarations: items, parameters and initialisers.
ghost use Rattle.std.specs.Prelude.{◌≡◌, ◌+◌, ◌<◌, ◌≤◌, Some, length, map, IfOk, IfErr};
ghost use Rattle.c_syntax.specs.declared.token.Punct.TheVariants as mark;
ghost use Rattle.c_syntax.specs.SyntaxTree.{Braced};
ghost use Rattle.c_syntax.specs.Grammar.{ConditionalRow, IsMark, place_of};
ghost use Rattle.c_syntax.specs.Derives.{IsNameToken, DerivesSpecs, DerivesOptional, DerivesList, DerivesInitial, DerivesArray, DerivesArrayMark, DerivesName, DerivesParameter, DerivesParameterList, DerivesParameters, DerivesForm, DerivesInitialiser, DerivesItem, DerivesItems, DerivesDeclaration, IsLastComma};
ghost use Rattle.c_syntax.specs.Measures.{greatest, expression_height, optional_height, array_height, parameter_height, parameters_height, item_form_height, initial_height, item_height, declaration_height, greatest_height};
ghost use Rattle.c_syntax.specs.SyntaxView.{specs_of, expression_of, brackets_of, array_of, parameter_of, parameters_of, item_form_of, initial_of, item_of, declaration_of};
ghost use Rattle.c_expressions.specs.Fronts.{NoFront, OnlyTo, Then, One};
ghost use Rattle.c_declarations.specs.DeclarationFronts.{DeclarationFront, ItemFront, FormFront, ArrayFront, LengthFront, InitialiserFront, BracedFront, ValuesFront, ParametersFront, ParameterListFront, ParameterFront, NameFront, ArrayMarkFront, IsAnyName, MoreItems};
ghost use Rattle.c_cursor.specs.Refusals.{Refuses};
ghost use Rattle.c_cursor.specs.Takes.{Takes, IsOne, Both, Behind};
ghost use Rattle.c_declarations.specs.DeclarationRows.{IsItemFront};
ghost use Rattle.c_expressions.specs.Parts.{ReadsAny, ReadsPart, ReadsWhole};

use c_expressions::{Parser, Refusal, Tall, add, both, ended, separated};
use c_syntax::{Brackets, Decl, Expr, Init, Item, ItemKind, Keyword, Param, Params, Punct, Specs};
use word_base::{Items, Text};

/// The height of the row `specs` and of the row `stars`.
const LEAF: u32 = 1;

/// The row `declaration`, under so many nodes.
pub fn declaration(parser: &mut Parser<'_>, depth: u32) -> Result<Tall<Decl>, Refusal>
    requires { depth + 2 < greatest_height }
    ensures { ReadsPart (λ t all. DerivesDeclaration all (declaration_of t)) (DeclarationFront depth) (λ t. declaration_height (declaration_of t)) depth parser.old.cursor parser.new.cursor result }
{
    let specs = parser.whole_specs()?;
    let first = item(parser, depth + 1)?;
    declaration_from(parser, specs, first, depth)
}

/// The row `declaration` behind its first item.
pub fn declaration_from(
    parser: &mut Parser<'_>,
    specs: Specs,
    first: Tall<Item>,
    depth: u32,
) -> Result<Tall<Decl>, Refusal>
    requires low { depth + 2 < greatest_height }
    requires first_height { first.height ≡ item_height (item_of first.tree) }
    requires first_room { depth + 1 + first.height ≤ greatest_height }
    ensures { ReadsPart (λ t. Behind (Both (λ a. DerivesSpecs a (specs_of specs)) (λ a. DerivesItem a (item_of first.tree))) (λ all. DerivesDeclaration all (declaration_of t))) (Then (MoreItems (depth + 1)) (One (IsMark mark.Semicolon))) (λ t. declaration_height (declaration_of t)) depth parser.old.cursor parser.new.cursor result }
{
    let at = specs.at;
    let items = items_from(parser, first, depth + 1)?;
    parser.cursor.expect(Punct::Semicolon)?;
    Ok(Tall {
        tree: Decl {
            specs,
            items: Items::new(items.tree),
            at,
        },
        height: items.height + 1,
    })
}

// The items of a declaration behind its first.
fn items_from(
    parser: &mut Parser<'_>,
    first: Tall<Item>,
    depth: u32,
) -> Result<Tall<Vec<Item>>, Refusal>
    requires low { depth + 1 < greatest_height }
    requires first_height { first.height ≡ item_height (item_of first.tree) }
    requires first_room { depth + first.height ≤ greatest_height }
    ensures tree { IfOk result (λ p. Takes (Behind (λ a. DerivesItem a (item_of first.tree)) (λ all. DerivesItems all (map item_of p.tree.items))) parser.old.cursor parser.new.cursor) }
    ensures height { IfOk result (λ p. p.height ≡ greatest (map item_height (map item_of p.tree.items))) }
    ensures high { IfOk result (λ p. 1 ≤ p.height) }
    ensures room { IfOk result (λ p. depth + p.height ≤ greatest_height) }
    ensures no_more { IfOk result (λ _. length parser.new.cursor ≤ length parser.old.cursor) }
    ensures only { IfOk result (λ _. OnlyTo (MoreItems depth) parser.old.cursor parser.new.cursor) }
    ensures refused { IfErr result (Refuses (NoFront (MoreItems depth) parser.old.cursor)) }
{
    let mut highest = first.height;
    let mut items = Vec::new(parser.alloc);
    add(&mut items, first.tree)?;
    while parser.cursor.take(Punct::Comma) {
        let next = item(parser, depth)?;
        highest = highest.max(next.height);
        add(&mut items, next.tree)?;
    }
    Ok(Tall {
        tree: items,
        height: highest,
    })
}

// The row `item`.
fn item(parser: &mut Parser<'_>, depth: u32) -> Result<Tall<Item>, Refusal>
    requires { depth + 1 < greatest_height }
    ensures { ReadsWhole (λ t all. DerivesItem all (item_of t)) (ItemFront depth) (λ t. item_height (item_of t)) depth parser.old.cursor parser.new.cursor result }
{
    let at = parser.cursor.place();
    let stars = parser.whole_stars();
    let name = name(parser)?;
    let kind = item_kind(parser, depth + 1)?;
    item_from(parser, at, stars, name, kind, depth)
}

/// A name.
pub fn name(parser: &mut Parser<'_>) -> Result<Text, Refusal>
    ensures tree { IfOk result (λ name. Takes (IsOne (IsNameToken name)) parser.old.cursor parser.new.cursor) }
    ensures fewer { IfOk result (λ _. length parser.new.cursor < length parser.old.cursor) }
    ensures refused { IfErr result (Refuses (NoFront (One IsAnyName) parser.old.cursor)) }
{
    match parser.cursor.take_name() {
        Ok(name) => Ok(Text::copy_of(parser.alloc, name)?),
        Err(fault) => Err(fault),
    }
}

/// The row `item` behind its name and what follows it. The item stands at its first star, or else at its name.
pub fn item_from(
    parser: &mut Parser<'_>,
    at: u32,
    stars: u32,
    name: Text,
    kind: Tall<ItemKind>,
    depth: u32,
) -> Result<Tall<Item>, Refusal>
    requires low { depth + 1 < greatest_height }
    requires kind_height { kind.height ≡ item_form_height (item_form_of kind.tree) }
    requires kind_room { depth + 1 + kind.height ≤ greatest_height }
    ensures { ReadsAny (λ t. Behind (IsItemFront stars name (item_form_of kind.tree) at) (λ all. DerivesItem all (item_of t))) (InitialiserFront (depth + 1)) (λ t. item_height (item_of t)) depth parser.old.cursor parser.new.cursor result }
{
    let init = initialiser(parser, depth + 1);
    let both = both(kind, init)?;
    let parts = LEAF.max(both.0.height).max(both.1.height);
    Ok(Tall {
        tree: Item {
            stars,
            name,
            kind: both.0.tree,
            init: both.1.tree,
            at,
        },
        height: parts + 1,
    })
}

/// What stands behind the name of an item, if anything.
pub fn item_kind(parser: &mut Parser<'_>, depth: u32) -> Result<Tall<ItemKind>, Refusal>
    requires { depth ≤ greatest_height }
    ensures { ReadsAny (λ t all. DerivesForm all (item_form_of t)) (FormFront depth) (λ t. item_form_height (item_form_of t)) depth parser.old.cursor parser.new.cursor result }
{
    if parser.cursor.take(Punct::OpenParen) {
        let params = params(parser, depth)?;
        parser.cursor.expect(Punct::CloseParen)?;
        return Ok(Tall {
            tree: ItemKind::Function(params.tree),
            height: params.height,
        });
    }
    if parser.cursor.stands(Punct::OpenBracket) {
        let brackets = brackets(parser, depth)?;
        return Ok(Tall {
            tree: ItemKind::Array(brackets.tree),
            height: brackets.height,
        });
    }
    Ok(Tall {
        tree: ItemKind::Plain,
        height: 0,
    })
}

// `[`, a length where there is one, and `]`.
fn brackets(parser: &mut Parser<'_>, depth: u32) -> Result<Tall<Brackets>, Refusal>
    requires { depth ≤ greatest_height }
    ensures { ReadsWhole (λ t all. DerivesArray all (brackets_of t)) (ArrayFront depth) (λ t. optional_height (brackets_of t)) depth parser.old.cursor parser.new.cursor result }
{
    parser.cursor.expect(Punct::OpenBracket)?;
    let length = array_length(parser, depth)?;
    let whole = ended(parser, length, Punct::CloseBracket)?;
    Ok(whole)
}

// A length before `]`, where there is one.
fn array_length(parser: &mut Parser<'_>, depth: u32) -> Result<Tall<Brackets>, Refusal>
    requires { depth ≤ greatest_height }
    ensures { ReadsAny (λ t all. DerivesOptional ConditionalRow all (brackets_of t)) (LengthFront depth) (λ t. optional_height (brackets_of t)) depth parser.old.cursor parser.new.cursor result }
{
    if parser.cursor.stands(Punct::CloseBracket) {
        return Ok(Tall {
            tree: Brackets::Unsized,
            height: 0,
        });
    }
    parser.allow(0, depth)?;
    let length = parser.whole_conditional(depth)?;
    Ok(Tall {
        tree: Brackets::Sized(length.tree),
        height: length.height,
    })
}

// `=` and an initialiser, where there are.
fn initialiser(parser: &mut Parser<'_>, depth: u32) -> Result<Tall<Option<Init>>, Refusal>
    requires { depth ≤ greatest_height }
    ensures { ReadsAny (λ t all. DerivesInitialiser all (initial_of t)) (InitialiserFront depth) (λ t. initial_height (initial_of t)) depth parser.old.cursor parser.new.cursor result }
{
    if !parser.cursor.take(Punct::Assign) {
        return Ok(Tall {
            tree: None,
            height: 0,
        });
    }
    if parser.cursor.stands(Punct::OpenBrace) {
        let at = parser.cursor.place();
        let values = braced(parser, depth)?;
        return Ok(Tall {
            tree: Some(Init::Braced {
                values: values.tree,
                at,
            }),
            height: values.height,
        });
    }
    parser.allow(0, depth)?;
    let value = parser.whole_assignment(depth)?;
    Ok(Tall {
        tree: Some(Init::One(value.tree)),
        height: value.height,
    })
}

// `{`, values, perhaps a comma, and `}`.
fn braced(parser: &mut Parser<'_>, depth: u32) -> Result<Tall<Items<Expr>>, Refusal>
    requires { depth ≤ greatest_height }
    ensures { ReadsWhole (λ t all. DerivesInitial all (Braced (map expression_of t) (place_of parser.old.cursor))) (BracedFront depth) (λ t. 1 + greatest (map expression_height (map expression_of t))) depth parser.old.cursor parser.new.cursor result }
{
    parser.allow(1, depth)?;
    parser.cursor.expect(Punct::OpenBrace)?;
    let values = values(parser, depth + 1)?;
    parser.cursor.expect(Punct::CloseBrace)?;
    Ok(Tall {
        tree: Items::new(values.tree),
        height: values.height + 1,
    })
}

// Values with commas between them, and perhaps a comma before `}`.
fn values(parser: &mut Parser<'_>, depth: u32) -> Result<Tall<Vec<Expr>>, Refusal>
    requires { depth < greatest_height }
    ensures { ReadsWhole (λ t. Both (λ all. DerivesList all (map expression_of t.items)) IsLastComma) (ValuesFront depth) (λ t. greatest (map expression_height (map expression_of t.items))) depth parser.old.cursor parser.new.cursor result }
{
    let first = parser.whole_assignment(depth)?;
    let mut highest = first.height;
    let mut values: Vec<Expr> = Vec::new(parser.alloc);
    add(&mut values, first.tree)?;
    while parser.cursor.list_goes_on() {
        let next = parser.whole_assignment(depth)?;
        highest = highest.max(next.height);
        add(&mut values, next.tree)?;
    }
    Ok(Tall {
        tree: values,
        height: highest,
    })
}

/// The row `params`, before `)`.
pub fn params(parser: &mut Parser<'_>, depth: u32) -> Result<Tall<Params>, Refusal>
    requires { depth ≤ greatest_height }
    ensures { ReadsWhole (λ t all. DerivesParameters all (parameters_of t)) (ParametersFront depth) (λ t. parameters_height (parameters_of t)) depth parser.old.cursor parser.new.cursor result }
{
    let at = parser.cursor.place();
    if parser.cursor.is_void_alone() {
        parser.cursor.skip();
        parser.allow(0, depth)?;
        return Ok(Tall {
            tree: Params {
                list: Items::new(Vec::new(parser.alloc)),
                at,
            },
            height: 1,
        });
    }
    let list = param_list(parser, depth + 1)?;
    Ok(Tall {
        tree: Params {
            list: Items::new(list.tree),
            at,
        },
        height: list.height + 1,
    })
}

// Parameters with commas between them.
fn param_list(parser: &mut Parser<'_>, depth: u32) -> Result<Tall<Vec<Param>>, Refusal>
    requires { depth ≤ greatest_height + 1 }
    ensures { ReadsWhole (λ t all. DerivesParameterList all (map parameter_of t.items)) (ParameterListFront depth) (λ t. greatest (map parameter_height (map parameter_of t.items))) depth parser.old.cursor parser.new.cursor result }
{
    let first = param(parser, depth)?;
    let mut highest = first.height;
    let mut list = Vec::new(parser.alloc);
    add(&mut list, first.tree)?;
    while parser.cursor.take(Punct::Comma) {
        let next = param(parser, depth)?;
        highest = highest.max(next.height);
        add(&mut list, next.tree)?;
    }
    Ok(Tall {
        tree: list,
        height: highest,
    })
}

// The row `param`, before `,` or `)`.
fn param(parser: &mut Parser<'_>, depth: u32) -> Result<Tall<Param>, Refusal>
    requires { depth ≤ greatest_height + 1 }
    ensures { ReadsWhole (λ t all. DerivesParameter all (parameter_of t)) (ParameterFront depth) (λ t. parameter_height (parameter_of t)) depth parser.old.cursor parser.new.cursor result }
{
    let at = parser.cursor.place();
    if parser.cursor.is_void_word() {
        return Err(parser.cursor.refused_behind());
    }
    allow_parameter(parser, depth)?;
    let specs = parser.whole_specs()?;
    let stars = parser.whole_stars();
    let name = param_name(parser)?;
    let array = param_array(parser, depth + 1)?;
    let last = separated(parser, array)?;
    Ok(Tall {
        tree: Param {
            specs,
            stars,
            name,
            array: last.tree,
            at,
        },
        height: LEAF.max(last.height) + 1,
    })
}

// Whether a parameter may stand under `depth` nodes. Where none may, the word `void` could still stand alone, so what is
// behind it is refused. The first parameter of a list tells for all.
fn allow_parameter(parser: &Parser<'_>, depth: u32) -> Result<(), Refusal>
    ensures low { IfOk result (λ _. depth + 1 < greatest_height) }
    ensures refused { IfErr result (λ _. greatest_height ≤ depth + 1) }
{
    let allowed = parser.allow(1, depth);
    if allowed.is_err() && parser.cursor.stands_word(Keyword::Void) {
        return Err(parser.cursor.refused_behind());
    }
    allowed
}

// The name of a parameter, where there is one.
fn param_name(parser: &mut Parser<'_>) -> Result<Option<Text>, Refusal>
    ensures tree { IfOk result (λ name. Takes (λ all. DerivesName all name) parser.old.cursor parser.new.cursor) }
    ensures no_more { IfOk result (λ _. length parser.new.cursor ≤ length parser.old.cursor) }
    ensures only { IfOk result (λ _. OnlyTo (NameFront) parser.old.cursor parser.new.cursor) }
    ensures refused { IfErr result (Refuses (NoFront (NameFront) parser.old.cursor)) }
{
    if !parser.cursor.is_name() {
        return Ok(None);
    }
    Ok(Some(name(parser)?))
}

// The brackets of a parameter, where there are.
fn param_array(parser: &mut Parser<'_>, depth: u32) -> Result<Tall<Option<Brackets>>, Refusal>
    requires { depth ≤ greatest_height }
    ensures { ReadsAny (λ t all. DerivesArrayMark all (array_of t)) (ArrayMarkFront depth) (λ t. array_height (array_of t)) depth parser.old.cursor parser.new.cursor result }
{
    if !parser.cursor.stands(Punct::OpenBracket) {
        return Ok(Tall {
            tree: None,
            height: 0,
        });
    }
    let brackets = brackets(parser, depth)?;
    Ok(Tall {
        tree: Some(brackets.tree),
        height: brackets.height,
    })
}
