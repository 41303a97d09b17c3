//! Declarations of a source, as the grammar has them (docs/LANGUAGE.md, "Grammar").
use crate::expr::{Expr, Specs};
use word_base::{Items, Text};

/// Brackets behind a name.
#[derive(Drop)]
pub enum Brackets {
    /// `[]`
    Unsized,
    /// `[length]`
    Sized(Expr),
}

/// A parameter.
#[derive(Drop)]
pub struct Param {
    pub specs: Specs,
    pub stars: u32,
    pub name: Option<Text>,
    pub array: Option<Brackets>,
    /// The place of the parameter, in bytes.
    pub at: u32,
}

/// The parameters of a function.
#[derive(Drop)]
pub struct Params {
    /// None where `void` is written.
    pub list: Items<Param>,
    /// The place of the first token, in bytes.
    pub at: u32,
}

/// What stands behind the name of an item.
#[derive(Drop)]
pub enum ItemKind {
    /// Nothing: a scalar or a pointer.
    Plain,
    /// Parameters: a function without its body.
    Function(Params),
    Array(Brackets),
}

/// An initialiser.
#[derive(Drop)]
pub enum Init {
    One(Expr),
    /// Values in braces.
    Braced {
        values: Items<Expr>,
        /// The place of the opening brace, in bytes.
        at: u32,
    },
}

/// What a declaration declares.
#[derive(Drop)]
pub struct Item {
    pub stars: u32,
    pub name: Text,
    pub kind: ItemKind,
    pub init: Option<Init>,
    /// The place of the item, in bytes: that of its first star, or else of its name.
    pub at: u32,
}

/// A declaration of one or more items.
#[derive(Drop)]
pub struct Decl {
    pub specs: Specs,
    pub items: Items<Item>,
    /// The place of the declaration, in bytes.
    pub at: u32,
}
