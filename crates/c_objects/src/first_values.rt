//! The first values of objects: ISO 9899:1990 6.5.7.
ghost use Rattle.c_rules.specs.Answers.{Follows};
ghost use Rattle.std.specs.Prelude.{◌≡◌, Some, None, map};
ghost use Rattle.c_rules.specs.Declarations as rules;
ghost use Rattle.c_rules.specs.Statements as blocks;
ghost use Rattle.c_conversions.specs.OperandView.{operand_of};
ghost use Rattle.c_objects.specs.InitialiserView.{entry_of, initialiser_of, object_start_of, starts_of};
ghost use Rattle.c_rules.specs.Units as units;

use crate::boxes::boxed;
use c_conversions::{Operand, given};
use c_rules::{ObjectType, Refusal, mismatch, number_in};
use c_tree::{ExprForm, Initial, ScalarType, Target, TargetForm, TypedExpr, TypedStmt, VarRef};
use std::alloc::Global;
use word_base::Items;

/// A static initialiser: its operand, and what it stands for.
#[derive(Drop)]
pub struct Entry {
    pub operand: Operand,
    pub initial: Initial,
}

/// What an object of a block is initialised with.
#[derive(Drop)]
pub enum Initialiser {
    Absent,
    Value(Operand),
    /// Static initialisers in braces.
    Listed(Vec<Entry>),
    /// Values in braces where none may be.
    Misbraced,
}

/// How an object of a block gets its first value.
#[derive(Drop)]
pub struct Start {
    /// The list of an initialised array.
    pub values: Items<Initial>,
    pub statement: Option<TypedStmt>,
}

/// A word, or null where the type is a pointer's.
pub fn initial_word(kind: Option<ScalarType>, word: u16) -> Initial
    ensures { result ≡ rules.initial_word kind word }
{
    match kind {
        Some(kind) if kind.stars > 0 => Initial::Null,
        _ => Initial::Word(word),
    }
}

// An initial value as that of a cell of this type.
fn cell_value(kind: ScalarType, initial: Initial) -> Initial
    ensures { result ≡ rules.cell_value kind initial }
{
    match initial {
        Initial::Word(word) => initial_word(Some(kind), word),
        Initial::Address { .. } | Initial::Null => initial,
    }
}

// An entry as the value of a cell of this type.
fn cell(alloc: Global, kind: ScalarType, at: u32, entry: Entry) -> Result<Initial, Refusal>
    ensures { Follows (λ i. i) (rules.cell kind at (entry_of entry)) result }
{
    let Entry { operand, initial } = entry;
    drop(given(alloc, kind, at, operand)?);
    Ok(cell_value(kind, initial))
}

// The values of cells of this type.
fn cells(
    alloc: Global,
    kind: ScalarType,
    at: u32,
    entries: Vec<Entry>,
) -> Result<Vec<Initial>, Refusal>
    ensures { Follows (λ is. is.items) (rules.cells kind at (map entry_of entries.items)) result }
{
    let mut values = Vec::new(alloc);
    for entry in entries {
        values.push(cell(alloc, kind, at, entry)?)?;
    }
    Ok(values)
}

// The list of an array.
fn listed(
    alloc: Global,
    kind: ScalarType,
    length: u16,
    at: u32,
    entries: Vec<Entry>,
) -> Result<Items<Initial>, Refusal>
    ensures { Follows (λ is. is) (rules.array_list kind length at (map entry_of entries.items)) result }
{
    if entries.len() > usize::from(length) {
        return Err(mismatch(at));
    }
    let values = cells(alloc, kind, at, entries)?;
    Ok(Items::new(values))
}

// The start of a scalar, which is assigned to.
fn scalar_start(
    alloc: Global,
    reference: VarRef,
    object_type: ObjectType,
    at: u32,
    value: Operand,
) -> Result<Start, Refusal>
    ensures { Follows object_start_of (blocks.started reference object_type at (blocks.Value (operand_of value))) result }
{
    let ObjectType::Single(kind) = object_type else {
        drop(value);
        return Err(mismatch(at));
    };
    let value = boxed(alloc, given(alloc, kind, at, value)?)?;
    let form = ExprForm::Assign {
        to: Target {
            form: TargetForm::Named(reference),
            at,
        },
        value,
    };
    Ok(Start {
        values: Items::new(Vec::new(alloc)),
        statement: Some(TypedStmt::Expr(TypedExpr {
            form,
            kind: Some(kind),
            at,
        })),
    })
}

// The start of an array, which is filled with its list.
fn array_start(
    alloc: Global,
    reference: VarRef,
    object_type: ObjectType,
    at: u32,
    entries: Vec<Entry>,
) -> Result<Start, Refusal>
    ensures { Follows object_start_of (blocks.started reference object_type at (blocks.Listed (map entry_of entries.items))) result }
{
    let ObjectType::Array { kind, length } = object_type else {
        return Err(mismatch(at));
    };
    let values = listed(alloc, kind, length, at, entries)?;
    Ok(Start {
        values,
        statement: Some(TypedStmt::Fill(number_in(reference))),
    })
}

/// The start of an object.
pub fn started(
    alloc: Global,
    reference: VarRef,
    object_type: ObjectType,
    at: u32,
    initialiser: Initialiser,
) -> Result<Start, Refusal>
    ensures { Follows object_start_of (blocks.started reference object_type at (initialiser_of initialiser)) result }
{
    match initialiser {
        Initialiser::Absent => Ok(Start {
            values: Items::new(Vec::new(alloc)),
            statement: None,
        }),
        Initialiser::Value(value) => scalar_start(alloc, reference, object_type, at, value),
        Initialiser::Listed(entries) => array_start(alloc, reference, object_type, at, entries),
        Initialiser::Misbraced => Err(mismatch(at)),
    }
}

/// The initialiser of an object of file scope.
#[derive(Drop)]
pub enum Starts {
    Absent,
    One(Entry),
    Braced(Vec<Entry>),
}

// The list of a scalar of file scope, which has one cell.
fn scalar_list(
    alloc: Global,
    object_type: ObjectType,
    at: u32,
    entry: Entry,
) -> Result<Items<Initial>, Refusal>
    ensures { Follows Some (units.static_list object_type at (units.One (entry_of entry))) result }
{
    let ObjectType::Single(kind) = object_type else {
        drop(entry);
        return Err(mismatch(at));
    };
    let value = cell(alloc, kind, at, entry)?;
    let mut list = Vec::new(alloc);
    list.push(value)?;
    Ok(Items::new(list))
}

// The list of an array of file scope.
fn braced_list(
    alloc: Global,
    object_type: ObjectType,
    at: u32,
    entries: Vec<Entry>,
) -> Result<Items<Initial>, Refusal>
    ensures { Follows Some (units.static_list object_type at (units.Braced (map entry_of entries.items))) result }
{
    let ObjectType::Array { kind, length } = object_type else {
        return Err(mismatch(at));
    };
    listed(alloc, kind, length, at, entries)
}

/// The list of an object of file scope.
pub fn static_list(
    alloc: Global,
    object_type: ObjectType,
    at: u32,
    starts: Starts,
) -> Result<Option<Items<Initial>>, Refusal>
    ensures { Follows (λ list. list) (units.static_list object_type at (starts_of starts)) result }
{
    match starts {
        Starts::Absent => Ok(None),
        Starts::One(entry) => Ok(Some(scalar_list(alloc, object_type, at, entry)?)),
        Starts::Braced(entries) => Ok(Some(braced_list(alloc, object_type, at, entries)?)),
    }
}
