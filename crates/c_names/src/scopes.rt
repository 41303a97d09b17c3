//! Scopes: ISO 9899:1990 6.1.2.1.
ghost use Rattle.std.specs.Prelude.{◌≡◌, option_copied, nat_lt, IfErr, OnOk};
ghost use Rattle.c_syntax.specs.SyntaxView.{expression_of};
ghost use Rattle.c_rules.specs.declared.fault.Refusal.TheVariants as refusals;
ghost use Rattle.c_rules.specs.Scopes as rules;
ghost use Rattle.c_names.specs.Tables.{scope_of, key_names, scopes_of, around_of, closed};
ghost use Rattle.c_rules.specs.Typing as typing;

use c_rules::{Meaning, ObjectType, Refusal};
use c_syntax::{Expr, ExprKind};
use indexmap::{IndexMap, IndexSet};
use std::alloc::Global;
use std::mem;

/// The names that are declared at a place of the source, scope by scope, and what they stand for.
#[derive(Drop)]
pub struct Scopes<'a> {
    pub alloc: Global,
    innermost: IndexMap<&'a str, Meaning>,
    // From the outermost one on.
    outer: Vec<IndexMap<&'a str, Meaning>>,
    // The functions that have bodies anywhere in the source, in order.
    bodies: IndexSet<&'a str>,
}

impl<'a> Scopes<'a> {
    /// The scope of a file, in which no name is declared.
    pub fn new(alloc: Global, bodies: IndexSet<&'a str>) -> Self
        ensures { scope_of result ≡ rules.no_names (key_names bodies.entry.keys) }
    {
        Scopes {
            alloc,
            innermost: IndexMap::new(alloc),
            outer: Vec::new(alloc),
            bodies,
        }
    }

    /// Opens a scope within the innermost one.
    pub fn open(&mut self) -> Result<(), Refusal>
        ensures opened { OnOk result (scope_of self.new ≡ rules.open_scope (scope_of self.old)) }
        ensures around { OnOk result (around_of self.new ≡ scopes_of self.old) }
        ensures memory { IfErr result (λ f. f ≡ refusals.NoMemory) }
    {
        let inner = mem::replace(&mut self.innermost, IndexMap::new(self.alloc));
        self.outer.push(inner)?;
        Ok(())
    }

    /// Closes the innermost scope, where one is around it.
    pub fn close(&mut self)
        ensures { scopes_of self.new ≡ closed (scopes_of self.old) }
    {
        if let Some(table) = self.outer.pop() {
            drop(mem::replace(&mut self.innermost, table));
        }
    }

    /// Declares a name in the innermost scope.
    pub fn declare(&mut self, name: &'a str, meaning: Meaning) -> Result<(), Refusal>
        ensures declared { OnOk result (scope_of self.new ≡ rules.declare (scope_of self.old) name.now meaning) }
        ensures around { around_of self.new ≡ around_of self.old }
        ensures memory { IfErr result (λ f. f ≡ refusals.NoMemory) }
    {
        self.innermost.insert(name, meaning)?;
        Ok(())
    }

    /// What a name stands for, where it is declared.
    pub fn find(&self, name: &str) -> Option<&Meaning>
        ensures { option_copied result ≡ (scope_of self.now).meaning name.now }
    {
        if let Some(meaning) = self.innermost.get(name) {
            return Some(meaning);
        }
        for table in self.outer.iter().rev() {
            if let Some(meaning) = table.get(name) {
                return Some(meaning);
            }
        }
        None
    }

    /// Whether a name can't be declared in the innermost scope.
    pub fn is_taken(&self, name: &str) -> bool
        ensures { result ≡ rules.is_taken (scope_of self.now) name.now }
    {
        is_in(name) || is_out(name) || self.innermost.contains_key(name)
    }

    /// The number of a function: how many bodies stand before its own.
    pub fn number_of(&self, name: &str) -> usize
        ensures { result ≡ typing.bodies_before (scope_of self.now) name.now }
    {
        self.bodies.get_index_of(name).unwrap_or(self.bodies.len())
    }

    /// Whether a function's body stands among the first so many of a source.
    pub fn has_body(&self, name: &str, bodies: usize) -> bool
        ensures { result ≡ nat_lt (typing.bodies_before (scope_of self.now) name.now) bodies }
    {
        self.number_of(name) < bodies
    }

    /// The length of the array that an operand names, where it names one.
    pub fn array_length(&self, e: &Expr) -> Option<u16>
        ensures { result ≡ typing.array_length (scope_of self.now) (expression_of e.now) }
    {
        let ExprKind::Name(name) = &e.kind else {
            return None;
        };
        match self.find(name.as_str()) {
            Some(
                Meaning::Object {
                    object_type: ObjectType::Array { length, .. },
                    ..
                },
            ) => Some(*length),
            _ => None,
        }
    }
}

/// Whether a name is that of the function that reads a port.
pub fn is_in(name: &str) -> bool
    ensures { result ≡ rules.is_in name.now }
{
    name == "__in"
}

/// Whether a name is that of the function that writes to a port.
pub fn is_out(name: &str) -> bool
    ensures { result ≡ rules.is_out name.now }
{
    name == "__out"
}
