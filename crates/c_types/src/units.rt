//! Whole sources: ISO 9899:1990 6.7.
ghost use Rattle.std.specs.Prelude.{◌≡◌, ◌||◌, List, ◌∷◌, map, IfOk, OnOk, unwrap_or, []};
ghost use Rattle.c_syntax.specs.SyntaxView.{item_of, initial_of, function_syntax_of, external_of, parameter_of, unit_of};
ghost use Rattle.c_rules.specs.Answers.{Follows, Refuses};
ghost use Rattle.c_scopes.specs.Tables.{around_of, key_names, scope_of, scopes_of};
ghost use Rattle.c_rules.specs.Scopes.{Scope};
ghost use Rattle.c_objects.specs.InitialiserView.{starts_of};
ghost use Rattle.c_rules.specs.Units as rules;
ghost use Rattle.c_rules.specs.LocalView.{local_tree_of};
ghost use Rattle.c_rules.specs.Statements as statements;
ghost use Rattle.c_types.specs.View.{typed_body_of, file_of};
ghost use Rattle.c_scopes.specs.c_names.Statics.{static_tree_of};
ghost use Rattle.c_rules.specs.declared.meaning.Declared.TheVariants as declares;
ghost use Rattle.c_rules.specs.declared.meaning.ObjectType.TheVariants as objects;
ghost use Rattle.c_rules.specs.Declarations.{parameters};

use crate::blocks::Body;
use c_conversions::starred;
use c_limits::TypedFunction;
use c_objects::{Starts, boxed, redeclared, spelled, static_list};
use c_rules::{Declared, FunctionType, Local, ObjectType, Refusal, mismatch};
use c_scopes::{
    Scopes, Static, declarator, declare_function, declare_parameters, declare_static,
    defined_parameters, is_initialised_twice, starts, static_number, without_type,
};
use c_syntax::{External, FunctionDef, Item, Param};
use c_tree::{Base, Initial, ScalarType, TypedStmt};
use indexmap::IndexSet;
use std::alloc::Global;
use std::mem;
use word_base::{Items, NoMemory, Text};

/// What stands before an external: the names, the objects in order of their first declarations, and the functions.
#[derive(Drop)]
pub(crate) struct File<'a> {
    pub(crate) scopes: Scopes<'a>,
    pub(crate) statics: Vec<Static>,
    pub(crate) functions: Vec<TypedFunction>,
}

/// What stands between the braces of a function, with the objects of the function.
#[derive(Drop)]
struct TypedBody {
    locals: Vec<Local>,
    tree: Box<TypedStmt>,
}

/// The objects and functions of a file, without its names.
#[derive(Drop)]
pub(crate) struct Contents {
    pub(crate) statics: Vec<Static>,
    pub(crate) functions: Vec<TypedFunction>,
}

// The name of a parameter of a function with a body, which has one.
fn name_of(parameter: &Param) -> &str
    ensures { result.now ≡ unwrap_or (parameter_of parameter.now).name [] }
{
    match &parameter.name {
        Some(name) => name.as_str(),
        None => "",
    }
}

// A parameter as an object.
fn parameter_local(alloc: Global, parameter: &Param, kind: ScalarType) -> Result<Local, NoMemory>
    ensures { IfOk result (λ local. local_tree_of local ≡ record { name = unwrap_or (parameter_of parameter.now).name []; object_type = objects.Single kind; values = [] }) }
{
    Ok(Local {
        name: Text::copy_of(alloc, name_of(parameter))?,
        object_type: ObjectType::Single(kind),
        values: Items::new(Vec::new(alloc)),
    })
}

// The parameters of a function as its first objects.
fn parameter_locals(
    alloc: Global,
    list: &[Param],
    kinds: &[ScalarType],
) -> Result<Vec<Local>, NoMemory>
    ensures { IfOk result (λ locals. map local_tree_of locals.items ≡ rules.parameter_locals (map parameter_of list.now) kinds.now) }
{
    let mut locals = Vec::new(alloc);
    for (n, kind) in kinds.iter().enumerate() {
        let Some(parameter) = list.get(n) else {
            return Ok(locals);
        };
        locals.push(parameter_local(alloc, parameter, *kind)?)?;
    }
    Ok(locals)
}

fn copy_of(alloc: Global, kinds: &[ScalarType]) -> Result<Vec<ScalarType>, NoMemory>
    ensures { IfOk result (λ copy. copy.items ≡ kinds.now) }
{
    let mut copy = Vec::new(alloc);
    copy.extend_from_slice(kinds)?;
    Ok(copy)
}

// The names of the functions with bodies, in order.
fn bodies_of<'a>(alloc: Global, externals: &'a [External]) -> Result<IndexSet<&'a str>, NoMemory>
    ensures { IfOk result (λ bodies. key_names bodies.keys ≡ rules.bodies_behind [] (unit_of externals.now)) }
{
    let mut bodies = IndexSet::new(alloc);
    for external in externals {
        if let External::Function(f) = external {
            bodies.insert(f.name.as_str())?;
        }
    }
    Ok(bodies)
}

// What stands between the braces of a function, in the scope of its parameters, which ends with it. It has the names of the file
// while it is typed: where it is refused, nothing more is read of the file.
fn typed_body<'a>(
    scopes: &mut Scopes<'a>,
    kind: Option<ScalarType>,
    locals: Vec<Local>,
    f: &'a FunctionDef,
) -> Result<TypedBody, Refusal>
    ensures follows { Follows typed_body_of (statements.typed_body kind (scope_of scopes.old) (map local_tree_of locals.items) (function_syntax_of f.now).declarations (function_syntax_of f.now).statements) result }
    ensures kept { (outer : Scope) (rest : List Scope) → around_of scopes.old ≡ outer ∷ rest → OnOk result (scopes_of scopes.new ≡ outer ∷ rest) }
{
    let alloc = scopes.alloc;
    let declarations = f.declarations.as_slice();
    let statements = f.statements.as_slice();
    let none = Scopes::new(alloc, IndexSet::new(alloc));
    let mut body = Body {
        scopes: mem::replace(scopes, none),
        locals,
        result: kind,
    };
    let tree = body.body(declarations, statements)?;
    body.scopes.close();
    *scopes = body.scopes;
    Ok(TypedBody {
        locals: body.locals,
        tree,
    })
}

impl<'a> File<'a> {
    // Whether an item initialises an object that is initialised already.
    fn is_twice(&self, item: &Item) -> bool
        ensures { result ≡ rules.is_twice (file_of self.now) (item_of item.now) }
    {
        is_initialised_twice(&self.scopes, &self.statics, item)
    }

    // An item of a declaration.
    fn item(&mut self, base: Base, item: &'a Item) -> Result<(), Refusal>
        ensures { Follows (λ _. file_of self.new) (rules.file_item (file_of self.old) base (item_of item.now)) result }
    {
        match declarator(&mut self.scopes, base, item)? {
            Declared::Untyped => Err(self.untyped(item)),
            Declared::Object(object_type) => self.object(object_type, item),
            Declared::Function(function) => self.prototyped(function, item),
        }
    }

    // An item without a valid type.
    fn untyped(&self, item: &Item) -> Refusal
        ensures { Refuses (rules.item_as (file_of self.now) declares.Untyped (item_of item.now)) result }
    {
        if let Err(refusal) = self.first_values(item) {
            return refusal;
        }
        without_type(&self.scopes, item)
    }

    // What gives an item its values, in a box while the rest is looked at.
    fn first_values(&self, item: &Item) -> Result<Box<Starts>, Refusal>
        ensures { Follows (λ s. starts_of s.value) (rules.starts (scope_of self.now.scopes) (initial_of item.now.init)) result }
    {
        let starts = starts(&self.scopes, &item.init)?;
        boxed(self.scopes.alloc, starts)
    }

    fn object(&mut self, object_type: ObjectType, item: &'a Item) -> Result<(), Refusal>
        ensures { Follows (λ _. file_of self.new) (rules.item_as (file_of self.old) (declares.Object object_type) (item_of item.now)) result }
    {
        let name = item.name.as_str();
        let is_twice = self.is_twice(item);
        let number = static_number(&self.scopes, name);
        let next = self.statics.len();
        let allowed = declare_static(&mut self.scopes, name, next, object_type)?;
        let starts = self.first_values(item)?;
        if !allowed || is_twice {
            return Err(redeclared(item.at));
        }
        let starts = Box::into_inner(starts);
        let list = static_list(self.scopes.alloc, object_type, item.at, starts)?;
        Ok(self.set_list(number, object_type, list, name)?)
    }

    // Gives an object its list, and is told its number where it is declared already.
    fn set_list(
        &mut self,
        number: Option<u32>,
        object_type: ObjectType,
        list: Option<Items<Initial>>,
        name: &str,
    ) -> Result<(), NoMemory>
        ensures statics { OnOk result (map static_tree_of self.new.statics.items ≡ rules.with_static (map static_tree_of self.old.statics.items) number name.now object_type list) }
        ensures scopes { self.new.scopes ≡ self.old.scopes }
        ensures functions { self.new.functions ≡ self.old.functions }
    {
        let Some(number) = number else {
            self.statics.push(Static {
                name: Text::copy_of(self.scopes.alloc, name)?,
                object_type,
                initial: list,
            })?;
            return Ok(());
        };
        if let Some(object) = self.statics.get_mut(number as usize) {
            if list.is_some() {
                object.initial = list;
            }
        }
        Ok(())
    }

    // The declaration of a function without its body.
    fn prototyped(&mut self, function: FunctionType, item: &'a Item) -> Result<(), Refusal>
        ensures { Follows (λ _. file_of self.new) (rules.item_as (file_of self.old) (declares.Function function) (item_of item.now)) result }
    {
        let is_twice = self.is_twice(item);
        let allowed = declare_function(&mut self.scopes, item.name.as_str(), function)?;
        drop(self.first_values(item)?);
        if !allowed || is_twice {
            return Err(redeclared(item.at));
        }
        if item.init.is_some() {
            return Err(mismatch(item.at));
        }
        Ok(())
    }

    fn items(&mut self, base: Base, items: &'a [Item]) -> Result<(), Refusal>
        ensures { Follows (λ _. file_of self.new) (rules.file_items (file_of self.old) base (map item_of items.now)) result }
    {
        for item in items {
            self.item(base, item)?;
        }
        Ok(())
    }

    // A function with its body.
    fn function(&mut self, f: &'a FunctionDef) -> Result<(), Refusal>
        ensures { Follows (λ _. file_of self.new) (rules.file_function (file_of self.old) (function_syntax_of f.now)) result }
    {
        let base = spelled(&f.specs)?;
        let name = f.name.as_str();
        let list = f.params.list.as_slice();
        let kinds = defined_parameters(&mut self.scopes, list)?;
        let result = starred(base, f.stars);
        let parameters = copy_of(self.scopes.alloc, &kinds)?;
        let function = FunctionType {
            result,
            parameters: Items::new(parameters),
        };
        let allowed = declare_function(&mut self.scopes, name, function)?;
        let is_defined = self.scopes.has_body(name, self.functions.len());
        self.body(result, &kinds, f)?;
        if !allowed || is_defined {
            return Err(redeclared(f.at));
        }
        Ok(())
    }

    // The body of a function behind its name, with parameters of these types.
    fn body(
        &mut self,
        kind: Option<ScalarType>,
        kinds: &[ScalarType],
        f: &'a FunctionDef,
    ) -> Result<(), Refusal>
        ensures { Follows (λ _. file_of self.new) (rules.with_body (file_of self.old) (function_syntax_of f.now) kind kinds.now) result }
    {
        let alloc = self.scopes.alloc;
        let list = f.params.list.as_slice();
        let name = f.name.as_str();
        self.scopes.open()?;
        declare_parameters(&mut self.scopes, list, kinds)?;
        let locals = parameter_locals(alloc, list, kinds)?;
        let typed = typed_body(&mut self.scopes, kind, locals, f)?;
        let name = Text::copy_of(alloc, name)?;
        self.functions.push(TypedFunction {
            name,
            result: kind,
            parameters: kinds.len(),
            locals: typed.locals,
            body: typed.tree,
        })?;
        Ok(())
    }

    fn external(&mut self, external: &'a External) -> Result<(), Refusal>
        ensures { Follows (λ _. file_of self.new) (rules.external (file_of self.old) (external_of external.now)) result }
    {
        match external {
            External::Function(f) => self.function(f),
            External::Declaration(d) => {
                let base = spelled(&d.specs)?;
                self.items(base, d.items.as_slice())
            }
        }
    }

    /// The objects and functions, without the names.
    pub(crate) fn contents(self) -> Contents
        ensures { result ≡ record { statics = self.entry.statics; functions = self.entry.functions } }
    {
        Contents {
            statics: self.statics,
            functions: self.functions,
        }
    }

    /// A whole source.
    pub(crate) fn of(alloc: Global, externals: &'a [External]) -> Result<Self, Refusal>
        ensures { Follows file_of (rules.typed_unit (unit_of externals.now)) result }
    {
        let mut file = File {
            scopes: Scopes::new(alloc, bodies_of(alloc, externals)?),
            statics: Vec::new(alloc),
            functions: Vec::new(alloc),
        };
        for external in externals {
            file.external(external)?;
        }
        Ok(file)
    }
}
