//! The declarations of blocks: ISO 9899:1990 6.5.4 and 6.6.2. The objects of a function are numbered in order of declaration.
ghost use Rattle.std.specs.Prelude.{◌≡◌, ◌++◌, ◌∷◌, [], IfErr, OnOk, map, is_some};
ghost use Rattle.c_syntax.specs.SyntaxView.{declaration_of, initial_of, item_form_of, item_of};
ghost use Rattle.c_rules.specs.declared.fault.Refusal.TheVariants as refusals;
ghost use Rattle.c_rules.specs.declared.fault.Rule.TheVariants as rule;
ghost use Rattle.c_rules.specs.Answers.{Follows, Refuses};
ghost use Rattle.c_rules.specs.Outcome.{Broken, breaks};
ghost use Rattle.c_rules.specs.Statements as rules;
ghost use Rattle.c_scopes.specs.Tables.{scope_of};
ghost use Rattle.c_objects.specs.InitialiserView.{first_value, initialiser_of};
ghost use Rattle.c_tree.specs.View.{stmt_of};
ghost use Rattle.c_types.specs.BodyView.{context_around, opened_of};

use c_objects::{Initialiser, Start, add, boxed, plain, redeclared, started};
use c_rules::{Declared, Local, ObjectType, Refusal, Rule, mismatch};
use c_scopes::{Scopes, declarator, declare_object, initialiser};
use c_syntax::{Decl, Item};
use c_tree::{Base, ScalarType, TypedStmt, VarRef};
use word_base::Text;

/// The body of a function, as far as it is typed.
#[derive(Drop)]
pub(crate) struct Body<'a> {
    pub(crate) scopes: Scopes<'a>,
    pub(crate) locals: Vec<Local>,
    /// The type of the function's value, or `None` where it is void.
    pub(crate) result: Option<ScalarType>,
}

/// The beginning of a block: what it declares, and the statements that give first values.
#[derive(Drop)]
pub(crate) struct Opening {
    pub(crate) declared: Vec<VarRef>,
    pub(crate) statements: Vec<TypedStmt>,
}

impl Opening {
    // One more object, with the statement that gives it its first value, where there is one.
    fn declare(&mut self, reference: VarRef, statement: Option<TypedStmt>) -> Result<(), Refusal>
        ensures declared { OnOk result (self.new.declared.items ≡ self.old.declared.items ++ reference ∷ []) }
        ensures statements { OnOk result (map stmt_of self.new.statements.items ≡ map stmt_of self.old.statements.items ++ first_value statement) }
        ensures memory { IfErr result (λ f. f ≡ refusals.NoMemory) }
    {
        if let Some(statement) = statement {
            add(&mut self.statements, statement)?;
        }
        self.declared.push(reference)?;
        Ok(())
    }
}

// A function can't be declared in a block, and has no initialiser anywhere.
fn function_in_block(item: &Item) -> Refusal
    ensures { Refuses {A = rules.Opened} (breaks (is_some item.now.init) rule.Mismatch item.now.at (Broken rule.Misplaced item.now.at)) result }
{
    if item.init.is_some() {
        return mismatch(item.at);
    }
    Refusal::Broken {
        rule: Rule::Misplaced,
        at: item.at,
    }
}

impl<'a> Body<'a> {
    /// An item of a block.
    pub(crate) fn item(
        &mut self,
        opening: &mut Opening,
        base: Base,
        item: &'a Item,
    ) -> Result<(), Refusal>
        ensures follows { Follows (λ _. opened_of self.new opening.new) (rules.block_item (opened_of self.old opening.old) base (item_of item.now)) result }
        ensures kept { OnOk result (context_around self.new ≡ context_around self.old) }
    {
        // No source that the parser gives has more objects than can be counted.
        let Ok(number) = u32::try_from(self.locals.len()) else {
            return Err(Refusal::NoMemory);
        };
        let reference = VarRef::Local(number);
        let name = item.name.as_str();
        let declared = declarator(&mut self.scopes, base, item)?;
        let is_taken = self.scopes.is_taken(name);
        declare_object(&mut self.scopes, name, reference, &declared)?;
        let initialiser = self.first_value(item)?;
        if is_taken {
            return Err(redeclared(item.at));
        }
        match declared {
            Declared::Untyped => Err(mismatch(item.at)),
            Declared::Function(_) => Err(function_in_block(item)),
            Declared::Object(object_type) => {
                self.object(opening, item, reference, object_type, initialiser)
            }
        }
    }

    // What gives an item its first value, in a box while the rest is looked at.
    fn first_value(&self, item: &Item) -> Result<Box<Initialiser>, Refusal>
        ensures { Follows (λ i. initialiser_of i.value) (rules.initialiser (scope_of self.now.scopes) (rules.is_array (item_form_of item.now.kind)) (initial_of item.now.init)) result }
    {
        let value = initialiser(&self.scopes, &item.kind, &item.init)?;
        boxed(self.scopes.alloc, value)
    }

    // An object that is declared, with its start.
    fn object(
        &mut self,
        opening: &mut Opening,
        item: &Item,
        reference: VarRef,
        object_type: ObjectType,
        initialiser: Box<Initialiser>,
    ) -> Result<(), Refusal>
        ensures follows { Follows (λ _. opened_of self.new opening.new) (rules.declared_as (opened_of self.old opening.old) (scope_of self.old.scopes) reference (Declared.Object object_type) (item_of item.now) (initialiser_of initialiser.value)) result }
        ensures kept { OnOk result (context_around self.new ≡ context_around self.old) }
    {
        let alloc = self.scopes.alloc;
        let initialiser = Box::into_inner(initialiser);
        let start = started(alloc, reference, object_type, item.at, initialiser)?;
        let Start { values, statement } = start;
        opening.declare(reference, statement)?;
        let name = Text::copy_of(alloc, item.name.as_str())?;
        self.locals.push(Local {
            name,
            object_type,
            values,
        })?;
        Ok(())
    }

    /// The items of a declaration of this base, in order.
    pub(crate) fn items(
        &mut self,
        opening: &mut Opening,
        base: Base,
        list: &'a [Item],
    ) -> Result<(), Refusal>
        ensures follows { Follows (λ _. opened_of self.new opening.new) (rules.block_items (opened_of self.old opening.old) base (map item_of list.now)) result }
        ensures kept { OnOk result (context_around self.new ≡ context_around self.old) }
    {
        for item in list {
            self.item(opening, base, item)?;
        }
        Ok(())
    }

    /// The declarations of a block, in order.
    pub(crate) fn declarations(
        &mut self,
        opening: &mut Opening,
        list: &'a [Decl],
    ) -> Result<(), Refusal>
        ensures follows { Follows (λ _. opened_of self.new opening.new) (rules.declarations (opened_of self.old opening.old) (map declaration_of list.now)) result }
        ensures kept { OnOk result (context_around self.new ≡ context_around self.old) }
    {
        for declaration in list {
            let base = plain(&declaration.specs)?;
            self.items(opening, base, declaration.items.as_slice())?;
        }
        Ok(())
    }
}
