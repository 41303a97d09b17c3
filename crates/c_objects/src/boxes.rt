//! Steps that may want memory with a tree in hand. Its type is a parameter, so a proof needn't open the tree that is dropped there.
ghost use Rattle.std.specs.Prelude.{◌≡◌, ◌++◌, ◌∷◌, [], IfOk, IfErr};
ghost use Rattle.c_rules.specs.declared.fault.Refusal.TheVariants as refusals;

use c_rules::Refusal;
use std::alloc::Global;

/// A tree in a box.
pub fn boxed<T: Drop>(alloc: Global, tree: T) -> Result<Box<T>, Refusal>
    ensures value { IfOk result (λ b. b.value ≡ tree) }
    ensures memory { IfErr result (λ f. f ≡ refusals.NoMemory) }
{
    Ok(Box::new(alloc, tree)?)
}

/// Puts a tree behind others.
pub fn add<T: Drop>(list: &mut Vec<T>, next: T) -> Result<(), Refusal>
    ensures items { IfOk result (λ _. list.new.items ≡ list.old.items ++ next ∷ []) }
    ensures memory { IfErr result (λ f. f ≡ refusals.NoMemory) }
{
    list.push(next)?;
    Ok(())
}
