//! Steps that may fail with a part in hand. Its type is a parameter, so a proof needn't open the tree that is dropped where the
//! step fails.
ghost use Rattle.std.specs.Prelude.{◌≡◌, ◌≢◌, ◌++◌, ◌∷◌, [], true, false, Some, Ok, Err, IfOk, IfErr};
ghost use Rattle.c_cursor.specs.Front.{behind, is_separator_at, mark_at};
ghost use Rattle.c_cursor.specs.declared.fault.Refusal.TheVariants as refusals;

use crate::parser::{Parser, Tall};
use c_cursor::Refusal;
use c_syntax::Punct;
use std::alloc::Global;

/// A part, and the mark behind it, which is taken.
pub fn ended<T: Drop>(parser: &mut Parser<'_>, part: T, end: Punct) -> Result<T, Refusal>
    ensures part { IfOk result (λ p. p ≡ part) }
    ensures taken { IfOk result (λ _. mark_at parser.old.cursor ≡ Some end) }
    ensures left { IfOk result (λ _. parser.new.cursor ≡ behind parser.old.cursor) }
    ensures refused { IfErr result (λ _. mark_at parser.old.cursor ≢ Some end) }
{
    parser.cursor.expect(end)?;
    Ok(part)
}

/// A part, where `,` or `)` stands behind it.
pub fn separated<T: Drop>(parser: &Parser<'_>, part: T) -> Result<T, Refusal>
    ensures part { IfOk result (λ p. p ≡ part) }
    ensures there { IfOk result (λ _. is_separator_at parser.now.cursor ≡ true) }
    ensures refused { IfErr result (λ _. is_separator_at parser.now.cursor ≡ false) }
{
    if !parser.cursor.separates() {
        return Err(parser.cursor.refused());
    }
    Ok(part)
}

/// A part, and one behind it that may be refused.
pub fn both<T: Drop, U: Drop>(first: T, second: Result<U, Refusal>) -> Result<(T, U), Refusal>
    ensures first { IfOk result (λ p. p.0 ≡ first) }
    ensures second { IfOk result (λ p. second ≡ Ok p.1) }
    ensures refused { IfErr result (λ f. second ≡ Err f) }
{
    Ok((first, second?))
}

/// Keeps a part in a box while what stands behind it is read.
pub fn kept<T: Drop>(alloc: Global, part: T) -> Result<Box<T>, Refusal>
    ensures part { IfOk result (λ kept. kept.value ≡ part) }
    ensures memory { IfErr result (λ f. f ≡ refusals.NoMemory) }
{
    Ok(Box::new(alloc, part)?)
}

/// The same of a part with its height.
pub fn boxed<T: Drop>(alloc: Global, part: Tall<T>) -> Result<Tall<Box<T>>, Refusal>
    ensures tree { IfOk result (λ boxed. boxed.tree.value ≡ part.tree) }
    ensures height { IfOk result (λ boxed. boxed.height ≡ part.height) }
    ensures memory { IfErr result (λ f. f ≡ refusals.NoMemory) }
{
    let height = part.height;
    let tree = kept(alloc, part.tree)?;
    Ok(Tall { tree, height })
}

/// Puts a part behind others.
pub fn add<T: Drop>(list: &mut Vec<T>, next: T) -> Result<(), Refusal>
    ensures items { IfOk result (λ _. list.new.items ≡ list.old.items ++ next ∷ []) }
    ensures memory { IfErr result (λ f. f ≡ refusals.NoMemory) }
{
    list.push(next)?;
    Ok(())
}
