//! The accesses of a function's scalars.
ghost use Rattle.std.specs.Prelude.{◌≡◌, ◌<◌, ◌≤◌, ◌++◌, ◌∷◌, [], All, IfOk, OnOk};
ghost use Rattle.acc_code.specs.AccSequence.{Gathers, IsAccessBlock, IsInFrame, accesses, cut, item_accesses, once, operand_accesses, sequence_of};
ghost use Rattle.acc_code.specs.AccView.{function_items_of, item_list, item_of};

use crate::item::AccItem;
use crate::operand::AccOperand;
use crate::program::AccFunction;
use lay_model::{Blocks, Sequence};
use std::alloc::Global;
use word_base::NoMemory;

/// The blocks of accesses of a function's scalars, each of weight 1, and the step 1. Its start and its end are cuts, and each item but an
/// operation is one too. It fails only where memory is wanting.
pub fn sequence(alloc: Global, function: &AccFunction) -> Result<Sequence, NoMemory>
    requires in_frame { IsInFrame (function_items_of function.now) }
    ensures { IfOk result (λ s. s ≡ sequence_of (function_items_of function.now)) }
{
    let mut blocks = Gathered::new(alloc);
    list(&mut blocks, function.body.as_slice())?;
    blocks.cut()?;
    Ok(sequence_with(function.scalars, blocks.closed))
}

/// The blocks up to some place of the code.
#[derive(Drop)]
struct Gathered {
    closed: Blocks,
    /// The accesses since the last cut.
    block: Vec<u8>,
}

impl Gathered {
    fn new(alloc: Global) -> Self
        ensures closed { result.closed ≡ [] }
        ensures block { result.block.items ≡ [] }
    {
        Gathered {
            closed: Blocks::new(alloc),
            block: Vec::new(alloc),
        }
    }

    fn access(&mut self, scalar: u8) -> Result<(), NoMemory>
        ensures closed { self.new.closed ≡ self.old.closed }
        ensures block { OnOk result (self.new.block.items ≡ self.old.block.items ++ scalar ∷ []) }
    {
        Ok(self.block.push(scalar)?)
    }

    fn cut(&mut self) -> Result<(), NoMemory>
        ensures { OnOk result (Gathers self.old.closed self.old.block.items cut self.new.closed self.new.block.items) }
    {
        if self.block.is_empty() {
            return Ok(());
        }
        self.closed.push(1, &self.block)?;
        self.block.clear();
        Ok(())
    }

    fn operand(&mut self, operand: AccOperand) -> Result<(), NoMemory>
        ensures { OnOk result (Gathers self.old.closed self.old.block.items (operand_accesses operand) self.new.closed self.new.block.items) }
    {
        match operand {
            AccOperand::Scalar(scalar) => self.access(scalar),
            _ => Ok(()),
        }
    }
}

#[cycle(accesses)]
fn list(blocks: &mut Gathered, items: &[AccItem]) -> Result<(), NoMemory>
    ensures { OnOk result (Gathers blocks.old.closed blocks.old.block.items (accesses (item_list items.now)) blocks.new.closed blocks.new.block.items) }
{
    for x in items {
        item(blocks, x)?;
    }
    Ok(())
}

// A list between two cuts.
#[cycle(accesses)]
fn part(blocks: &mut Gathered, items: &[AccItem]) -> Result<(), NoMemory>
    ensures { OnOk result (Gathers blocks.old.closed blocks.old.block.items (λ rest. accesses (item_list items.now) (cut rest)) blocks.new.closed blocks.new.block.items) }
{
    list(blocks, items)?;
    blocks.cut()
}

#[cycle(accesses)]
fn item(blocks: &mut Gathered, x: &AccItem) -> Result<(), NoMemory>
    ensures { OnOk result (Gathers blocks.old.closed blocks.old.block.items (item_accesses (item_of x.now)) blocks.new.closed blocks.new.block.items) }
{
    match x {
        AccItem::Op { operand, .. } => blocks.operand(*operand),
        AccItem::If { yes, no, .. } => {
            blocks.cut()?;
            part(blocks, yes)?;
            part(blocks, no)
        }
        AccItem::Loop {
            before,
            body,
            after,
            ..
        } => {
            blocks.cut()?;
            part(blocks, before)?;
            part(blocks, body)?;
            part(blocks, after)
        }
        AccItem::Switch { body, .. } => {
            blocks.cut()?;
            part(blocks, body)
        }
        _ => blocks.cut(),
    }
}

fn sequence_with(scalars: u8, blocks: Blocks) -> Sequence
    requires few { scalars ≤ 64 }
    requires blocks { All (IsAccessBlock scalars) blocks }
    ensures { result ≡ record { scalars = scalars; step = 1; blocks = blocks } }
{
    blocks.accesses_are_few();
    Sequence::new(scalars, 1, blocks)
}
