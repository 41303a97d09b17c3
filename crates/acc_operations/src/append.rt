//! Appending items to code.
ghost use Rattle.std.specs.Prelude.{OnOk};
ghost use Rattle.acc_code.specs.AccTree.{Op, end, ◌▸◌};
ghost use Rattle.acc_code.specs.AccView.{item_of};
ghost use Rattle.acc_operations.specs.Appended.{Appends};
ghost use Rattle.acc_operations.specs.Words as word;

use acc_code::{AccItem, AccOp, AccOperand};
use word_base::NoMemory;

#[tactic(auto, using(crate::proofs::ItemLemmas::list_of_both))]
pub fn push(code: &mut Vec<AccItem>, item: AccItem) -> Result<(), NoMemory>
    ensures { OnOk result (Appends code.old.items code.new.items (item_of item ▸ end)) }
{
    Ok(code.push(item)?)
}

pub fn op(code: &mut Vec<AccItem>, op: AccOp, operand: AccOperand) -> Result<(), NoMemory>
    ensures { OnOk result (Appends code.old.items code.new.items (Op op operand ▸ end)) }
{
    push(code, AccItem::Op { op, operand })
}

pub fn bare(code: &mut Vec<AccItem>, op: AccOp) -> Result<(), NoMemory>
    ensures { OnOk result (Appends code.old.items code.new.items (word.bare op ▸ end)) }
{
    self::op(code, op, AccOperand::Nothing)
}

pub fn lac(code: &mut Vec<AccItem>, m: AccOperand) -> Result<(), NoMemory>
    ensures { OnOk result (Appends code.old.items code.new.items (word.lac m ▸ end)) }
{
    op(code, AccOp::Lac { shift: 0 }, m)
}

pub fn sacl(code: &mut Vec<AccItem>, m: AccOperand) -> Result<(), NoMemory>
    ensures { OnOk result (Appends code.old.items code.new.items (word.sacl m ▸ end)) }
{
    op(code, AccOp::Sacl { shift: 0 }, m)
}
