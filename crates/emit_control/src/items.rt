//! Appending items of pieces.
#![tactic(auto, using(crate::proofs::Appending::put))]

ghost use Rattle.std.specs.Prelude.{◌≡◌, OnOk, ◌∷◌, []};
ghost use Rattle.c25_code.specs.ClearingLoops.{clears_at_any};
ghost use Rattle.c25_code.specs.Items as code;
ghost use Rattle.c25_code.specs.Items.{plain_items};
ghost use Rattle.c25_isa.specs.Items.{ItemFits};
ghost use Rattle.c25_isa.specs.Table.{IsInstr};
ghost use Rattle.emit_control.specs.Cuts as cuts;
ghost use Rattle.emit_control.specs.Emits.{Puts};

use c25_isa::{Change, Indirect, Instr, JumpOp, Operand, PieceItem};
use std::alloc::Global;
use word_base::{NoMemory, Text};

/// The operand of jumps and calls.
const NO_CHANGE: Indirect = Indirect {
    change: Change::Stay,
    next: None,
};

fn push(items: &mut Vec<PieceItem>, item: PieceItem) -> Result<(), NoMemory>
    requires { ItemFits item }
    ensures { OnOk result (Puts items.old.items (item ∷ []) items.new.items) }
{
    Ok(items.push(item)?)
}

pub(crate) fn push_instr(items: &mut Vec<PieceItem>, instr: Instr) -> Result<(), NoMemory>
    requires { IsInstr instr }
    ensures { OnOk result (Puts items.old.items (plain_items (instr ∷ [])) items.new.items) }
{
    push(items, PieceItem::Do(instr))
}

pub(crate) fn push_mark(items: &mut Vec<PieceItem>, label: u32) -> Result<(), NoMemory>
    ensures { OnOk result (Puts items.old.items (cuts.mark_item label ∷ []) items.new.items) }
{
    push(items, PieceItem::Mark(label))
}

pub(crate) fn push_jump(items: &mut Vec<PieceItem>, op: JumpOp, label: u32) -> Result<(), NoMemory>
    ensures { OnOk result (Puts items.old.items (cuts.jump_item op label ∷ []) items.new.items) }
{
    push(
        items,
        PieceItem::Jump {
            op,
            to: label,
            operand: NO_CHANGE,
        },
    )
}

pub(crate) fn push_call(
    alloc: Global,
    items: &mut Vec<PieceItem>,
    name: &str,
) -> Result<(), NoMemory>
    ensures { OnOk result (Puts items.old.items (cuts.call_item name.now ∷ []) items.new.items) }
{
    let name = Text::copy_of(alloc, name)?;
    push(
        items,
        PieceItem::CallTo {
            name,
            operand: NO_CHANGE,
        },
    )
}

/// A function takes its return address into its word, where it has one.
pub(crate) fn push_entry(items: &mut Vec<PieceItem>, back: Option<u16>) -> Result<(), NoMemory>
    ensures { OnOk result (Puts items.old.items (plain_items (code.entry_code back)) items.new.items) }
{
    let Some(word) = back else {
        return Ok(());
    };
    push_instr(items, Instr::Ldpk(word / 128))?;
    push_instr(items, Instr::Popd(Operand::Direct((word % 128) as u8)))
}

pub(crate) fn push_return(items: &mut Vec<PieceItem>, back: Option<u16>) -> Result<(), NoMemory>
    ensures { OnOk result (Puts items.old.items (plain_items (code.return_code back)) items.new.items) }
{
    match back {
        Some(word) => {
            push_instr(items, Instr::Ldpk(word / 128))?;
            push_instr(items, Instr::Pshd(Operand::Direct((word % 128) as u8)))?;
            push_instr(items, Instr::Ret)
        }
        None => push_instr(items, Instr::Ret),
    }
}

fn count_instr(count: u16) -> Instr
    ensures count { result ≡ cuts.count_instr count }
    ensures fits { IsInstr result }
{
    if count < 256 {
        Instr::Lack(count as u8)
    } else {
        Instr::Lalk {
            shift: 0,
            word: count,
        }
    }
}

/// A loop that clears words, with a label of its own.
pub(crate) fn push_clearing(items: &mut Vec<PieceItem>, label: u32) -> Result<(), NoMemory>
    ensures { OnOk result (Puts items.old.items (clears_at_any label) items.new.items) }
{
    push_mark(items, label)?;
    push_instr(
        items,
        Instr::Mar(Indirect {
            change: Change::Stay,
            next: Some(1),
        }),
    )?;
    push_instr(
        items,
        Instr::Sach {
            shift: 0,
            operand: Operand::Indirect(Indirect {
                change: Change::Up,
                next: None,
            }),
        },
    )?;
    push_instr(items, Instr::Subk(1))?;
    push_jump(items, JumpOp::Bgz, label)
}

/// So many words from an address on become 0.
pub(crate) fn push_wipe(
    items: &mut Vec<PieceItem>,
    first: u16,
    count: u16,
    label: u32,
) -> Result<(), NoMemory>
    ensures { OnOk result (Puts items.old.items (cuts.wipe_items first count label) items.new.items) }
{
    push_instr(
        items,
        Instr::Lrlk {
            register: 1,
            word: first,
        },
    )?;
    push_instr(items, count_instr(count))?;
    push_clearing(items, label)
}
