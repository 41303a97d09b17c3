//! The items of a function's piece.
ghost use Rattle.std.specs.Prelude.{◌≡◌, IfOk};
ghost use Rattle.acc_code.specs.AccView.{item_list};
ghost use Rattle.acc_code.specs.Emittable.{Throughout};
ghost use Rattle.c25_isa.specs.Items.{ItemsFit};
ghost use Rattle.emit_control.specs.Cuts as cuts;
ghost use Rattle.emit_control.specs.Emits.{IsRightItem};
ghost use Rattle.emit_control.specs.Settings.{setting_of};
ghost use Rattle.emit_blocks.specs.Places.{places_of};
ghost use Rattle.emit_blocks.specs.Right.{HaveRegisters};

use crate::code::Code;
use crate::flow::list;
use crate::setting::Setting;
use crate::ways::Spot;
use acc_code::AccItem;
use c25_isa::PieceItem;
use std::alloc::Global;
use word_base::NoMemory;

/// The items of the piece of a function with this body. It fails only where memory is wanting, or where the function has more labels than
/// numbers of 32 bits.
pub fn function_items(
    alloc: Global,
    setting: &Setting,
    body: &[AccItem],
) -> Result<Vec<PieceItem>, NoMemory>
    requires right { Throughout IsRightItem (item_list body.now) }
    requires registers { HaveRegisters (places_of setting.now.site).scalars }
    ensures items { IfOk result (λ v. v.items ≡ cuts.function_items (setting_of setting.now) (item_list body.now)) }
    // Each operand is in its range.
    ensures fit { IfOk result (λ v. ItemsFit v.items) }
{
    let mut code = Code::begin(alloc, setting.back)?;
    list(alloc, setting, &mut code, body, Spot::body())?;
    code.finish(setting, 0)?;
    Ok(code.items)
}
