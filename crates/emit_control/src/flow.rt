//! From items to entries, and at once to the items that these become. Each function gives the label behind those that its items own, and
//! fails only where memory is wanting, or where a label would pass 32 bits.
ghost use Rattle.std.specs.Prelude.{◌≡◌, ◌+◌, IfOk, OnOk, Some, ◌∷◌, [], length};
ghost use Rattle.acc_code.specs.AccView.{item_list, item_of};
ghost use Rattle.acc_code.specs.Emittable.{Throughout, Within};
ghost use Rattle.emit_control.specs.Emits as emits;
ghost use Rattle.emit_control.specs.Emits.{Emits, IsRightItem, item_code};
ghost use Rattle.emit_control.specs.Entries as entries;
ghost use Rattle.emit_control.specs.Flow as flow;
ghost use Rattle.emit_control.specs.Flow.{emit};
ghost use Rattle.emit_control.specs.Settings.{setting_of};
ghost use Rattle.emit_blocks.specs.Places.{places_of};
ghost use Rattle.emit_blocks.specs.Right.{HaveRegisters};

use crate::cases::dispatch;
use crate::code::Code;
use crate::ending::Ending;
use crate::setting::Setting;
use crate::tests::opposite;
use crate::ways::{Spot, behind_cases, is_end, label};
use acc_code::{AccItem, CaseLabel, Test};
use std::alloc::Global;
use word_base::NoMemory;

/// The code of a list of items.
#[cycle(items)]
pub(crate) fn list(
    alloc: Global,
    setting: &Setting,
    code: &mut Code,
    items: &[AccItem],
    spot: Spot,
) -> Result<u32, NoMemory>
    requires right { Throughout IsRightItem (item_list items.now) }
    requires registers { HaveRegisters (places_of setting.now.site).scalars }
    ensures emits { OnOk result (Emits (setting_of setting.now) code.old (emit (item_list items.now) [] spot.ways spot.base spot.next) code.new) }
    ensures behind { IfOk result (λ l. l ≡ spot.base + flow.labels (item_list items.now)) }
{
    let mut base = spot.base;
    let mut rest = code.run(alloc, setting, items)?;
    while let Some((first, behind)) = rest.split_first() {
        let last = is_end(behind);
        let next = item(alloc, setting, code, first, spot.of_item(last, base))?;
        let ending = Ending::of(first);
        code.place_behind(ending, last, base)?;
        if ending.ends(last) {
            return Ok(next);
        }
        base = next;
        rest = code.run(alloc, setting, behind)?;
    }
    code.goto_unless_next(spot.ways.onward, spot.next)?;
    Ok(base)
}

// The code of an item that is no operation, before what stands behind it.
#[cycle(items)]
fn item(
    alloc: Global,
    setting: &Setting,
    code: &mut Code,
    x: &AccItem,
    spot: Spot,
) -> Result<u32, NoMemory>
    requires right { Within IsRightItem (item_of x.now) }
    requires registers { HaveRegisters (places_of setting.now.site).scalars }
    ensures emits { OnOk result (Emits (setting_of setting.now) code.old (item_code (item_of x.now) spot.ways spot.base spot.next) code.new) }
    ensures behind { IfOk result (λ l. l ≡ spot.base + flow.item_labels (item_of x.now)) }
{
    match x {
        AccItem::If { test, yes, no } => if_item(alloc, setting, code, *test, yes, no, spot),
        AccItem::Loop {
            before,
            body,
            after,
            ..
        } => loop_item(alloc, setting, code, before, body, after, spot),
        AccItem::Switch { cases, body } => { switch_item(alloc, setting, code, cases, body, spot) }
        _ => plain_item(alloc, setting, code, x, spot),
    }
}

// The code of an item that has no parts.
fn plain_item(
    alloc: Global,
    setting: &Setting,
    code: &mut Code,
    x: &AccItem,
    spot: Spot,
) -> Result<u32, NoMemory>
    requires { emits.HasNoParts (item_of x.now) }
    ensures emits { OnOk result (Emits (setting_of setting.now) code.old (item_code (item_of x.now) spot.ways spot.base spot.next) code.new) }
    ensures behind { IfOk result (λ l. l ≡ spot.base + flow.item_labels (item_of x.now)) }
{
    match x {
        AccItem::Case(n) => code.place(label(spot.ways.cases, u32::from(*n))?)?,
        AccItem::Clear { object, from } => {
            code.wipe(setting, *object, *from, spot.base)?;
            return label(spot.base, 1);
        }
        AccItem::Call { function } => code.call(alloc, setting, *function)?,
        AccItem::Helper(name) => code.helper(alloc, *name)?,
        AccItem::Break => code.goto(spot.ways.broken)?,
        AccItem::Continue => code.goto(spot.ways.continued)?,
        AccItem::Return => code.give_back(setting)?,
        _ => {}
    }
    Ok(spot.base)
}

#[cycle(items)]
fn if_item(
    alloc: Global,
    setting: &Setting,
    code: &mut Code,
    test: Test,
    yes: &[AccItem],
    no: &[AccItem],
    spot: Spot,
) -> Result<u32, NoMemory>
    requires yes { Throughout IsRightItem (item_list yes.now) }
    requires no { Throughout IsRightItem (item_list no.now) }
    requires registers { HaveRegisters (places_of setting.now.site).scalars }
    ensures emits { OnOk result (Emits (setting_of setting.now) code.old (emits.if_part test (item_list yes.now) (item_list no.now) spot.ways spot.base spot.next) code.new) }
    ensures behind { IfOk result (λ l. l ≡ spot.base + (2 + flow.labels (item_list yes.now) + flow.labels (item_list no.now))) }
{
    let first = label(spot.base, 2)?;
    match spot.ways.target(yes) {
        Some(one) => match spot.ways.target(no) {
            Some(other) => {
                code.choose(test, one, other, spot.next)?;
                Ok(first)
            }
            None => {
                code.branch(test, one)?;
                list(
                    alloc,
                    setting,
                    code,
                    no,
                    Spot {
                        base: first,
                        ..spot
                    },
                )
            }
        },
        None => match spot.ways.target(no) {
            Some(other) => {
                code.branch(opposite(test), other)?;
                list(
                    alloc,
                    setting,
                    code,
                    yes,
                    Spot {
                        base: first,
                        ..spot
                    },
                )
            }
            None => both_parts(alloc, setting, code, test, yes, no, spot),
        },
    }
}

// Two parts that don't lead elsewhere at once.
#[cycle(items)]
fn both_parts(
    alloc: Global,
    setting: &Setting,
    code: &mut Code,
    test: Test,
    yes: &[AccItem],
    no: &[AccItem],
    spot: Spot,
) -> Result<u32, NoMemory>
    requires yes { Throughout IsRightItem (item_list yes.now) }
    requires no { Throughout IsRightItem (item_list no.now) }
    requires registers { HaveRegisters (places_of setting.now.site).scalars }
    ensures emits { OnOk result (Emits (setting_of setting.now) code.old (emits.both_parts test (item_list yes.now) (item_list no.now) spot.ways spot.base spot.next) code.new) }
    ensures behind { IfOk result (λ l. l ≡ spot.base + (2 + flow.labels (item_list yes.now) + flow.labels (item_list no.now))) }
{
    let other = label(spot.base, 1)?;
    let first = label(spot.base, 2)?;
    code.branch(opposite(test), other)?;
    let one = Spot {
        ways: spot.ways,
        base: first,
        next: other,
    };
    let base = list(alloc, setting, code, yes, one)?;
    code.place(other)?;
    list(alloc, setting, code, no, Spot { base, ..spot })
}

#[cycle(items)]
fn loop_item(
    alloc: Global,
    setting: &Setting,
    code: &mut Code,
    before: &[AccItem],
    body: &[AccItem],
    third: &[AccItem],
    spot: Spot,
) -> Result<u32, NoMemory>
    requires before { Throughout IsRightItem (item_list before.now) }
    requires body { Throughout IsRightItem (item_list body.now) }
    requires third { Throughout IsRightItem (item_list third.now) }
    requires registers { HaveRegisters (places_of setting.now.site).scalars }
    ensures emits { OnOk result (Emits (setting_of setting.now) code.old (emits.loop_part (item_list before.now) (item_list body.now) (item_list third.now) spot.ways spot.base spot.next) code.new) }
    ensures behind { IfOk result (λ l. l ≡ spot.base + (4 + flow.labels (item_list before.now) + flow.labels (item_list body.now) + flow.labels (item_list third.now))) }
{
    let first = spot.first_part(third)?;
    code.head(label(spot.base, 1)?)?;
    let base = list(alloc, setting, code, before, first)?;
    code.place(first.next)?;
    let turn = spot.turn_part(third, base)?;
    let base = list(alloc, setting, code, body, turn)?;
    loop_end(alloc, setting, code, third, base, spot)
}

// The third part of a loop, from a label on, and the loop's end.
#[cycle(items)]
fn loop_end(
    alloc: Global,
    setting: &Setting,
    code: &mut Code,
    third: &[AccItem],
    base: u32,
    spot: Spot,
) -> Result<u32, NoMemory>
    requires third { Throughout IsRightItem (item_list third.now) }
    requires registers { HaveRegisters (places_of setting.now.site).scalars }
    ensures emits { OnOk result (Emits (setting_of setting.now) code.old (emits.end_part (item_list third.now) base spot) code.new) }
    ensures behind { IfOk result (λ l. l ≡ base + flow.labels (item_list third.now)) }
{
    let head = label(spot.base, 1)?;
    if is_end(third) {
        code.close(head, spot.next)?;
        return Ok(base);
    }
    code.place(label(spot.base, 3)?)?;
    let end = list(alloc, setting, code, third, spot.third_part(base)?)?;
    code.close(head, spot.next)?;
    Ok(end)
}

#[cycle(items)]
fn switch_item(
    alloc: Global,
    setting: &Setting,
    code: &mut Code,
    cases: &[CaseLabel],
    body: &[AccItem],
    spot: Spot,
) -> Result<u32, NoMemory>
    requires right { Throughout IsRightItem (item_list body.now) }
    requires registers { HaveRegisters (places_of setting.now.site).scalars }
    ensures emits { OnOk result (Emits (setting_of setting.now) code.old (emits.switch_part cases.now (item_list body.now) spot.ways spot.base spot.next) code.new) }
    ensures behind { IfOk result (λ l. l ≡ spot.base + (1 + length cases.now + flow.labels (item_list body.now))) }
{
    let first = label(spot.base, 1)?;
    dispatch(code, cases, first, spot.ways.onward)?;
    let base = behind_cases(first, cases)?;
    list(alloc, setting, code, body, spot.switch_part(base)?)
}
