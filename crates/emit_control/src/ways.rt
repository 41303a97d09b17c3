//! Where control goes from a list of items.
ghost use Rattle.std.specs.Prelude.{◌≡◌, ◌+◌, length, IfOk, IfSome};
ghost use Rattle.acc_code.specs.AccView.{item_list, item_of};
ghost use Rattle.emit_control.specs.Emits as emits;
ghost use Rattle.emit_control.specs.Flow as flow;

use acc_code::{AccItem, CaseLabel};
use word_base::NoMemory;

/// Labels to which control goes.
#[derive(Clone, Copy)]
pub struct Ways {
    /// Where the list ends.
    pub onward: u32,
    /// At a Break.
    pub broken: u32,
    /// At a Continue.
    pub continued: u32,
    /// The label of the first case of the switch around it.
    pub cases: u32,
}

impl Ways {
    /// The label to which a list leads at once, where it does. Such a list has no labels.
    #[tactic(auto, using(crate::proofs::Ends::target_by, crate::proofs::Ends::end_labels, crate::proofs::Ends::first_labels))]
    pub(crate) fn target(self, items: &[AccItem]) -> Option<u32>
        ensures target { result ≡ flow.target self (item_list items.now) }
        ensures labels { IfSome result (λ l. flow.labels (item_list items.now) ≡ 0) }
    {
        let Some((only, behind)) = items.split_first() else {
            return Some(self.onward);
        };
        if is_end(behind) {
            self.target_of(only)
        } else {
            None
        }
    }

    fn target_of(self, item: &AccItem) -> Option<u32>
        ensures target { result ≡ emits.item_target self (item_of item.now) }
        ensures labels { IfSome result (λ l. flow.item_labels (item_of item.now) ≡ 0) }
    {
        match item {
            AccItem::Break => Some(self.broken),
            AccItem::Continue => Some(self.continued),
            _ => None,
        }
    }
}

// Whether a list is empty.
pub(crate) fn is_end(items: &[AccItem]) -> bool
    ensures { result ≡ flow.is_end (item_list items.now) }
{
    items.split_first().is_none()
}

/// Where items stand.
#[derive(Clone, Copy)]
pub(crate) struct Spot {
    pub(crate) ways: Ways,
    /// The first label that the items own.
    pub(crate) base: u32,
    /// The label that is placed directly behind them.
    pub(crate) next: u32,
}

impl Spot {
    /// That of a function's body, whose end has label 0.
    pub(crate) fn body() -> Self
        ensures { result ≡ emits.body_spot }
    {
        Spot {
            ways: Ways {
                onward: 0,
                broken: 0,
                continued: 0,
                cases: 0,
            },
            base: 1,
            next: 0,
        }
    }

    /// That of an item of a list, by its own first label: behind the last one is where the list ends.
    pub(crate) fn of_item(self, last: bool, base: u32) -> Self
        ensures { result ≡ emits.item_spot last base self }
    {
        if last {
            return Spot { base, ..self };
        }
        Spot {
            ways: Ways {
                onward: base,
                ..self.ways
            },
            base,
            next: base,
        }
    }
}

/// The parts of loops and switches, by where these stand.
impl Spot {
    /// What stands before the first turn of a loop, by the loop's third part.
    pub(crate) fn first_part(self, third: &[AccItem]) -> Result<Self, NoMemory>
        ensures { IfOk result (λ s. s ≡ emits.first_spot (item_list third.now) self) }
    {
        let turn_end = self.turn_end(third)?;
        let start = label(self.base, 2)?;
        Ok(Spot {
            ways: Ways {
                onward: start,
                broken: self.ways.onward,
                continued: turn_end,
                cases: self.ways.cases,
            },
            base: label(self.base, 4)?,
            next: start,
        })
    }

    // Where the body of a loop leads.
    fn turn_end(self, third: &[AccItem]) -> Result<u32, NoMemory>
        ensures { IfOk result (λ l. l ≡ flow.turn_end (item_list third.now) self.base) }
    {
        if is_end(third) {
            label(self.base, 1)
        } else {
            label(self.base, 3)
        }
    }

    /// The body of a loop, from a label on.
    pub(crate) fn turn_part(self, third: &[AccItem], base: u32) -> Result<Self, NoMemory>
        ensures { IfOk result (λ s. s ≡ emits.turn_spot (item_list third.now) base self) }
    {
        let turn_end = self.turn_end(third)?;
        let ways = Ways {
            onward: turn_end,
            broken: self.ways.onward,
            continued: turn_end,
            cases: self.ways.cases,
        };
        let next = if is_end(third) { self.next } else { turn_end };
        Ok(Spot { ways, base, next })
    }

    /// The third part of a loop, from a label on.
    pub(crate) fn third_part(self, base: u32) -> Result<Self, NoMemory>
        ensures { IfOk result (λ s. s ≡ emits.third_spot base self) }
    {
        Ok(Spot {
            ways: Ways {
                onward: label(self.base, 1)?,
                broken: self.ways.onward,
                continued: self.ways.onward,
                cases: self.ways.cases,
            },
            base,
            next: self.next,
        })
    }

    /// The body of a switch, from a label on.
    pub(crate) fn switch_part(self, base: u32) -> Result<Self, NoMemory>
        ensures { IfOk result (λ s. s ≡ emits.switch_spot base self) }
    {
        Ok(Spot {
            ways: Ways {
                onward: self.ways.onward,
                broken: self.ways.onward,
                continued: self.ways.continued,
                cases: label(self.base, 1)?,
            },
            base,
            next: self.next,
        })
    }
}

/// A label behind another one. Labels have 32 bits: behind those there is none.
pub(crate) fn label(base: u32, count: u32) -> Result<u32, NoMemory>
    ensures { IfOk result (λ l. l ≡ base + count) }
{
    base.checked_add(count).ok_or(NoMemory)
}

/// The label behind those of cases, from a label on.
pub(crate) fn behind_cases(base: u32, cases: &[CaseLabel]) -> Result<u32, NoMemory>
    ensures { IfOk result (λ l. l ≡ base + length cases.now) }
{
    let count = u32::try_from(cases.len()).map_err(|_| NoMemory)?;
    label(base, count)
}
