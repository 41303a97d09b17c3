//! What stands before a place of the code.
ghost use Rattle.std.specs.Prelude.{◌≡◌};
ghost use Rattle.acc_code.specs.AccView.{item_list, item_of};
ghost use Rattle.emit_control.specs.Cuts as cuts;
ghost use Rattle.emit_control.specs.Emits as emits;
ghost use Rattle.emit_blocks.specs.Steps.{run_at};

use acc_code::{AccItem, AccOperand};

/// What stands directly before.
#[derive(Clone, Copy, PartialEq, Eq)]
pub enum Before {
    /// An access through a list's register, behind the last cut.
    Open,
    /// No such access.
    Shut,
    /// An item that control doesn't pass.
    Gone,
}

impl Before {
    /// Behind the operations at the front of a list.
    pub(crate) fn behind_operations(self, items: &[AccItem]) -> Self
        ensures { result ≡ emits.behind_operations (run_at (item_list items.now)) self }
    {
        match items.first() {
            Some(AccItem::Op { .. }) => self.behind_run(has_access(items)),
            _ => self,
        }
    }

    // Behind operations, by whether one of them is an access.
    fn behind_run(self, access: bool) -> Self
        ensures { result ≡ cuts.behind_run access self }
    {
        match self {
            Before::Open => Before::Open,
            Before::Shut | Before::Gone if access => Before::Open,
            Before::Shut | Before::Gone => Before::Shut,
        }
    }
}

fn operand_of(item: &AccItem) -> Option<AccOperand>
    ensures { result ≡ emits.operand_of (item_of item.now) }
{
    match item {
        AccItem::Op { operand, .. } => Some(*operand),
        _ => None,
    }
}

// Whether one of the operations at the front of a list is an access of a scalar.
#[tactic(auto, using(crate::proofs::Accessing::access_by))]
fn has_access(items: &[AccItem]) -> bool
    ensures { result ≡ cuts.has_access (run_at (item_list items.now)) }
{
    let mut rest = items;
    while let Some((first, behind)) = rest.split_first() {
        match operand_of(first) {
            Some(AccOperand::Scalar(_)) => return true,
            Some(_) => rest = behind,
            None => return false,
        }
    }
    false
}
