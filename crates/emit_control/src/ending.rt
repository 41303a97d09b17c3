//! How items end.
ghost use Rattle.std.specs.Prelude.{◌≡◌};
ghost use Rattle.acc_code.specs.AccView.{item_of};
ghost use Rattle.emit_control.specs.Emits as emits;

use acc_code::AccItem;

/// What stands behind an item.
#[derive(Clone, Copy, Debug)]
pub(crate) enum Ending {
    /// The item's first label, to which it leads, unless it is the last one of its list.
    Label,
    /// Nothing that control comes to from the item.
    Jump,
    /// What follows it.
    Plain,
}

impl Ending {
    pub(crate) fn of(item: &AccItem) -> Self
        ensures { result ≡ emits.ending (item_of item.now) }
    {
        match item {
            AccItem::If { .. } | AccItem::Loop { .. } | AccItem::Switch { .. } => Ending::Label,
            AccItem::Break | AccItem::Continue | AccItem::Return => Ending::Jump,
            _ => Ending::Plain,
        }
    }

    /// Whether a list ends with the item.
    pub(crate) fn ends(self, last: bool) -> bool
        ensures { result ≡ emits.ends_with self last }
    {
        match self {
            Ending::Label | Ending::Jump => last,
            Ending::Plain => false,
        }
    }
}
