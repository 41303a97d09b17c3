//! What operations do to the accumulator.
ghost use Rattle.std.specs.Prelude.{◌≡◌};
ghost use Rattle.emit_blocks.specs.Steps as steps;

use acc_code::AccOp;

/// What an operation does to the accumulator.
#[derive(Clone, Copy)]
pub enum ToAccumulator {
    Leaves,
    Loads,
    /// It takes, changes or stores what the accumulator holds.
    Works,
}

impl ToAccumulator {
    pub(crate) fn of(row: AccOp) -> Self
        ensures { result ≡ steps.to_accumulator row }
    {
        match row {
            AccOp::Lt
            | AccOp::Mpy
            | AccOp::Mpyk
            | AccOp::In { .. }
            | AccOp::Out { .. }
            | AccOp::Ssxm
            | AccOp::Rsxm
            | AccOp::Dint => ToAccumulator::Leaves,
            AccOp::Lac { .. }
            | AccOp::Zals
            | AccOp::Lact
            | AccOp::Lack
            | AccOp::Lalk { .. }
            | AccOp::Pac => ToAccumulator::Loads,
            _ => ToAccumulator::Works,
        }
    }
}

/// Whether a row loads the whole accumulator by a word as it is.
pub(crate) fn is_plain_load(row: AccOp) -> bool
    ensures { result ≡ steps.is_plain_load row }
{
    match row {
        AccOp::Lac { shift } | AccOp::Lalk { shift } => shift == 0,
        _ => false,
    }
}

pub(crate) fn is_point(row: AccOp) -> bool
    ensures { result ≡ steps.is_point row }
{
    matches!(row, AccOp::Point)
}
