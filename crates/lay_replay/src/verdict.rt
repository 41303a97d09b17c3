//! What a replay of a log answers.
ghost use Rattle.std.specs.Prelude.{◌≡◌};
ghost use Rattle.lay_replay.specs.LogVerdicts.{verdict_of, replay_at};

/// Whether a log fits the tree for a cost, and else the first mark that doesn't. Marks are counted from 0.
#[derive(Clone, Copy, PartialEq, Eq)]
pub enum LogVerdict {
    /// No layout costs less.
    Fits,
    /// The node of this mark is closed, and its bound is below the cost.
    TooLow { node: u64, bound: i64 },
    /// This mark is absent, is `Branched` at a complete node, or is left over.
    NoShape { node: u64 },
}

/// Why a log doesn't fit.
#[derive(Clone, Copy)]
pub(crate) enum Fault {
    TooLow { node: u64, bound: i64 },
    NoShape { node: u64 },
}

impl Fault {
    pub(crate) fn verdict(self) -> LogVerdict
        ensures { result ≡ verdict_of (replay_at self) }
    {
        match self {
            Fault::TooLow { node, bound } => LogVerdict::TooLow { node, bound },
            Fault::NoShape { node } => LogVerdict::NoShape { node },
        }
    }
}
