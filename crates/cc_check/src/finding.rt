//! What a check finds of a frame.
ghost use Rattle.std.specs.Prelude.{◌≡◌};
ghost use Rattle.cc_check.specs.Findings.{verdict_finding, is_pass};

use lay_cert::Verdict;

/// What a check finds of a frame: the first test that fails, or where none does, what the replay shows. Blocks and marks are counted
/// from 0, and places are program addresses.
#[derive(Clone, Copy, PartialEq, Eq)]
pub enum Finding {
    /// No function of the image has the name of the frame.
    NotInImage,
    /// The word here is no instruction.
    BadWord { at: u16 },
    /// The address of the access here isn't known.
    UnknownAddress { at: u16 },
    /// This is the first block whose addresses aren't those of the frame's accesses.
    WalkDiffers { block: u64 },
    /// The words have so many address instructions, and the frame says that they cost something else.
    Count { count: u32, cost: u64 },
    /// The layout costs something else than is claimed.
    Cost { claimed: u64, found: u64 },
    /// The node of this mark is closed, and its bound is below the cost.
    No { node: u64, bound: i64, cost: u64 },
    /// This mark is absent, is that of a branch at a complete node, or is left over.
    NoShape { node: u64 },
    /// No test fails, and no layout costs less.
    Optimal { cost: u64 },
    /// No test fails, and the layout is the best that was found.
    Best { cost: u64 },
}

impl Finding {
    /// By what the replay shows of a frame of this cost.
    pub(crate) fn of_verdict(verdict: Verdict, cost: u64) -> Self
        ensures { result ≡ verdict_finding cost verdict }
    {
        match verdict {
            Verdict::Yes => Finding::Optimal { cost },
            Verdict::Best => Finding::Best { cost },
            Verdict::Cost { claimed, found } => Finding::Cost { claimed, found },
            Verdict::No { node, bound, cost } => Finding::No { node, bound, cost },
            Verdict::NoShape { node } => Finding::NoShape { node },
        }
    }

    /// Whether no test fails.
    pub fn passes(self) -> bool
        ensures { result ≡ is_pass self }
    {
        matches!(self, Finding::Optimal { .. } | Finding::Best { .. })
    }
}
