//! What the replay of a certificate shows.
ghost use Rattle.std.specs.Prelude.{◌≡◌, IfOk};
ghost use Rattle.lay_tree.specs.Replays as tree;
ghost use Rattle.lay_replay.specs.LogVerdicts as logs;
ghost use Rattle.lay_cert.specs.Verdicts as verdicts;

use crate::certificate::{CertFrame, Claim};
use lay_cost::cost;
use lay_replay::{LogReplay, LogVerdict};
use std::alloc::Global;
use std::marker::Model;
use word_base::NoMemory;

/// What a replay of a frame shows. Marks are counted from 0.
#[derive(Clone, Copy, Debug, PartialEq, Eq)]
pub enum Verdict {
    /// The layout costs what is claimed, and the log shows that none costs less.
    Yes,
    /// The layout costs what is claimed, and no more is claimed than that it is the best that was found.
    Best,
    /// The layout costs something else than is claimed.
    Cost { claimed: u64, found: u64 },
    /// The node of this mark is closed, and its bound is below the cost.
    No { node: u64, bound: i64, cost: u64 },
    /// This mark is absent, is `Branched` at a complete node, or is left over.
    NoShape { node: u64 },
}

/// Room for the replay of frames over a number of registers. Contracts see that number.
#[derive(Drop)]
pub struct Replay {
    log: LogReplay,
}

impl Model for Replay {
    ghost use Rattle.std.specs.Prelude.{ℕ};

    ghost Value = { ℕ };

    ghost view = { λ r. r.log };
}

impl Replay {
    /// With room for this frame, and for each one over as many registers.
    pub fn new(alloc: Global, frame: &CertFrame) -> Result<Self, NoMemory>
        ensures { IfOk result (λ r. r ≡ frame.now.registers) }
    {
        Ok(Replay {
            log: LogReplay::new(alloc, frame.registers())?,
        })
    }

    /// Whether the layout of the frame costs what is claimed, and whether its log shows the claim. It takes no memory.
    pub fn replay(&mut self, frame: &CertFrame) -> Verdict
        requires { self.old ≡ frame.now.registers }
        ensures verdict { result ≡ verdicts.verdict_of frame.now }
        ensures again { self.new ≡ self.old }
    {
        let claimed = frame.cost();
        let found = cost(frame.seq(), frame.arr());
        if claimed == found {
            self.replay_claim(frame)
        } else {
            Verdict::Cost { claimed, found }
        }
    }

    // Whether the log shows what is claimed of a layout that costs what it is said to.
    fn replay_claim(&mut self, frame: &CertFrame) -> Verdict
        requires { self.old ≡ frame.now.registers }
        ensures verdict { result ≡ verdicts.claim_verdict frame.now frame.now.claim }
        ensures again { self.new ≡ self.old }
    {
        match frame.claim() {
            Claim::Best { .. } => Verdict::Best,
            Claim::Optimal => {
                let log = self.log.replay(frame.seq(), frame.cost(), frame.marks());
                verdict_of(log, frame.cost())
            }
        }
    }
}

// What the replay of a log shows of a layout that costs so much.
fn verdict_of(log: LogVerdict, cost: u64) -> Verdict
    ensures { (r : tree.Replay) → log ≡ logs.verdict_of r → result ≡ verdicts.log_verdict cost r }
{
    match log {
        LogVerdict::Fits => Verdict::Yes,
        LogVerdict::TooLow { node, bound } => Verdict::No { node, bound, cost },
        LogVerdict::NoShape { node } => Verdict::NoShape { node },
    }
}
