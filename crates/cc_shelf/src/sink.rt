//! Where the commands put their lines.
ghost use Rattle.std.specs.Prelude.{◌≡◌, ◌≤◌, ◌++◌, Bool, IfErr, OnOk, IsErrOf, IsTrue};
ghost use Rattle.cc_shelf.specs.Counts.{raised};
ghost use Rattle.cc_shelf.specs.Output.{Output};
ghost use Rattle.cc_shelf.specs.Reliable.{PutsStayReliable};
ghost use Rattle.cc_shelf.specs.SinkAnswers.{PutRefused};

use std::alloc::{AllocError, Global};

/// Why a sink refused a piece.
#[derive(Clone, Copy, Debug, PartialEq, Eq)]
pub enum SinkFault {
    /// The put failed, and the sink counted it.
    Failed,
    NoMemory,
}

impl From<AllocError> for SinkFault {
    ghost use Rattle.cc_shelf.specs.declared.sink.SinkFault.TheVariants.{NoMemory};

    ghost from_gives = { λ _ e. e ≡ NoMemory };

    fn from(_: AllocError) -> Self {
        SinkFault::NoMemory
    }
}

/// An output that is put piece by piece. A sink may tell the bytes that were put, and then
/// contracts speak of them. It counts its puts, whatever they answer, its faults, and the puts that
/// found no memory; each count stays at its greatest value once it stands there. It may be known that
/// no put that comes can fail, for want of memory aside.
pub trait Sink {
    /// Whether the sink tells what was put.
    ghost tells: { Bool };

    /// What came of the puts. Where the sink doesn't tell, only the counts and `reliable` mean something.
    ghost output: { Self → Output };

    /// Puts a piece behind those before it. A failed put may leave a prefix of the piece there.
    fn put(&mut self, alloc: Global, piece: &[u8]) -> Result<(), SinkFault>
        ensures told { OnOk result (IsTrue tells → (output self.new).bytes ≡ (output self.old).bytes ++ piece.now) }
        ensures refused { IfErr result (PutRefused tells piece.now (output self.old) (output self.new)) }
        ensures counted { (output self.new).calls ≡ raised (output self.old).calls 1 }
        ensures later { (output self.old).faults ≤ (output self.new).faults }
        ensures success { OnOk result ((output self.new).faults ≡ (output self.old).faults) }
        ensures found { OnOk result ((output self.new).wants ≡ (output self.old).wants) }
        ensures reliable { PutsStayReliable (output self.old) (output self.new) }
        ensures unreliable { IsErrOf result SinkFault.Failed → ¬ IsTrue (output self.old).reliable };
}
