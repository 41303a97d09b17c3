//! A sink over standard output.
ghost use Rattle.std.specs.Prelude.{◌≡◌, ◌≤◌, ◌++◌, false, IfErr, OnOk, IsErrOf, IsOkUnless, IsTrue};
ghost use Rattle.cc_shelf.specs.Counts.{raised};
ghost use Rattle.cc_shelf.specs.Output.{untold_output};
ghost use Rattle.cc_shelf.specs.Reliable.{PutsStayReliable};
ghost use Rattle.cc_shelf.specs.SinkAnswers.{PutRefused};

use crate::sink::{Sink, SinkFault};
use crate::stream::write_whole;
use std::alloc::Global;
use std::io;

/// Standard output, which doesn't tell what was put.
#[derive(Drop)]
pub struct OutSink<'a, R: Print> {
    rt: &'a R,
    pub calls: u64,
    pub faults: u64,
}

impl<'a, R: Print> OutSink<'a, R> {
    /// The sink before its first call.
    pub fn new(rt: &'a R) -> Self
        ensures calls { result.calls ≡ 0 }
        ensures faults { result.faults ≡ 0 }
    {
        OutSink {
            rt,
            calls: 0,
            faults: 0,
        }
    }
}

impl<'a, R: Print> Sink for OutSink<'a, R> {
    ghost tells = { false };

    ghost output = { λ s. untold_output s.calls s.faults };

    fn put(&mut self, _alloc: Global, piece: &[u8]) -> Result<(), SinkFault>
        ensures told { OnOk result (IsTrue false
            → (untold_output self.new.calls self.new.faults).bytes
            ≡ (untold_output self.old.calls self.old.faults).bytes ++ piece.now) }
        ensures refused { IfErr result (PutRefused false piece.now
            (untold_output self.old.calls self.old.faults) (untold_output self.new.calls self.new.faults)) }
        ensures counted { self.new.calls ≡ raised self.old.calls 1 }
        ensures later { self.old.faults ≤ self.new.faults }
        ensures success { OnOk result (self.new.faults ≡ self.old.faults) }
        ensures found { OnOk result ((untold_output self.new.calls self.new.faults).wants
            ≡ (untold_output self.old.calls self.old.faults).wants) }
        ensures reliable { PutsStayReliable (untold_output self.old.calls self.old.faults) (untold_output self.new.calls self.new.faults) }
        ensures unreliable { IsErrOf result SinkFault.Failed → ¬ IsTrue (untold_output self.old.calls self.old.faults).reliable }

        // It takes no memory.
        ensures never { IsOkUnless result SinkFault.Failed }
    {
        self.calls = self.calls.saturating_add(1);
        let mut out = io::writer(self.rt);
        if write_whole(&mut out, piece) {
            return Ok(());
        }
        self.faults = self.faults.saturating_add(1);
        Err(SinkFault::Failed)
    }
}
