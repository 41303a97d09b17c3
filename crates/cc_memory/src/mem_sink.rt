//! A sink in memory.
ghost use Rattle.std.specs.Prelude.{◌≡◌, ◌≤◌, ◌++◌, [], true, OnOk, IfErr, IsErrOf, IsTrue, ◌↔◌, Contains};
ghost use Rattle.cc_shelf.specs.Counts.{raised};
ghost use Rattle.cc_shelf.specs.SinkAnswers.{PutRefused};
ghost use Rattle.cc_shelf.specs.Reliable.{PutsStayReliable};
ghost use Rattle.cc_memory.specs.MemOutput.{output_of};

use cc_shelf::{Sink, SinkFault};
use std::alloc::Global;

/// A sink that keeps and tells the bytes put. `fail_at` has the numbers, from 0, of the calls of
/// `put` that are to fail; a failed one puts nothing.
#[derive(Drop)]
pub struct MemSink {
    pub bytes: Vec<u8>,
    pub calls: u64,
    pub faults: u64,
    pub fail_at: Vec<u64>,
    // The puts that found no memory.
    wants: u64,
}

impl MemSink {
    /// A sink into which nothing was put.
    pub fn new(alloc: Global, fail_at: Vec<u64>) -> Self
        ensures empty { result.bytes.items ≡ [] }
        ensures calls { result.calls ≡ 0 }
        ensures faults { result.faults ≡ 0 }
        ensures fail_at { result.fail_at ≡ fail_at }
        ensures reliable { fail_at.items ≡ [] → IsTrue (output_of result).reliable }
    {
        MemSink {
            bytes: Vec::new(alloc),
            calls: 0,
            faults: 0,
            fail_at,
            wants: 0,
        }
    }
}

impl Sink for MemSink {
    ghost use Rattle.std.specs.Prelude.{true};

    ghost tells = { true };

    ghost output = { output_of };

    fn put(&mut self, _alloc: Global, piece: &[u8]) -> Result<(), SinkFault>
        ensures told { OnOk result (self.new.bytes.items ≡ self.old.bytes.items ++ piece.now) }
        ensures refused { IfErr result (PutRefused true piece.now (output_of self.old) (output_of self.new)) }
        ensures later { self.old.faults ≤ self.new.faults }
        ensures success { OnOk result (self.new.faults ≡ self.old.faults) }
        ensures found { OnOk result (self.new.wants ≡ self.old.wants) }
        ensures reliable { PutsStayReliable (output_of self.old) (output_of self.new) }
        ensures unreliable { IsErrOf result SinkFault.Failed → ¬ IsTrue (output_of self.old).reliable }

        // Calls are counted. One fails exactly where its number is in `fail_at`, then puts nothing, and else counts no fault.
        ensures calls { self.new.calls ≡ raised self.old.calls 1 }
        ensures fails { IsErrOf result SinkFault.Failed ↔ Contains self.old.fail_at.items self.old.calls }
        ensures failed { IsErrOf result SinkFault.Failed → self.new.bytes.items ≡ self.old.bytes.items }
        ensures fault { IsErrOf result SinkFault.Failed → self.new.faults ≡ raised self.old.faults 1 }
        ensures no_fault { ¬ Contains self.old.fail_at.items self.old.calls → self.new.faults ≡ self.old.faults }
        ensures fail_at { self.new.fail_at ≡ self.old.fail_at }
    {
        let is_to_fail = self.fail_at.contains(&self.calls);
        self.calls = self.calls.saturating_add(1);
        if is_to_fail {
            self.faults = self.faults.saturating_add(1);
            return Err(SinkFault::Failed);
        }
        if self.bytes.extend_from_slice(piece).is_err() {
            self.wants = self.wants.saturating_add(1);
            return Err(SinkFault::NoMemory);
        }
        Ok(())
    }
}
