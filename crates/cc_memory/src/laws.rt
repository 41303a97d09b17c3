//! When shelves and sinks in memory can't fail.
ghost use Rattle.std.specs.Prelude.{◌<◌, ℕ, IsTrue, ◌↔◌, Contains};
ghost use Rattle.cc_memory.specs.MemStock.{stock_of};
ghost use Rattle.cc_memory.specs.MemOutput.{output_of};

use crate::mem_shelf::MemShelf;
use crate::mem_sink::MemSink;

/// A shelf is reliable exactly where the number of no call that comes is in `fail_at`. The greatest
/// number comes again and again.
pub fn reliable_shelves(shelf: &MemShelf)
    ensures { IsTrue (stock_of shelf.now).reliable ↔ ((n : ℕ) → Contains shelf.now.fail_at.items n → n < shelf.now.calls) }
{}

/// A sink is reliable exactly where the number of no put that comes is in `fail_at`. The greatest
/// number comes again and again.
pub fn reliable_sinks(sink: &MemSink)
    ensures { IsTrue (output_of sink.now).reliable ↔ ((n : ℕ) → Contains sink.now.fail_at.items n → n < sink.now.calls) }
{}
