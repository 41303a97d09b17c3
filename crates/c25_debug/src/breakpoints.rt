//! The breakpoints of a session.
ghost use Rattle.std.specs.Prelude.{◌≡◌, false, vec_len, IfOk};
ghost use Rattle.c25_debug.specs.Session.{with_breakpoint};

use std::alloc::Global;
use word_base::NoMemory;

/// How many program addresses there are.
const ADDRESSES: usize = 65_536;

/// Which program addresses are breakpoints: a table, so that one look tells of an address.
#[derive(Drop)]
pub struct Breakpoints {
    table: Vec<bool>,
    ghost table_fits: { vec_len table ≡ 65536 },
}

impl Breakpoints {
    ghost use Rattle.c25_debug.specs.Standing.{breakpoints_of};

    /// No breakpoint.
    pub fn new(alloc: Global) -> Result<Self, NoMemory>
        ensures { IfOk result (λ b. breakpoints_of b ≡ λ a. false) }
    {
        Ok(Breakpoints {
            table: vec![in alloc; false; ADDRESSES]?,
        })
    }

    /// Whether an address is a breakpoint.
    pub fn has(&self, at: u16) -> bool
        ensures { result ≡ breakpoints_of self.now at }
    {
        self.table[usize::from(at)]
    }

    /// Makes an address a breakpoint, or none.
    pub fn set(&mut self, at: u16, is_set: bool)
        ensures { breakpoints_of self.new ≡ with_breakpoint (breakpoints_of self.old) at is_set }
    {
        self.table[usize::from(at)] = is_set;
    }
}
