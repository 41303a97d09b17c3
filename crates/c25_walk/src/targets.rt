//! Where the jumps of a range cut it.
ghost use Rattle.std.specs.Prelude.{◌≡◌, ℕ, ◌+◌, ◌<◌, ◌≤◌, ◌==◌, ◌||◌, false, List, IfOk, length, slice_index_or, vec_len};
ghost use Rattle.std.specs.List.{list_any};
ghost use Rattle.c25_isa.specs.Walk as spec;
ghost use Rattle.c25_walk.specs.Marks.{AreMarked, targets_of};

use crate::code::Placed;
use crate::registers::{ends_stretch, jump_target};
use std::alloc::Global;
use word_base::NoMemory;

/// The words of a range, and the one behind it, that its jumps name.
#[derive(Drop)]
pub(crate) struct Targets {
    // The address of the first word.
    first: u16,
    // Of each word from the first one on, whether a jump names it.
    marks: Vec<bool>,
}

impl Targets {
    /// Those of the jumps among these instructions of a range, which has so many words.
    pub(crate) fn new(
        alloc: Global,
        code: &[Placed],
        first: u16,
        count: usize,
    ) -> Result<Self, NoMemory>
        requires { count ≤ 65536 }
        ensures first { IfOk result (λ t. t.first ≡ first) }
        ensures count { IfOk result (λ t. vec_len t.marks ≡ count + 1) }
        ensures marked { IfOk result (λ t. AreMarked first t.marks.items (targets_of code.now)) }
    {
        let mut targets = Targets {
            first,
            marks: vec![in alloc; false; count + 1]?,
        };
        for placed in code {
            if let Some(to) = jump_target(placed.instr()) {
                targets.mark(to);
            }
        }
        Ok(targets)
    }

    // Marks a word, where it is one of the range or the one behind it.
    fn mark(&mut self, to: u16)
        ensures first { self.new.first ≡ self.old.first }
        ensures count { vec_len self.new.marks ≡ vec_len self.old.marks }
        ensures marks { (k : ℕ) → k < length self.old.marks.items
            → slice_index_or self.new.marks.items k false ≡ (slice_index_or self.old.marks.items k false || (to == self.old.first + k)) }
    {
        if to < self.first {
            return;
        }
        let index = usize::from(to - self.first);
        if index < self.marks.len() {
            self.marks[index] = true;
        }
    }

    /// Whether there is a cut behind an instruction of the range.
    pub(crate) fn is_cut_behind(&self, placed: &Placed) -> bool
        requires from { self.now.first ≤ placed.now.at }
        requires to { placed.now.behind < self.now.first + vec_len self.now.marks }
        ensures { (targets : List ℕ) → AreMarked self.now.first self.now.marks.items targets → result ≡ spec.is_cut_behind targets placed.now }
    {
        ends_stretch(placed.instr())
            || self.contains(u32::from(placed.at()) + 1)
            || self.contains(placed.behind())
    }

    // Whether a jump names this word.
    fn contains(&self, address: u32) -> bool
        requires from { self.now.first ≤ address }
        requires to { address < self.now.first + vec_len self.now.marks }
        ensures { (targets : List ℕ) → AreMarked self.now.first self.now.marks.items targets → result ≡ list_any (λ to. to == address) targets }
    {
        self.marks[(address - u32::from(self.first)) as usize]
    }
}
