//! The replacement of macros by their bodies.
ghost use Rattle.std.specs.Prelude.{◌≡◌, ◌<◌, ◌≤◌, [], ◌∷◌, OnOk, IfErr};
ghost use Rattle.indexmap.specs.IndexMap.{index_map_len};
ghost use Rattle.c_macro.specs.Macros.{Replaces, steps, most_macros};
ghost use Rattle.c_macro.specs.Expanding.{TakesTo, StopsOn, IsReady, IsIdle, table_in, Enters, AreFrames, frames_of, pending_of, LeadsOn, unwound, measure_of};

use crate::fault::MacroFault;
use crate::kinds::copy_of;
use crate::macros::{Frame, Macros};
use crate::output::Output;
use c_syntax::Token;
use std::alloc::Global;

/// The macros at a line, the tokens that are answered, and the bodies that are being replaced.
#[derive(Drop)]
pub(crate) struct Replacer<'a> {
    pub(crate) alloc: Global,
    pub(crate) macros: Macros<'a>,
    pub(crate) output: Output,
    // The outermost first.
    pub(crate) stack: Vec<Frame>,
}

impl<'a> Replacer<'a> {
    // Begins to replace a macro.
    fn enter(&mut self, index: usize) -> Result<(), MacroFault>
        requires ready { IsReady self.old.macros }
        requires known { index < index_map_len self.old.macros.bodies }
        ensures entered { OnOk result (Enters self.old index self.new) }
        ensures stopped { IfErr result (StopsOn self.old.output (Replaces ∷ [])) }
    {
        self.output.count_replacement()?;
        self.macros.begin(index);
        self.stack.push(Frame { index, next: 0 })?;
        Ok(())
    }

    // Takes the next token of a body that was last on the stack: it is answered, or a macro that is entered. Where none
    // is left the replacement ends.
    fn take_token(&mut self, frame: Frame, at: u32, len: u32) -> Result<(), MacroFault>
        requires ready { IsReady self.old.macros }
        requires frames { AreFrames (frame ∷ frames_of self.old) }
        ensures ready { OnOk result (IsReady self.new.macros) }
        ensures frames { OnOk result (AreFrames (frames_of self.new)) }
        ensures bodies { OnOk result (self.new.macros.bodies ≡ self.old.macros.bodies) }
        ensures leads_on { OnOk result (LeadsOn at len self.old (frame ∷ frames_of self.old) self.new (frames_of self.new)) }
        ensures unwound { OnOk result (unwound self.new.macros.busy.items (frames_of self.new)
            ≡ unwound self.old.macros.busy.items (frame ∷ frames_of self.old)) }
        ensures smaller { OnOk result (measure_of self.new ≤ measure_of self.old) }
        ensures stopped { IfErr result (StopsOn self.old.output (pending_of self.old at len (frame ∷ frames_of self.old))) }
    {
        let Some(kind) = self.macros.kind_at(frame) else {
            self.macros.end(frame.index);
            return Ok(());
        };
        let following = Frame {
            index: frame.index,
            next: frame.next + 1,
        };
        match self.macros.find(kind) {
            Some(index) => {
                self.stack.push(following)?;
                self.enter(index)
            }
            None => {
                let kind = copy_of(self.alloc, kind)?;
                self.stack.push(following)?;
                self.output.answer(Token { kind, at, len })
            }
        }
    }

    // Replaces the macros on the stack to their ends.
    fn finish(&mut self, at: u32, len: u32) -> Result<(), MacroFault>
        requires ready { IsReady self.old.macros }
        requires frames { AreFrames (frames_of self.old) }
        ensures bodies { OnOk result (self.new.macros.bodies ≡ self.old.macros.bodies) }
        ensures takes { OnOk result (TakesTo self.old.output (pending_of self.old at len (frames_of self.old)) self.new.output) }
        ensures unwound { OnOk result (self.new.macros.busy.items ≡ unwound self.old.macros.busy.items (frames_of self.old)) }
        ensures empty { OnOk result (self.new.stack.items ≡ []) }
        ensures stopped { IfErr result (StopsOn self.old.output (pending_of self.old at len (frames_of self.old))) }
    {
        while let Some(frame) = self.stack.pop() {
            self.take_token(frame, at, len)?;
        }
        Ok(())
    }

    /// Answers a token of a kept line, or what replaces it.
    pub(crate) fn expand_token(&mut self, token: Token) -> Result<(), MacroFault>
        requires idle { IsIdle self.old.macros }
        requires empty { self.old.stack.items ≡ [] }
        ensures takes { OnOk result (TakesTo self.old.output (steps most_macros (table_in self.old.macros.bodies) token) self.new.output) }
        ensures bodies { OnOk result (self.new.macros.bodies ≡ self.old.macros.bodies) }
        ensures busy { OnOk result (self.new.macros.busy.items ≡ self.old.macros.busy.items) }
        ensures empty { OnOk result (self.new.stack.items ≡ []) }
        ensures stopped { IfErr result (StopsOn self.old.output (steps most_macros (table_in self.old.macros.bodies) token)) }
    {
        match self.macros.find(&token.kind) {
            Some(index) => {
                self.enter(index)?;
                self.finish(token.at, token.len)
            }
            None => self.output.answer(token),
        }
    }
}
