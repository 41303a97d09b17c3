//! Macros, and which of them are being replaced.
ghost use Rattle.std.specs.Prelude.{◌≡◌, ◌⊎◌, ◌<◌, List, Ok, Err, None, true, false, is_some, length, set, slice_get, option_copied, option_map, MatchOption, IfOk, IfErr, OnOk};
ghost use Rattle.c_macro.specs.Macros.{macro_of};
ghost use Rattle.c_macro.specs.Macros as macros;
ghost use Rattle.c_macro.specs.Sections.{Section};
ghost use Rattle.c_macro.specs.Expands.{Defines, at_start, with_sections, without_macro};
ghost use Rattle.c_macro.specs.Expanding.{IsReady, IsIdle, table_in, free_in, body_at, state_in, IsFree};
ghost use Rattle.c_macro.specs.declared.fault.MacroFault.TheVariants as faults;

use crate::fault::{MacroFault, MacroLimit};
use crate::kinds::are_same;
use c_lexer::keyword_text;
use c_syntax::TokenKind;
use indexmap::IndexMap;
use std::alloc::Global;

/// The most macros that are defined at once.
const MOST_MACROS: usize = 1_000;

/// A token of a body that is being replaced: the number of the macro, and how many tokens come before.
#[derive(Clone, Copy)]
pub(crate) struct Frame {
    pub(crate) index: usize,
    pub(crate) next: usize,
}

/// The macros at a line.
#[derive(Drop)]
pub(crate) struct Macros<'a> {
    pub(crate) bodies: IndexMap<&'a str, Vec<TokenKind>>,
    // Whether the macro of each number is being replaced.
    pub(crate) busy: Vec<bool>,
}

// The spelling of a name or a keyword.
fn spelling_of(kind: &TokenKind) -> Option<&str>
    ensures { option_map (λ text. text.now) result ≡ macros.spelling_of kind.now }
{
    match kind {
        TokenKind::Word(keyword) => Some(keyword_text(*keyword)),
        TokenKind::Name(name) => Some(name.as_str()),
        TokenKind::Number { .. } | TokenKind::Char(_) | TokenKind::Mark(_) => None,
    }
}

impl<'a> Macros<'a> {
    /// No macro is defined.
    pub(crate) fn new(alloc: Global) -> Result<Self, MacroFault>
        ensures idle { IfOk result IsIdle }
        ensures none { IfOk result (λ found. (sections : List Section) → state_in found sections ≡ with_sections sections at_start) }
        ensures memory { IfErr result (λ fault. fault ≡ faults.NoMemory) }
    {
        let mut busy = Vec::new(alloc);
        busy.resize(MOST_MACROS, false)?;
        Ok(Macros {
            bodies: IndexMap::new(alloc),
            busy,
        })
    }

    /// Whether a name is a macro.
    pub(crate) fn has(&self, name: &str) -> bool
        ensures { result ≡ is_some (table_in self.now.bodies name.now) }
    {
        self.bodies.contains_key(name)
    }

    /// Defines a name at a place.
    pub(crate) fn define(
        &mut self,
        at: u32,
        name: &'a str,
        body: Vec<TokenKind>,
    ) -> Result<(), MacroFault>
        requires idle { IsIdle self.old }
        ensures idle { OnOk result (IsIdle self.new) }
        ensures defined { OnOk result ((sections : List Section)
            → Defines (state_in self.old sections) at name.now body.items None (Ok (state_in self.new sections))) }
        ensures fault { IfErr result (λ fault. (fault ≡ faults.NoMemory)
            ⊎ ((sections : List Section) → Defines (state_in self.old sections) at name.now body.items None (Err fault))) }
    {
        if let Some(old) = self.bodies.get(name) {
            return if are_same(old, &body) {
                Ok(())
            } else {
                Err(MacroFault::Redefined { at })
            };
        }
        if self.bodies.len() >= MOST_MACROS {
            return Err(MacroFault::TooMany {
                what: MacroLimit::Macros,
                count: MOST_MACROS as u32 + 1,
            });
        }
        self.bodies.insert(name, body)?;
        Ok(())
    }

    /// Takes a name's definition back, where it has one.
    pub(crate) fn undefine(&mut self, name: &str)
        requires idle { IsIdle self.old }
        ensures idle { IsIdle self.new }
        ensures undefined { (sections : List Section) → state_in self.new sections ≡ without_macro name.now (state_in self.old sections) }
    {
        self.bodies.swap_remove(name);
    }

    /// The number of the macro that a token is, where it isn't being replaced.
    pub(crate) fn find(&self, kind: &TokenKind) -> Option<usize>
        requires ready { IsReady self.now }
        ensures { MatchOption result (macro_of (free_in self.now.bodies self.now.busy.items) kind.now ≡ None) (IsFree self.now kind.now) }
    {
        let index = self.bodies.get_index_of(spelling_of(kind)?)?;
        if self.busy[index] { None } else { Some(index) }
    }

    /// The token that is next in a body, where one is left.
    pub(crate) fn kind_at(&self, frame: Frame) -> Option<&TokenKind>
        ensures { option_copied result ≡ slice_get (body_at self.now.bodies frame.index) frame.next }
    {
        let (_, body) = self.bodies.get_index(frame.index)?;
        body.get(frame.next)
    }

    /// Begins to replace a macro.
    pub(crate) fn begin(&mut self, index: usize)
        requires { index < length self.old.busy.items }
        ensures bodies { self.new.bodies ≡ self.old.bodies }
        ensures busy { self.new.busy.items ≡ set self.old.busy.items index true }
    {
        self.busy[index] = true;
    }

    /// Ends the replacement of a macro.
    pub(crate) fn end(&mut self, index: usize)
        requires { index < length self.old.busy.items }
        ensures bodies { self.new.bodies ≡ self.old.bodies }
        ensures busy { self.new.busy.items ≡ set self.old.busy.items index false }
    {
        self.busy[index] = false;
    }
}
