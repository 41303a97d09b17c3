//! The lines of a source, one after another.
ghost use Rattle.std.specs.Prelude.{◌≡◌, ◌≢◌, ◌⊎◌, ◌<◌, ◌+◌, ◌^◌, ℕ, Option, [], length, Ok, Err, OnOk, IfOk, IfErr};
ghost use Rattle.c_lexer.specs.declared.fault.LexFault.{LexFault};
ghost use Rattle.c_macro.specs.Expands.{at_start, nothing_yet, Obeys, LineDoes, ComesTo, at_end};
ghost use Rattle.c_macro.specs.Expanding.{IsAtLine, state_of, out_of, AnswersText, StopsInText, Tests, HasNoLoneName, ObeysAt, LeadsTo};
ghost use Rattle.c_macro.specs.declared.fault.MacroFault.TheVariants as faults;
ghost use Rattle.c_macro.specs.declared.verb.Verb.TheVariants as verbs;

use crate::directives::{Directive, read_directive, read_lone_name, read_name};
use crate::fault::MacroFault;
use crate::lines::line_size;
use crate::macros::Macros;
use crate::output::Output;
use crate::reader::{Reader, read_body};
use crate::replacer::Replacer;
use crate::sections::Sections;
use crate::verb::{Verb, verb_of};
use c_lexer::LexFault;
use c_spellings::behind;
use c_syntax::Token;
use std::alloc::Global;

/// What the lines before a line leave.
#[derive(Drop)]
pub(crate) struct Expander<'a> {
    pub(crate) replacer: Replacer<'a>,
    pub(crate) sections: Sections,
}

impl<'a> Expander<'a> {
    /// Before the first line.
    pub(crate) fn new(alloc: Global) -> Result<Self, MacroFault>
        ensures ready { IfOk result IsAtLine }
        ensures start { IfOk result (λ found. (state_of found ≡ at_start) × (out_of found ≡ nothing_yet)) }
        ensures memory { IfErr result (λ fault. fault ≡ faults.NoMemory) }
    {
        Ok(Expander {
            replacer: Replacer {
                alloc,
                macros: Macros::new(alloc)?,
                output: Output::new(alloc),
                stack: Vec::new(alloc),
            },
            sections: Sections::new(alloc),
        })
    }

    // Answers the tokens of a kept line at a place that is no directive, each replaced.
    fn expand_text(&mut self, at: u32, line: &[u8]) -> Result<(), MacroFault>
        requires ready { IsAtLine self.old }
        requires placed { at + length line.now < 2 ^ 32 }
        ensures ready { OnOk result (IsAtLine self.new) }
        ensures same { OnOk result (state_of self.new ≡ state_of self.old) }
        ensures expanded { OnOk result (AnswersText self.old at line.now self.new) }
        ensures stopped { IfErr result (StopsInText self.old at line.now) }
    {
        let mut reader = Reader {
            rest: line,
            end: at + line.len() as u32,
        };
        while let Some(token) = reader.next(self.replacer.alloc)? {
            self.replacer.expand_token(token)?;
        }
        Ok(())
    }

    // Obeys `#define` with a rest at a place, at whose end a comment may be open.
    fn define(
        &mut self,
        hash: u32,
        at: u32,
        rest: &'a [u8],
        comment: Option<LexFault>,
    ) -> Result<(), MacroFault>
        requires ready { IsAtLine self.old }
        requires placed { at + length rest.now < 2 ^ 32 }
        ensures ready { OnOk result (IsAtLine self.new) }
        ensures output { OnOk result (out_of self.new ≡ out_of self.old) }
        ensures obeyed { OnOk result (Obeys (state_of self.old) hash at rest.now comment verbs.Define (Ok (state_of self.new))) }
        ensures fault { IfErr result (λ fault. (fault ≡ faults.NoMemory) ⊎ Obeys (state_of self.old) hash at rest.now comment verbs.Define (Err fault)) }
    {
        let Some(found) = read_name(rest) else {
            return Err(MacroFault::Directive { at: hash });
        };
        if let Some(_) = behind(found.rest, b"(") {
            return Err(MacroFault::Directive { at: hash });
        }
        let body = read_body(self.replacer.alloc, found.rest, at + rest.len() as u32)?;
        match comment {
            Some(fault) => Err(MacroFault::Lex(fault)),
            None => self.replacer.macros.define(at + found.at, found.name, body),
        }
    }

    // Obeys `#undef` with a rest.
    fn undefine(&mut self, hash: u32, rest: &[u8]) -> Result<(), MacroFault>
        requires ready { IsAtLine self.old }
        requires placed { length rest.now < 2 ^ 32 }
        ensures ready { OnOk result (IsAtLine self.new) }
        ensures output { OnOk result (out_of self.new ≡ out_of self.old) }
        ensures obeyed { OnOk result ((at : ℕ) (comment : Option LexFault)
            → Obeys (state_of self.old) hash at rest.now comment verbs.Undef (Ok (state_of self.new))) }
        ensures fault { IfErr result (λ fault. (at : ℕ) (comment : Option LexFault)
            → Obeys (state_of self.old) hash at rest.now comment verbs.Undef (Err fault)) }
    {
        let Some(name) = read_lone_name(rest) else {
            return Err(MacroFault::Directive { at: hash });
        };
        self.replacer.macros.undefine(name);
        Ok(())
    }

    // Whether the name is defined that `#ifdef` or `#ifndef` has as its rest.
    fn tests(&self, hash: u32, rest: &[u8]) -> Result<bool, MacroFault>
        requires placed { length rest.now < 2 ^ 32 }
        ensures tested { IfOk result (Tests self.now rest.now) }
        ensures fault { IfErr result (HasNoLoneName hash rest.now) }
    {
        match read_lone_name(rest) {
            Some(name) => Ok(self.replacer.macros.has(name)),
            None => Err(MacroFault::Directive { at: hash }),
        }
    }

    // Obeys `#` without a word: nothing may follow it.
    fn obey_none(hash: u32, rest: &[u8]) -> Result<(), MacroFault>
        ensures none { OnOk result (rest.now ≡ []) }
        ensures fault { IfErr result (λ fault. (fault ≡ faults.Directive hash) × (rest.now ≢ [])) }
    {
        if rest.is_empty() {
            Ok(())
        } else {
            Err(MacroFault::Directive { at: hash })
        }
    }

    // Obeys a directive of a kept line at a place, at whose end a comment may be open.
    fn obey(
        &mut self,
        at: u32,
        directive: &Directive<'a>,
        comment: Option<LexFault>,
    ) -> Result<(), MacroFault>
        requires ready { IsAtLine self.old }
        requires placed { at + directive.now.at + length directive.now.rest.now < 2 ^ 32 }
        requires hash { at + directive.now.hash < 2 ^ 32 }
        ensures ready { OnOk result (IsAtLine self.new) }
        ensures output { OnOk result (out_of self.new ≡ out_of self.old) }
        ensures obeyed { OnOk result (ObeysAt self.old at directive.now comment (Ok (state_of self.new))) }
        ensures fault { IfErr result (λ fault. (fault ≡ faults.NoMemory) ⊎ ObeysAt self.old at directive.now comment (Err fault)) }
    {
        let (hash, rest) = (at + directive.hash, directive.rest);
        match verb_of(directive.word) {
            Verb::Alone => Self::obey_none(hash, rest),
            Verb::Pragma => Ok(()),
            Verb::Define => self.define(hash, at + directive.at, rest, comment),
            Verb::Undef => self.undefine(hash, rest),
            Verb::Ifdef => {
                let is_defined = self.tests(hash, rest)?;
                self.sections.open(hash, is_defined)
            }
            Verb::Ifndef => {
                let is_defined = self.tests(hash, rest)?;
                self.sections.open(hash, !is_defined)
            }
            Verb::Else => self.sections.turn(hash),
            Verb::Endif => self.sections.close(hash),
            Verb::If | Verb::Elif | Verb::Unknown => Err(MacroFault::Directive { at: hash }),
        }
    }

    // Takes a line at a place, at whose end a comment may be open.
    fn take_line(
        &mut self,
        at: u32,
        line: &'a [u8],
        comment: Option<LexFault>,
    ) -> Result<(), MacroFault>
        requires ready { IsAtLine self.old }
        requires placed { at + length line.now < 2 ^ 32 }
        ensures ready { OnOk result (IsAtLine self.new) }
        ensures taken { OnOk result (LineDoes (state_of self.old) (out_of self.old) at line.now comment (Ok (state_of self.new, out_of self.new))) }
        ensures fault { IfErr result (λ fault. (fault ≡ faults.NoMemory)
            ⊎ LineDoes (state_of self.old) (out_of self.old) at line.now comment (Err fault)) }
    {
        let is_kept = self.sections.are_kept();
        match read_directive(line) {
            Some(directive) if is_kept => self.obey(at, &directive, comment),
            Some(directive) => self
                .sections
                .pass(at + directive.hash, verb_of(directive.word)),
            None if is_kept => self.expand_text(at, line),
            None => Ok(()),
        }
    }

    /// Takes the first line of a text at a place, and gives what follows it.
    pub(crate) fn take_first_line(
        &mut self,
        at: u32,
        text: &'a [u8],
    ) -> Result<&'a [u8], MacroFault>
        requires ready { IsAtLine self.old }
        requires some { text.now ≢ [] }
        requires placed { at + length text.now < 2 ^ 32 }
        ensures ready { OnOk result (IsAtLine self.new) }
        ensures goes_on { IfOk result (λ rest. LeadsTo self.old at text.now self.new rest.now) }
        ensures shorter { IfOk result (λ rest. length rest.now < length text.now) }
        ensures fault { IfErr result (λ fault. (fault ≡ faults.NoMemory) ⊎ ComesTo (state_of self.old) (out_of self.old) at text.now (Err fault)) }
    {
        let size = line_size(text);
        let (line, rest) = text.split_at(size.bytes);
        let comment = size.open_comment(at);
        self.take_line(at, line, comment)?;
        match comment {
            Some(fault) => Err(MacroFault::Lex(fault)),
            None => Ok(rest),
        }
    }

    /// The tokens after the last line.
    pub(crate) fn finish(self) -> Result<Vec<Token>, MacroFault>
        requires ready { IsAtLine self }
        ensures tokens { IfOk result (λ tokens. at_end (state_of self.entry) (out_of self.entry) ≡ Ok tokens.items) }
        ensures fault { IfErr result (λ fault. at_end (state_of self.entry) (out_of self.entry) ≡ Err fault) }
    {
        self.sections.end()?;
        Ok(self.replacer.output.tokens)
    }
}
