//! Sections that are open.
ghost use Rattle.std.specs.Prelude.{◌≡◌, ◌⊎◌, [], Ok, Err, OnOk, IfErr};
ghost use Rattle.c_macro.specs.Sections as sections;
ghost use Rattle.c_macro.specs.Expanding.{sections_of, AreNested, IsOpenAtEnd};
ghost use Rattle.c_macro.specs.declared.fault.MacroFault.TheVariants as faults;

use crate::fault::MacroFault;
use crate::verb::Verb;
use std::alloc::Global;

/// A section that is open.
#[derive(Clone, Copy)]
pub(crate) struct Section {
    /// Where the `#` is that opened it.
    pub(crate) at: u32,
    /// Whether it keeps the line.
    pub(crate) keeps: bool,
    /// Whether its `else` was met.
    pub(crate) has_else: bool,
    /// Whether all sections around it keep the line.
    pub(crate) is_within_kept: bool,
}

/// The sections that are open at a line, the outermost first.
#[derive(Drop)]
pub(crate) struct Sections {
    pub(crate) open: Vec<Section>,
}

impl Sections {
    /// No section is open.
    pub(crate) fn new(alloc: Global) -> Self
        ensures none { sections_of result ≡ [] }
        ensures nested { AreNested result }
    {
        Sections {
            open: Vec::new(alloc),
        }
    }

    /// Whether every section keeps the line.
    pub(crate) fn are_kept(&self) -> bool
        requires nested { AreNested self.now }
        ensures { result ≡ sections.is_kept (sections_of self.now) }
    {
        match self.open.last() {
            Some(section) => section.keeps && section.is_within_kept,
            None => true,
        }
    }

    /// Opens a section.
    pub(crate) fn open(&mut self, at: u32, keeps: bool) -> Result<(), MacroFault>
        requires nested { AreNested self.old }
        ensures nested { OnOk result (AreNested self.new) }
        ensures opened { OnOk result (sections_of self.new ≡ sections.opened at keeps (sections_of self.old)) }
        ensures memory { IfErr result (λ fault. fault ≡ faults.NoMemory) }
    {
        let is_within_kept = self.are_kept();
        self.open.push(Section {
            at,
            keeps,
            has_else: false,
            is_within_kept,
        })?;
        Ok(())
    }

    /// Turns the innermost section at an `else`.
    pub(crate) fn turn(&mut self, at: u32) -> Result<(), MacroFault>
        requires nested { AreNested self.old }
        ensures nested { AreNested self.new }
        ensures turned { OnOk result (sections.turned at (sections_of self.old) ≡ Ok (sections_of self.new)) }
        ensures fault { IfErr result (λ fault. sections.turned at (sections_of self.old) ≡ Err fault) }
    {
        match self.open.last_mut() {
            Some(section) if !section.has_else => {
                section.has_else = true;
                section.keeps = !section.keeps;
                Ok(())
            }
            _ => Err(MacroFault::Unbalanced { at }),
        }
    }

    /// Closes the innermost section at an `endif`.
    pub(crate) fn close(&mut self, at: u32) -> Result<(), MacroFault>
        requires nested { AreNested self.old }
        ensures nested { AreNested self.new }
        ensures closed { OnOk result (sections.closed at (sections_of self.old) ≡ Ok (sections_of self.new)) }
        ensures fault { IfErr result (λ fault. sections.closed at (sections_of self.old) ≡ Err fault) }
    {
        match self.open.pop() {
            Some(_) => Ok(()),
            None => Err(MacroFault::Unbalanced { at }),
        }
    }

    // Passes over an `elif`, where the innermost section is nested in a skipped one.
    fn pass_elif(&self, at: u32) -> Result<(), MacroFault>
        requires nested { AreNested self.now }
        ensures passed { OnOk result (sections.passed_elif at (sections_of self.now) ≡ Ok (sections_of self.now)) }
        ensures fault { IfErr result (λ fault. sections.passed_elif at (sections_of self.now) ≡ Err fault) }
    {
        match self.open.last() {
            Some(section) if !section.is_within_kept => Ok(()),
            _ => Err(MacroFault::Directive { at }),
        }
    }

    /// Obeys a directive of a line that isn't kept.
    pub(crate) fn pass(&mut self, at: u32, verb: Verb) -> Result<(), MacroFault>
        requires nested { AreNested self.old }
        ensures nested { OnOk result (AreNested self.new) }
        ensures passed { OnOk result (sections.passed at verb (sections_of self.old) ≡ Ok (sections_of self.new)) }
        ensures fault { IfErr result (λ fault. (fault ≡ faults.NoMemory) ⊎ (sections.passed at verb (sections_of self.old) ≡ Err fault)) }
    {
        match verb {
            Verb::If | Verb::Ifdef | Verb::Ifndef => self.open(at, false),
            Verb::Else => self.turn(at),
            Verb::Elif => self.pass_elif(at),
            Verb::Endif => self.close(at),
            Verb::Alone | Verb::Pragma | Verb::Define | Verb::Undef | Verb::Unknown => Ok(()),
        }
    }

    /// Refuses a section that is open at the end of the source.
    pub(crate) fn end(&self) -> Result<(), MacroFault>
        ensures none { OnOk result (sections_of self.now ≡ []) }
        ensures fault { IfErr result (IsOpenAtEnd self.now) }
    {
        match self.open.last() {
            Some(section) => Err(MacroFault::Unbalanced { at: section.at }),
            None => Ok(()),
        }
    }
}
