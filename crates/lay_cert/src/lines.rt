//! The lines of a certificate, one behind another.
ghost use Rattle.std.specs.Prelude.{◌≡◌, ◌≤◌, ◌+◌, ◌++◌, ℕ, List, length, decimal, MatchOption, MatchResult};
ghost use Rattle.text_base.specs.Lines.{Lacks};
ghost use Rattle.lay_cert.specs.LineReading.{Cursor, Moves, BeginsNot, IsNotNext};
ghost use Rattle.lay_cert.specs.declared.fault.CertFault.TheVariants as faults;

use crate::fault::CertFault;
use std::marker::Model;
use text_base::{behind_word, front_line, number_behind};

/// The most bytes of a certificate.
pub(crate) const MOST_BYTES: usize = 1 << 29;

/// A text, some lines of which are read. Contracts see how many lines that are and what is left.
#[derive(Drop)]
pub(crate) struct Lines<'a> {
    rest: &'a [u8],
    number: u64,
}

impl<'a> Model for Lines<'a> {
    ghost use Rattle.std.specs.Prelude.{◌+◌, ◌≤◌, length};
    ghost use Rattle.lay_cert.specs.LineReading.{Cursor};

    ghost Value = { Cursor };

    ghost view = { λ l. record { number = l.number; text = l.rest.now } };

    ghost invariant = { λ l. l.number + length l.rest.now ≤ 536870912 };
}

impl<'a> Lines<'a> {
    /// Before the first line.
    pub(crate) fn new(bytes: &'a [u8]) -> Self
        requires { length bytes.now ≤ 536870912 }
        ensures { result ≡ record { number = 0; text = bytes.now } }
    {
        Lines {
            rest: bytes,
            number: 0,
        }
    }

    /// The same lines, to be read from here on a second time.
    pub(crate) fn duplicate(&self) -> Self
        ensures { result ≡ self.now }
    {
        Lines {
            rest: self.rest,
            number: self.number,
        }
    }

    /// What is left.
    pub(crate) fn rest(&self) -> &'a [u8]
        ensures text { result.now ≡ self.now.text }
        ensures few { length result.now ≤ 536870912 }
    {
        self.rest
    }

    /// The next line, if there is one with its line feed.
    pub(crate) fn next(&mut self) -> Option<&'a [u8]>
        ensures { MatchOption result ((self.new ≡ self.old) × Lacks 10 self.old.text) (λ line. Moves self.old line.now self.new) }
    {
        let (line, rest) = front_line(self.rest)?;
        self.rest = rest;
        self.number += 1;
        Some(line)
    }

    /// The next line, if there is one that begins with this word. No other line is read.
    pub(crate) fn next_with(&mut self, word: &[u8]) -> Option<&'a [u8]>
        ensures { MatchOption result
            ((self.new ≡ self.old) × BeginsNot word.now self.old.text)
            (λ line. Moves self.old line.now self.new × ((rest : List ℕ) × (line.now ≡ word.now ++ rest))) }
    {
        let (line, rest) = front_line(self.rest)?;
        behind_word(line, word)?;
        self.rest = rest;
        self.number += 1;
        Some(line)
    }

    /// The fault of the next line.
    pub(crate) fn next_fault(&self) -> CertFault
        ensures { result ≡ faults.BadLine (self.now.number + 1) }
    {
        CertFault::BadLine {
            line: self.number + 1,
        }
    }

    /// The fault of the last line that was read.
    pub(crate) fn fault(&self) -> CertFault
        ensures { result ≡ faults.BadLine self.now.number }
    {
        CertFault::BadLine { line: self.number }
    }

    /// The number behind a word on the next line, within bounds. Any other line is faulty.
    pub(crate) fn number(&mut self, word: &[u8], low: u64, high: u64) -> Result<u64, CertFault>
        ensures { MatchResult result
            (λ n. (low ≤ n) × (n ≤ high) × Moves self.old (word.now ++ decimal n) self.new)
            (λ fault. (fault ≡ faults.BadLine (self.old.number + 1)) × ((n : ℕ) → low ≤ n → n ≤ high → IsNotNext (word.now ++ decimal n) self.old.text)) }
    {
        let fault = self.next_fault();
        let Some(line) = self.next() else {
            return Err(fault);
        };
        let Some(number) = number_behind(line, word) else {
            return Err(fault);
        };
        if number < low {
            return Err(fault);
        }
        if number > high {
            return Err(fault);
        }
        Ok(number)
    }

    /// Reads this line. Any other one is faulty.
    pub(crate) fn expect(&mut self, text: &[u8]) -> Result<(), CertFault>
        ensures { MatchResult result
            (λ _. Moves self.old text.now self.new)
            (λ fault. (fault ≡ faults.BadLine (self.old.number + 1)) × IsNotNext text.now self.old.text) }
    {
        let fault = self.next_fault();
        let Some(line) = self.next() else {
            return Err(fault);
        };
        if line == text { Ok(()) } else { Err(fault) }
    }
}
