//! The lines of a text that aren't blank, one behind another.
ghost use Rattle.std.specs.Prelude.{◌≡◌, ◌+◌, MatchOption};
ghost use Rattle.text_base.specs.FilledLines.{HasRead, HasReadAll, read_to};

use crate::lines::next_line;
use std::marker::Model;

/// The lines of a text, some of which are read. Contracts see the text and how many lines that are.
#[derive(Drop)]
pub struct FilledLines<'a> {
    // The whole text. No code reads it again: contracts say of it what is read.
    bytes: &'a [u8],
    // What stands behind the lines that are read.
    rest: &'a [u8],
    // How many lines are read.
    number: u64,
}

impl<'a> Model for FilledLines<'a> {
    ghost use Rattle.text_base.specs.FilledLines.{IsLeft, Place};

    ghost Value = { Place };

    ghost view = { λ l. record { bytes = l.bytes.now; number = l.number } };

    ghost invariant = { λ l. IsLeft l.bytes.now l.number l.rest.now };
}

impl<'a> FilledLines<'a> {
    /// Before the first line.
    pub fn new(bytes: &'a [u8]) -> Self
        ensures { result ≡ record { bytes = bytes.now; number = 0 } }
    {
        FilledLines {
            bytes,
            rest: bytes,
            number: 0,
        }
    }

    /// The next line that isn't blank. Blank lines are passed over and counted.
    pub fn next(&mut self) -> Option<&'a [u8]>
        ensures bytes { self.new.bytes ≡ self.old.bytes }
        ensures read { MatchOption result (HasReadAll (read_to self.old) self.new) (λ line. HasRead (read_to self.old) line.now self.new) }
    {
        while !self.rest.is_empty() {
            let (line, rest) = next_line(self.rest);
            self.rest = rest;
            self.number += 1;
            if !line.is_empty() {
                return Some(line);
            }
        }
        None
    }

    /// How many lines are read, blank ones among them.
    pub fn number(&self) -> u64
        ensures { result ≡ self.now.number }
    {
        self.number
    }

    /// The number of the line behind those that are read, counted from 1.
    pub fn next_number(&self) -> u64
        ensures { result ≡ self.now.number + 1 }
    {
        self.number + 1
    }
}
