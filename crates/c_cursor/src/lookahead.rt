//! What the next tokens decide where the grammar has two ways.
ghost use Rattle.std.specs.Prelude.{◌≡◌, ◌≢◌, ◌⊎◌, ◌↔◌, ◌≤◌, false, length, Some, IsTrue, if◌then◌else◌};
ghost use Rattle.c_syntax.specs.declared.token.Keyword.TheVariants as keyword;
ghost use Rattle.c_syntax.specs.declared.token.Punct.TheVariants as mark;
ghost use Rattle.c_cursor.specs.Front.{behind, mark_at, word_at};
ghost use Rattle.c_cursor.specs.Takes.{ListGoesOn};

use crate::cursor::Cursor;
use c_syntax::{Keyword, Punct};

impl<'a> Cursor<'a> {
    /// Behind the statement of an `if`: takes an `else`, wherever one stands, so that it goes with the innermost `if`.
    pub fn takes_else(&mut self) -> bool
        ensures taken { IsTrue result ↔ (word_at self.old ≡ Some keyword.Else) }
        ensures left { self.new ≡ (if result then behind self.old else self.old) }
    {
        self.take_keyword(Keyword::Else)
    }

    /// Behind a value in braces: takes a comma, where one stands next, and says whether a value follows it. A comma may stand
    /// last.
    pub fn list_goes_on(&mut self) -> bool
        ensures tree { ListGoesOn result self.old self.new }
        ensures no_more { length self.new ≤ length self.old }
        ensures more { IsTrue result → (mark_at self.old ≡ Some mark.Comma) × (self.new ≡ behind self.old) × (mark_at self.new ≢ Some mark.CloseBrace) }
        ensures ended { result ≡ false → ((mark_at self.old ≢ Some mark.Comma) × (self.new ≡ self.old))
            ⊎ ((mark_at self.old ≡ Some mark.Comma) × (self.new ≡ behind self.old) × (mark_at self.new ≡ Some mark.CloseBrace)) }
    {
        if !self.take(Punct::Comma) {
            return false;
        }
        !self.stands(Punct::CloseBrace)
    }
}
