//! What texts say, line by line.
ghost use Rattle.std.specs.Prelude.{◌≡◌, ◌==◌, ◌∷◌, ◌++◌, ℕ, List, Some, Ok, Err};
ghost use Rattle.std.specs.Str.{str_to_ascii_lowercase};
ghost use Rattle.c25_isa.specs.declared.mnemonic.Mnemonic.{Mnemonic};
ghost use Rattle.c25_isa.specs.Rows as table;
ghost use Rattle.c25_asm.specs.declared.fault.AsmFault.{AsmFault};
ghost use Rattle.c25_asm.specs.declared.statement.LineFault.{LineFault};
ghost use Rattle.c25_asm.specs.declared.statement.LineWords.{LineWords};
ghost use Rattle.c25_asm.specs.AssemblerText.{assembled, fault_at, labels_of};
ghost use Rattle.c25_asm.specs.Cuts.{AreBlank, Lacks, statement};
ghost use Rattle.c25_asm.specs.Reading.{IsFirstFault, IsOfTable, NumbersWords, Says, StandsBehind};
ghost use Rattle.c25_asm.specs.Statements as statements;

/// A text is assembled by the instruction table, and its first fault is told. The call does nothing: its clauses are what callers cite.
pub fn texts_are_read()
    // The words of each line are those of an instruction of the row that its mnemonic names.
    ensures rows { (text line : List ℕ) (number : ℕ) (words : LineWords) → statements.line_words (labels_of text) number line ≡ Ok words → IsOfTable line words }
    // Each row is named by its mnemonic.
    ensures mnemonics { (m : Mnemonic) → statements.mnemonic_of (table.row m).name ≡ Some m }
    // In either case.
    ensures either_case { (one two : List ℕ) → str_to_ascii_lowercase one ≡ str_to_ascii_lowercase two → statements.mnemonic_of one ≡ statements.mnemonic_of two }
    // Blanks at both ends of a line and a comment say nothing.
    ensures blanks { (front text back comment : List ℕ) → AreBlank front → AreBlank back → Lacks (λ b. b == 59) text
        → statement (front ++ (text ++ (back ++ 59 ∷ comment))) ≡ statement text }
    // A label stands for the number of the words before it.
    ensures labels { (text : List ℕ) (front : List (List ℕ)) (line name words : List ℕ) → assembled text ≡ Ok words → StandsBehind text front line
        → statements.label_of line ≡ Some name → NumbersWords text front name }
    // A fault is that of the first line that has one, or there are too many words.
    ensures told { (text : List ℕ) (fault : AsmFault) → assembled text ≡ Err fault → Says text fault }
    ensures first { (text : List ℕ) (number : ℕ) (fault : LineFault) → IsFirstFault text number fault → assembled text ≡ Err (fault_at number fault) }
{}
