//! The laws of statics. The calls do nothing: their clauses say what was proved.
ghost use Rattle.std.specs.Prelude.{◌≡◌, ◌↔◌, ◌≤◌, ◌+◌, ℕ, List, ◌∷◌, ◌++◌, length, Contains, None, true};
ghost use Rattle.c_tree.specs.c_syntax.declared.token.Token.{Token};
ghost use Rattle.c_tree.specs.c_syntax.declared.token.TokenKind.TheVariants.{Name};
ghost use Rattle.c_tree.specs.TypedTree.{ProgramTree};
ghost use Rattle.c_renaming.specs.RenamedTokens.{renamed_kind};
ghost use Rattle.c_tree.specs.c_syntax.Source.{IsSource};
ghost use Rattle.c_tree.specs.c_syntax.SyntaxTree.{UnitTree};
ghost use Rattle.c_units.specs.Externs.{AtStart, without_externs, extern_places};
ghost use Rattle.c_units.specs.Prefixes.{Prefixed};
ghost use Rattle.c_units.specs.Statics.{static_name, ends_in_number, EndsInNumber};
ghost use Rattle.c_units.specs.Files.{FileTree, AreFiles};
ghost use Rattle.c_units.specs.declared.fault.UnitFault.{UnitFault};
ghost use Rattle.c_units.specs.Joining.{Choice, renaming_of, Joined, reserved_fault, Joins, HasFault, IsSameFault};
ghost use Rattle.c_units.specs.Choices.{StaticOf, all_statics, IsOfStatic, IsFresh, HasProgram, HasRenamed};

/// The names that the statics of up to sixteen files get are fresh: no file has one of them, no two statics get one,
/// and the language gives none a meaning.
pub fn static_names_are_fresh()
    ensures { (sources : List (List ℕ)) (files : List FileTree)
        → length sources ≤ 16 → AreFiles sources files → reserved_fault 1 files ≡ None → IsFresh static_name files }
{}

/// The fresh name of a static is at the tokens of its own file that have its name, and at no other token of the files.
pub fn statics_keep_to_their_files()
    ensures { (files before following : List FileTree) (file : FileTree) (choice : Choice) (s : StaticOf) (t : Token)
        → IsFresh choice files → files ≡ before ++ file ∷ following → Contains (all_statics 1 files) s → Contains file.tokens t
        → renamed_kind (renaming_of choice (length before + 1) file) t.kind ≡ Name (choice s.number s.name) ↔ IsOfStatic (length before + 1) t s }
{}

/// Whichever fresh names the statics get, the joined tokens have the same typed programs but for names and places.
pub fn fresh_choices_agree()
    ensures { (files : List FileTree) (from to : Choice) (tokens others : List Token) (program : ProgramTree)
        → IsFresh from files → IsFresh to files → Joined from files tokens → Joined to files others
        → HasProgram tokens program → HasRenamed files from to others program }
{}

/// Whichever fresh names the statics get, the joined tokens have a typed program exactly where those that `join_units`
/// answers have one, and it is the same but for names and places.
pub fn answers_are_typed_with_any_names()
    ensures { (sources : List (List ℕ)) (tokens others : List Token) (choice : Choice) (joins : Joins sources tokens)
        → length sources ≤ 16 → IsFresh choice joins.files → Joined choice joins.files others
        → ((program : ProgramTree) → HasProgram tokens program → HasRenamed joins.files static_name choice others program)
        × ((program : ProgramTree) → HasProgram others program → HasRenamed joins.files choice static_name tokens program) }
{}

/// The `extern`s that are dropped are those in front of an external, by the grammar, and no others.
pub fn externs_are_dropped_before_externals()
    // Externals, some with an `extern` in front, are left without these.
    ensures dropped { (all left : List Token) (places : List ℕ) → Prefixed all left places
        → (without_externs all ≡ left) × (extern_places AtStart all ≡ places) }
    // Tokens of which a source is left are such externals.
    ensures only_these { (all : List Token) (unit : UnitTree) → IsSource (without_externs all) unit
        → Prefixed all (without_externs all) (extern_places AtStart all) }
{}

/// A name is reserved in every file where it is something, `__` and at least one digit.
pub fn reserved_names_end_in_numbers()
    ensures { (name : List ℕ) → (ends_in_number name ≡ true) ↔ EndsInNumber name }
{}

/// Files have at most one list of joined tokens, at most one fault but for the place that one of syntax names, and not
/// both.
pub fn one_outcome()
    ensures one_joined { (sources : List (List ℕ)) (a b : List Token) → Joins sources a → Joins sources b → a ≡ b }
    ensures one_fault { (sources : List (List ℕ)) (a b : UnitFault) → HasFault sources a → HasFault sources b → IsSameFault a b }
    ensures not_both { (sources : List (List ℕ)) (tokens : List Token) (fault : UnitFault) → Joins sources tokens → HasFault sources fault → ⊥ }
{}
