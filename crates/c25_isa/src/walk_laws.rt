//! Laws that join walks and steps. Each call does nothing: its clauses are what crates above cite.
ghost use Rattle.std.specs.Prelude.{◌≡◌, [], true, ℕ, List, filter, map};
ghost use Rattle.std.specs.List.{IsAmong};
ghost use Rattle.c25_isa.specs.Direct.{Direct};
ghost use Rattle.c25_isa.specs.State.{State};
ghost use Rattle.c25_isa.specs.Step.{step};
ghost use Rattle.c25_isa.specs.StretchRuns.{accessed, accesses_of, begins, event_with, listed_in, way, with_word, AreListedOrBeside, HoldsRange, IsElsewhere, IsEntry, MayName, Tells};
ghost use Rattle.c25_isa.specs.Walk.{Blocks, Placed, code_of, has_some, stretches, walk};

/// Walks tell how the machine runs along the stretches of a range, whatever a state holds but the words of the range and PC at a stretch: registers,
/// modes, data memory and a pending repeat are as they are.
pub fn walks_tell_runs()
    // The lists of a walk are those of the stretches.
    ensures lists { (words : List ℕ) (first last : ℕ) (blocks : List (List ℕ)) → walk words first last ≡ Blocks blocks
        → blocks ≡ filter has_some (map listed_in (stretches (code_of words first last))) }
    // A run from the first word of a stretch does its instructions in their order, unless it ends or traps on the way. Its accesses through AR2 to AR5
    // are at the addresses that are listed, in order, and where it goes on behind the stretch another one begins.
    ensures tells { (words : List ℕ) (first last : ℕ) (blocks : List (List ℕ)) (stretch : List Placed) (s : State) (steps : ℕ)
        → walk words first last ≡ Blocks blocks → HoldsRange words first last s → IsAmong (stretches (code_of words first last)) stretch
        → begins s.pc stretch ≡ true → Tells (code_of words first last) stretch (way steps s stretch []) }
    // The range begins with a stretch.
    ensures first { (words : List ℕ) (first last : ℕ) → IsEntry (code_of words first last) first }
    // The accesses of direct operands are at words that they may name, behind the stores that the run made along the stretch.
    ensures direct { (words : List ℕ) (first last : ℕ) (own places given : List ℕ) (stretch : List Placed) (s : State) (steps : ℕ)
        → Direct words first last own places given → HoldsRange words first last s → IsAmong (stretches (code_of words first last)) stretch
        → MayName (record { own = own; places = places; given = given }) [] (accesses_of (way steps s stretch [])) }
    // So each access to a word of the own frame is at an address that is listed, or through another register than AR2 to AR5.
    ensures frame { (words : List ℕ) (first last : ℕ) (blocks : List (List ℕ)) (own places given : List ℕ) (stretch : List Placed) (s : State) (steps : ℕ)
        → walk words first last ≡ Blocks blocks → Direct words first last own places given → HoldsRange words first last s → IsAmong (stretches (code_of words first last)) stretch
        → begins s.pc stretch ≡ true → AreListedOrBeside own (listed_in stretch) (accesses_of (way steps s stretch [])) }
{}

/// A step neither reads nor writes a word of data memory but that of its access: with another word elsewhere it does the same, and leaves that
/// word as it is.
pub fn steps_touch_one_word()
    ensures { (s : State) (a word : ℕ) → IsElsewhere (accessed s) a → step (with_word a word s) ≡ event_with a word (step s) }
{}
