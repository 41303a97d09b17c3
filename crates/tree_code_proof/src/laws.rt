//! Laws of addresses and of lowering. Each call does nothing: its clauses are what crates above cite.
ghost use Rattle.std.specs.Prelude.{◌≡◌, ◌≢◌, ◌<◌, ◌+◌, ℕ};
ghost use Rattle.word_base.specs.Ports.{Input, IsInput};
ghost use Rattle.c_tree.specs.TypedTree.{ProgramTree};
ghost use Rattle.c_tree.specs.WellFormedProgram.{IsProgram};
ghost use Rattle.tree_code.specs.Lowered.{lowered_program};
ghost use Rattle.ir_semantics.specs.Keeps.{Keeps, tree_run};
ghost use Rattle.ir_semantics.specs.Outside.{Places};
ghost use Rattle.ir_semantics.specs.SourceWork.{worked_run};
ghost use Rattle.c_tree.specs.TypedOfWords.{ProgramHasWords};
ghost use Rattle.tree_code_proof.specs.Seats.{AreSeats, Points, Seats};
ghost use Rattle.tree_code_proof.specs.Surroundings.{ArePlaces};

/// What addresses tell of pointers to objects that live at once.
pub fn addresses_tell_pointers()
    ensures same { (seats : Seats) (k i y l j z : ℕ) → AreSeats seats → Points seats k i y → Points seats l j z → y ≡ z → (k ≡ l) × (i ≡ j) }
    ensures never_0 { (seats : Seats) (k i y : ℕ) → AreSeats seats → Points seats k i y → y ≢ 0 }
    ensures words { (seats : Seats) (k i y : ℕ) → AreSeats seats → Points seats k i y → y < 65536 }
    // Into one object addresses are in the order of indices, and as far from each other.
    ensures order { (seats : Seats) (k i y j z : ℕ) → Points seats k i y → Points seats k j z → i < j → y < z }
    ensures distance { (seats : Seats) (k i y j z : ℕ) → Points seats k i y → Points seats k j z → y + j ≡ z + i }
{}

/// What the word tree of a typed program does is what the program does: the same outputs and ending with at most as much work, a run that
/// goes on goes on with the same outputs, and where the program does something undefined the outputs before are kept. `Places` says where
/// objects lie: each with a spare word behind it, none at the first 16 words of data memory or past its end, and those that can live at once
/// apart, which are static objects and the local ones of a function and of all that it reaches by calls.
pub fn lowering_keeps_runs()
    ensures keeps { (q : Places) (p : ProgramTree) (input : Input) (n : ℕ) → IsProgram p → ProgramHasWords p → ArePlaces q p → IsInput input → Keeps (worked_run p input n) (tree_run q (lowered_program p) input n) }
{}
