//! Laws of the walks of pieces. The calls do nothing: their clauses are what crates above cite.
ghost use Rattle.std.specs.Prelude.{[], ◌≡◌, ℕ, Bool, true, List, map, sum_by, Option, None};
ghost use Rattle.c_tree.specs.declared.program.VarRef.{VarRef};
ghost use Rattle.c25_isa.specs.Image.{Contents};
ghost use Rattle.c25_isa.specs.Pieces.{Piece, Linked, address_in, piece_code};
ghost use Rattle.c25_isa.specs.Step.{wrap16};
ghost use Rattle.c25_isa.specs.Walk.{Blocks, code_of, walk};
ghost use Rattle.c25_isa.specs.AddressCount.{address_count};
ghost use Rattle.c25_isa.specs.Direct.{Words, Done, is_direct_from, Direct};
ghost use Rattle.acc_code.specs.AccTree.{ItemList};
ghost use Rattle.acc_code.specs.AccSequence.{blocks_of};
ghost use Rattle.acc_code.specs.Emittable.{IsEmittableBody, Throughout};
ghost use Rattle.emit_blocks.specs.Places.{Places};
ghost use Rattle.emit_blocks.specs.Steps.{Operation, steps_of};
ghost use Rattle.emit_blocks.specs.Runs.{run_code};
ghost use Rattle.image_proof.specs.emit_control.Flow.{body_entries};
ghost use Rattle.image_proof.specs.emit_control.Settings.{Setting};
ghost use Rattle.image_proof.specs.RunWalks.{address_of, placed_from};
ghost use Rattle.image_proof.specs.DirectPieces.{words, KeepsReturn, RunsAreDirect, ScratchIsApart, ItemNames};
ghost use Rattle.image_proof.specs.DirectRuns.{StepsName};
ghost use Rattle.image_proof.specs.PieceWalks.{RunsWalk, IsFunctionIn, range_first, range_last};

/// A walk of the range of a function finds the blocks of its body, wherever its piece is linked, where a walk finds in each run the addresses of
/// its scalars; and it counts what the blocks cost.
pub fn pieces_walk()
    ensures blocks { (pieces : List Piece) (image : Contents) (linked : Linked pieces image) (name : List ℕ) (p : Piece) (m : Setting) (body : ItemList) (cost : List ℕ → ℕ) → IsFunctionIn pieces image linked name p m body → RunsWalk m cost (body_entries body)
        → walk image.words (range_first linked.place pieces name) (range_last linked.place pieces name p) ≡ Blocks (map (map (address_of m.places)) (blocks_of body)) }
    ensures count { (pieces : List Piece) (image : Contents) (linked : Linked pieces image) (name : List ℕ) (p : Piece) (m : Setting) (body : ItemList) (cost : List ℕ → ℕ) → IsFunctionIn pieces image linked name p m body → cost [] ≡ 0 → RunsWalk m cost (body_entries body)
        → address_count image.words (range_first linked.place pieces name) (range_last linked.place pieces name p) ≡ sum_by cost (blocks_of body) }
    // Each direct operand may be there, where those of its runs and of its return address may.
    ensures direct { (pieces : List Piece) (image : Contents) (linked : Linked pieces image) (name : List ℕ) (p : Piece) (m : Setting) (body : ItemList) (own places given : List ℕ) → IsFunctionIn pieces image linked name p m body
        → KeepsReturn (words own places given) m.back → RunsAreDirect (words own places given) m (body_entries body) → Direct image.words (range_first linked.place pieces name) (range_last linked.place pieces name p) own places given }
    // The range is the instructions of the piece, without a faulty word.
    ensures code { (pieces : List Piece) (image : Contents) (linked : Linked pieces image) (name : List ℕ) (p : Piece) (m : Setting) (body : ItemList) → IsFunctionIn pieces image linked name p m body
        → code_of image.words (range_first linked.place pieces name) (range_last linked.place pieces name p)
        ≡ record { placed = placed_from (range_first linked.place pieces name) (piece_code (λ other. wrap16 (address_in linked.place pieces other)) (range_first linked.place pieces name) p); fault = None } }
{}

/// The direct operands of a run, whatever its stretch did before it.
pub fn runs_are_direct()
    // The words that its steps name may be there, so each of its direct operands may.
    ensures steps { (w : Words) (s : Places) (os : List Operation) (d : Done) (at : ℕ) → StepsName w [] (steps_of s os) → is_direct_from w d (placed_from at (run_code s os)) ≡ true }
    // So it is in each run of an emittable body whose operands name the function's places.
    ensures bodies { (w : Words) (m : Setting) (scalars : ℕ) (cells : VarRef → Option ℕ) (parameters : ℕ → Option ℕ) (helps : Bool) (body : ItemList) → ScratchIsApart w → IsEmittableBody scalars cells parameters helps body
        → Throughout (ItemNames w m.places) body → RunsAreDirect w m (body_entries body) }
{}
