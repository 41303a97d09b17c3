//! What is known of the pieces of routines, as laws.
ghost use Rattle.std.specs.Prelude.{◌≡◌, ◌≤◌, false, List, All, sum_by};
ghost use Rattle.word_base.specs.Name.{IsName};
ghost use Rattle.c25_isa.specs.Pieces.{Piece, items_size};
ghost use Rattle.c25_helper.specs.Routines.{helper_pieces, routine_items};
ghost use Rattle.c25_code.specs.Naming.{HasItsMarks};
ghost use Rattle.c25_helper.specs.Names.{CallsNone, NamesDiffer};
ghost use Rattle.c25_helper.specs.declared.routine.Routine.{Routine};
ghost use Rattle.c25_helper.specs.Results.{HelperResult, HelperWithin, IsHelper};
ghost use Rattle.c25_helper.specs.Calls.{called_helper_pieces};
ghost use Rattle.c25_helper.specs.Answering.{AnswersCalls};

/// The pieces of routines take few words, each of them some, and need nothing of other pieces. Their names are no names of C, and
/// differ. The call does nothing.
pub fn helper_pieces_fit()
    ensures short { sum_by (λ p. items_size p.items) helper_pieces ≤ 600 }
    ensures some { All (λ p. 1 ≤ items_size p.items) helper_pieces }
    ensures unlisted { All (λ p. p.listed ≡ false) helper_pieces }
    ensures marks { All (λ p. HasItsMarks p.items) helper_pieces }
    ensures calls { All (λ p. CallsNone p.items) helper_pieces }
    ensures names { NamesDiffer helper_pieces }
    ensures no_names { All (λ p. ¬ IsName p.name) helper_pieces }
{}

/// A call of each routine comes back with the value that C has, wherever its items stand. The call does nothing.
pub fn routines_answer()
    ensures each { (r : Routine) → HelperResult r (routine_items r) }
    // On the way it accesses no word of data memory but scratch words.
    ensures within { (r : Routine) → HelperWithin r (routine_items r) }
    ensures pieces { All IsHelper helper_pieces }
    // So those that pieces call answer them.
    ensures called { (pieces : List Piece) → AnswersCalls pieces (called_helper_pieces pieces) }
{}
