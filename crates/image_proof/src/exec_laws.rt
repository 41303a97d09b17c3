//! The law of runs of images. The call does nothing: its clause is what crates above cite.
ghost use Rattle.std.specs.Prelude.{◌≡◌, ℕ, List};
ghost use Rattle.word_base.specs.Ports.{Outputs, input_of};
ghost use Rattle.c_tree.specs.SourceRun.{source_run};
ghost use Rattle.c_tree.specs.TypedTree.{ProgramTree};
ghost use Rattle.c25_isa.specs.Agrees.{Agrees};
ghost use Rattle.c25_isa.specs.Image.{Contents};
ghost use Rattle.c25_isa.specs.MachineRun.{machine_run};
ghost use Rattle.c25_isa.specs.Pieces.{Linked, Piece, PiecesFit};
ghost use Rattle.c25_isa.specs.State.{zero_start};
ghost use Rattle.c25_isa.specs.declared.event.Stop.{Stop};
ghost use Rattle.c25_sim.specs.Answers.{reached_of};
ghost use Rattle.c25_sim.specs.Taken.{of_sixteen};
ghost use Rattle.c25_image.specs.PortText.{PortText};
ghost use Rattle.image_proof.specs.Agreeing.{EndsInTime};
ghost use Rattle.image_proof.specs.Telling.{TellsOf};

/// A run from zeros, on what port lines give, of an image that agrees with a program: it ends as the program ends, unless that does something
/// undefined; only then does it come to a trap; and it is through in time.
pub fn runs_tell()
    ensures tell { (t : ProgramTree) (pieces : List Piece) (image : Contents) (bytes : List ℕ) (lines : List (ℕ × ℕ)) (steps : ℕ) (outs : Outputs) (stands : Stop) → Agrees (source_run t) image.words → EndsInTime t image.words → Linked pieces image → PiecesFit pieces → PortText bytes lines
        → machine_run (zero_start image.words) (of_sixteen (input_of lines)) steps ≡ reached_of outs stands → TellsOf t (of_sixteen (input_of lines)) steps outs stands }
{}
