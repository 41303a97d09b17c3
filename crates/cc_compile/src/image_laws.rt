//! The laws of images.
ghost use Rattle.std.specs.Prelude.{◌≡◌, ◌≤◌, ℕ, ◌+◌, List, length};
ghost use Rattle.c_tree.specs.TypedTree.{ProgramTree};
ghost use Rattle.c_tree.specs.WellFormedProgram.{IsProgram};
ghost use Rattle.c25_isa.specs.Image.{Contents};
ghost use Rattle.image_proof.specs.ir_semantics.SourceWeights.{source_weight};
ghost use Rattle.frame_layouts.specs.lay_cert.Frames.{Frame};
ghost use Rattle.cc_compile.specs.Images.{FrameJobs, HasFrames, HasImage, HasTooMuchData, HasTooMuchCode};

/// A typed program has one image at most and one list of frames, and no image where its data or its code find no room; how many words they need is one number. It does
/// nothing: its clauses are what callers cite.
pub fn one_image()
    ensures one { (o : FrameJobs) (t : ProgramTree) (a b : Contents) → HasImage o t a → HasImage o t b → a ≡ b }
    ensures same { (o : FrameJobs) (t : ProgramTree) (a b : List Frame) → HasFrames o t a → HasFrames o t b → a ≡ b }
    ensures no_data { (o : FrameJobs) (t : ProgramTree) (a : Contents) (n : ℕ) → HasImage o t a → ¬ HasTooMuchData t n }
    ensures no_code { (o : FrameJobs) (t : ProgramTree) (a : Contents) (n : ℕ) → HasImage o t a → ¬ HasTooMuchCode o t n }
    ensures one_data { (t : ProgramTree) (n m : ℕ) → HasTooMuchData t n → HasTooMuchData t m → n ≡ m }
    ensures one_code { (o : FrameJobs) (t : ProgramTree) (n m : ℕ) → HasTooMuchCode o t n → HasTooMuchCode o t m → n ≡ m }
    ensures apart { (o : FrameJobs) (t : ProgramTree) (n m : ℕ) → HasTooMuchData t n → ¬ HasTooMuchCode o t m }
{}

/// The image of a well-formed program has at most 1,000 words and one for each unit of the program's weight, and code that finds no room needs no more
/// either. It does nothing:
/// its clauses are what callers cite.
pub fn code_is_bounded()
    ensures image { (o : FrameJobs) (t : ProgramTree) (a : Contents) → ∥ IsProgram t ∥₁ → HasImage o t a → length a.words ≤ 1000 + source_weight t }
    ensures full { (o : FrameJobs) (t : ProgramTree) (n : ℕ) → ∥ IsProgram t ∥₁ → HasTooMuchCode o t n → n ≤ 1000 + source_weight t }
{
    size_proof::code_fits_its_weight();
}
