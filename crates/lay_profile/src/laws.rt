//! Laws of places, of weighed sequences and of recorded runs. The functions do nothing: their clauses are what callers cite.
ghost use Rattle.std.specs.Prelude.{◌≡◌, ◌≤◌, ◌<◌, ◌+◌, ◌*◌, ◌^◌, ℕ, List, All};
ghost use Rattle.std.specs.List.{concat};
ghost use Rattle.c25_isa.specs.Image.{Contents, IsImage};
ghost use Rattle.lay_model.specs.Sequences.{Sequence, IsSequence};
ghost use Rattle.lay_cost.specs.Placements.{Placement, IsPlacement};
ghost use Rattle.lay_cost.specs.Cost.{cost_of, arranged_cost};
ghost use Rattle.lay_cost.specs.Parts.{StandOnce};
ghost use Rattle.cc_compile.specs.Compiles.{IsBuilt};
ghost use Rattle.cc_compile.specs.frame_layouts.declared.options.Options.{Options};
ghost use Rattle.cc_compile.specs.lay_cert.Frames.{Frame};
ghost use Rattle.cc_compile.specs.SourceFaults.{HasTree};
ghost use Rattle.cc_compile.specs.c25_link.declared.fault.LinkFault.TheVariants.{CodeFull};
ghost use Rattle.cc_compile.specs.c_syntax.Counts.{unit_count};
ghost use Rattle.lay_profile.specs.declared.fault.ProfileFault.{ProfileFault};
ghost use Rattle.lay_profile.specs.declared.fault.ProfileFault.TheVariants as faults;
ghost use Rattle.lay_profile.specs.declared.options.ProfileOptions.{ProfileOptions};
ghost use Rattle.lay_profile.specs.Places.{ArePlaces};
ghost use Rattle.lay_profile.specs.Profiles.{HasFault, IsProfiled};
ghost use Rattle.lay_profile.specs.Recordings.{Recording};
ghost use Rattle.lay_profile.specs.Shapes.{HasShape, HasShapeOf};
ghost use Rattle.lay_profile.specs.Weighing.{weighed, accesses_in, run_cost, arranged_run_cost};

/// A sequence weighed by such counts is a sequence.
pub fn weighed_is_a_sequence()
    ensures { (seq : Sequence) (counts : List ℕ) → IsSequence seq → All (λ count. count ≤ 100000000) counts
        → accesses_in seq.blocks < 2 ^ 32 → IsSequence (weighed seq counts) }
{}

/// A weighed sequence costs what each of all blocks costs, once for each time that it is counted: that blocks with a
/// count of 0 are left out changes no cost. Its placements are those of the sequence.
pub fn weighed_costs_the_run()
    ensures cost { (seq : Sequence) (counts : List ℕ) (p : Placement) → cost_of (weighed seq counts) p ≡ run_cost seq counts p }
    ensures arranged { (seq : Sequence) (counts : List ℕ) (lists : List (List ℕ))
        → arranged_cost (weighed seq counts) lists ≡ arranged_run_cost seq counts lists }
    ensures places { (seq : Sequence) (counts : List ℕ) (k : ℕ) (p : Placement) → IsPlacement seq k p → IsPlacement (weighed seq counts) k p }
    ensures places_back { (seq : Sequence) (counts : List ℕ) (k : ℕ) (p : Placement) → IsPlacement (weighed seq counts) k p → IsPlacement seq k p }
{}

/// No program address is the place of two blocks, whether of one function or of two.
pub fn places_differ()
    ensures { (image : Contents) (lists : List (List ℕ)) → IsImage image.words image.functions → ArePlaces image lists → StandOnce (concat lists) }
{}

/// Where a function of an image has the shape of a sequence, the sequence has 65,536 accesses at most: its walk finds one
/// in a program word at most.
pub fn shapes_are_short()
    ensures { (image : Contents) (k : ℕ) (accesses : Sequence) → IsImage image.words image.functions → HasShape image k accesses
        → accesses_in accesses.blocks ≤ 65536 }
{}

/// The image that a source is compiled to has the shape of the source's program, however frames are laid out: its
/// functions have the names of the program's, in order, and the walk of each finds as many blocks, each as long.
pub fn built_images_have_the_shape()
    ensures { (o : Options) (bytes : List ℕ) (image : Contents) (frames : List Frame) (b : IsBuilt o bytes image frames) → HasShapeOf image b.program }
{}

/// The code of a source that is laid out for a recorded run finds no room only where the source is large: the words that
/// it needs are more than 65,536, and at most 1,000 and 64 for each of its expressions, statements and declared items.
pub fn full_profile_is_large()
    ensures { (o : ProfileOptions) (bytes : List ℕ) (r : Recording) (words : ℕ) → HasFault o bytes r (faults.Link (CodeFull words))
        → HasTree bytes (λ source. (65536 < words) × (words ≤ 1000 + 64 * unit_count source)) }
{
    cc_compile::full_code_is_large();
}

/// A source and a recorded run have one outcome: one image, with its frames and entries, or a fault.
pub fn one_profile()
    ensures image { (o : ProfileOptions) (bytes : List ℕ) (r : Recording) (a b : Contents) (fs gs : List Frame) (es ds : List ℕ)
        → IsProfiled o bytes r a fs es → IsProfiled o bytes r b gs ds → a ≡ b }
    ensures frames { (o : ProfileOptions) (bytes : List ℕ) (r : Recording) (a b : Contents) (fs gs : List Frame) (es ds : List ℕ)
        → IsProfiled o bytes r a fs es → IsProfiled o bytes r b gs ds → fs ≡ gs }
    ensures entered { (o : ProfileOptions) (bytes : List ℕ) (r : Recording) (a b : Contents) (fs gs : List Frame) (es ds : List ℕ)
        → IsProfiled o bytes r a fs es → IsProfiled o bytes r b gs ds → es ≡ ds }
    ensures none { (o : ProfileOptions) (bytes : List ℕ) (r : Recording) (image : Contents) (frames : List Frame) (entered : List ℕ)
        (fault : ProfileFault) → IsProfiled o bytes r image frames entered → ¬ HasFault o bytes r fault }
    // Where the image is one of another source, that is the only fault.
    ensures other_source_alone { (o : ProfileOptions) (bytes : List ℕ) (r : Recording) (fault : ProfileFault)
        → HasFault o bytes r faults.OtherSource → HasFault o bytes r fault → fault ≡ faults.OtherSource }
    // An image that the source is compiled to is never one of another source.
    ensures own_image { (o : Options) (p : ProfileOptions) (bytes : List ℕ) (r : Recording) (frames : List Frame)
        → IsBuilt o bytes r.image frames → ¬ HasFault p bytes r faults.OtherSource }
{}
