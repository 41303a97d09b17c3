//! The phases from a typed program to its image.
ghost use Rattle.std.specs.Prelude.{◌≡◌, ◌≤◌, map, length, All, IfOk, IfErr};
ghost use Rattle.acc_code.specs.AccSequence.{IsInFrame};
ghost use Rattle.acc_code.specs.AccView.{function_items_of, functions_of};
ghost use Rattle.c25_isa.specs.Agrees.{Agrees};
ghost use Rattle.c25_isa.specs.Pieces.{piece_of, Linked, PiecesFit};
ghost use Rattle.c25_link.specs.Linking.{AreLinkable, linked_image, pieces_words as words_together};
ghost use Rattle.c_tree.specs.ProgramView.{program_of};
ghost use Rattle.c_tree.specs.SourceRun.{source_run};
ghost use Rattle.c_tree.specs.TypedTree.{ProgramTree};
ghost use Rattle.frame_layouts.specs.Frames.{AreOptions, AreLayouts, ClaimsHold, frames_of, jobs_in, layout_of};
ghost use Rattle.image_proof.specs.Agreeing.{EndsInTime};
ghost use Rattle.image_proof.specs.acc_select_proof.SourceSequences.{source_sequence};
ghost use Rattle.cc_compile.specs.Apart.{LieApart};
ghost use Rattle.cc_compile.specs.TranslationFaults.{Says, SaysOfPieces, SaysOfTree};
ghost use Rattle.cc_compile.specs.Images.{AreJobs, HasFrames, HasImage, IsDirect, KeepsRuns, LeadsRight, ListsFrames, TreeKeepsRuns, all_pieces, jobs_at, source_jobs, with_helpers as with_called};
ghost use Rattle.cc_compile.specs.Walked.{AccessAs, AreWalked, AreWalkedAs};
ghost use Rattle.cc_compile.specs.Selections.{IsSelection, IsSelectionOf, IsPlanned};
ghost use Rattle.frame_layouts.specs.lay_cert.Frames.{Frame};
ghost use Rattle.frame_layouts.specs.mem_plan.Plan.{AreArranged};
ghost use Rattle.tree_code.specs.Lowered.{lowered_program};
ghost use Rattle.tree_code.specs.ProgramView.{tree_of};

use crate::translation_fault::TranslationFault;
use c_tree::Program;
use c25_isa::{Image, Piece};
use c25_link::{counted_words, link};
use frame_layouts::{
    Certificate, DataPlan, Job, Layouts, Options, certificate_of, jobs_of, lay_out, plan,
};
use image_proof::{AccFunction, AccProgram, called_helpers, emit};
use std::alloc::Global;
use std::thread::Threads;
use tree_code::TreeProgram;
use word_base::{Gate, NoMemory};

/// What a typed program becomes: its words, and what shows how its frames are laid out.
#[derive(Drop)]
pub struct Translated {
    pub image: Image,
    pub certificate: Certificate,
}

/// A typed program in accumulator code, and the word tree from which that is selected.
#[derive(Drop)]
pub struct Selection {
    tree: TreeProgram,
    code: AccProgram,
}

/// The layouts of a program's frames, and where these lie in data memory.
#[derive(Drop)]
struct Planned {
    layouts: Layouts,
    plan: DataPlan,
}

/// The accumulator code of a typed program.
pub fn select(alloc: Global, program: &Program) -> Result<Selection, NoMemory>
    ensures { IfOk result (λ s. IsSelectionOf s (program_of program.now)) }
{
    let tree = tree_code::lower(alloc, program)?;
    let code = image_proof::select(alloc, &tree)?;
    Ok(Selection { tree, code })
}

/// The functions of accumulator code, whose scalars are those of their frames.
pub fn functions(selection: &Selection) -> &[AccFunction]
    requires { IsSelection selection.now }
    ensures same { map function_items_of result.now ≡ functions_of selection.now.code }
    ensures in_frames { All (λ f. IsInFrame (function_items_of f)) result.now }
{
    selection.code.functions.as_slice()
}

// The layouts of all frames, and where they lie.
fn with_plan<R: Threads + Sync, G: Gate + Sync>(
    rt: &R,
    alloc: Global,
    gate: &G,
    selection: &Selection,
    jobs: Vec<Job>,
) -> Result<Planned, TranslationFault>
    requires selection { IsSelection selection.now }
    requires jobs { AreJobs jobs.items (functions_of selection.now.code) }
    ensures planned { IfOk result (IsPlanned selection.now) }
    ensures jobs { IfOk result (λ p. jobs_in p.layouts ≡ jobs.items) }
    ensures arranged { IfOk result (λ _. AreArranged (tree_of selection.now.tree).functions (map layout_of jobs.items)) }
    ensures refused { IfErr result (SaysOfTree (tree_of selection.now.tree)) }
{
    frame_layouts::frames_are_arranged();
    frame_layouts::layouts_are_arranged();
    let layouts = lay_out(rt, alloc, gate, functions(selection), jobs)?;
    let plan = plan(alloc, &selection.tree, &layouts.arrangements)?;
    Ok(Planned { layouts, plan })
}

// The pieces with the routines that they call.
fn with_helpers(alloc: Global, mut pieces: Vec<Piece>) -> Result<Vec<Piece>, NoMemory>
    ensures { IfOk result (λ all. map piece_of all.items ≡ with_called (map piece_of pieces.items)) }
{
    for piece in called_helpers(alloc, &pieces)? {
        pieces.push(piece)?;
    }
    Ok(pieces)
}

// The pieces of a program by a plan.
fn pieces(
    alloc: Global,
    step: u8,
    selection: &Selection,
    planned: &Planned,
) -> Result<Vec<Piece>, NoMemory>
    requires selection { IsSelection selection.now }
    requires planned { IsPlanned selection.now planned.now }
    ensures { IfOk result (λ all. map piece_of all.items ≡ all_pieces (jobs_at step (jobs_in planned.now.layouts)) (tree_of selection.now.tree) planned.now.plan) }
{
    frame_layouts::layouts_are_arranged();
    let own = emit(
        alloc,
        &selection.code,
        &planned.plan,
        &planned.layouts.arrangements,
        step,
        &selection.tree,
    )?;
    with_helpers(alloc, own)
}

// So many words that their number passes 32 bits never fit in memory.
fn linked(alloc: Global, pieces: &[Piece]) -> Result<Image, TranslationFault>
    requires { AreLinkable (map piece_of pieces.now) }
    ensures image { IfOk result (λ image. image ≡ linked_image (map piece_of pieces.now)) }
    ensures linked { IfOk result (λ image. Linked (map piece_of pieces.now) image) }
    ensures fits { IfOk result (λ _. words_together (map piece_of pieces.now) ≤ 65536) }
    ensures refused { IfErr result (SaysOfPieces (map piece_of pieces.now)) }
{
    if counted_words(pieces).is_none() {
        return Err(TranslationFault::NoMemory);
    }
    Ok(link(alloc, pieces)?)
}

// The frames of the certificate.
fn certified(
    alloc: Global,
    selection: &Selection,
    planned: Planned,
) -> Result<Certificate, NoMemory>
    requires selection { IsSelection selection.now }
    requires planned { IsPlanned selection.now planned }
    ensures { IfOk result (λ cert. cert ≡ frames_of (functions_of selection.now.code) (jobs_in planned.layouts) planned.plan.frames) }
{
    frame_layouts::frames_are_arranged();
    certificate_of(alloc, planned.layouts, planned.plan.frames.as_slice())
}

// The image by a plan.
fn image_of(
    alloc: Global,
    step: u8,
    selection: &Selection,
    planned: &Planned,
) -> Result<Image, TranslationFault>
    requires selection { IsSelection selection.now }
    requires planned { IsPlanned selection.now planned.now }
    ensures image { IfOk result (λ image. image ≡ linked_image (all_pieces (jobs_at step (jobs_in planned.now.layouts)) (tree_of selection.now.tree) planned.now.plan)) }
    ensures linked { IfOk result (λ image. Linked (all_pieces (jobs_at step (jobs_in planned.now.layouts)) (tree_of selection.now.tree) planned.now.plan) image) }
    ensures fits { IfOk result (λ _. words_together (all_pieces (jobs_at step (jobs_in planned.now.layouts)) (tree_of selection.now.tree) planned.now.plan) ≤ 65536) }
    ensures ranges { IfOk result (λ _. PiecesFit (all_pieces (jobs_at step (jobs_in planned.now.layouts)) (tree_of selection.now.tree) planned.now.plan)) }
    ensures refused { IfErr result (SaysOfPieces (all_pieces (jobs_at step (jobs_in planned.now.layouts)) (tree_of selection.now.tree) planned.now.plan)) }
{
    image_proof::helper_pieces_fit();
    let pieces = pieces(alloc, step, selection, planned)?;
    linked(alloc, &pieces)
}

// The image and the certificate behind selection.
fn finished<R: Threads + Sync, G: Gate + Sync>(
    rt: &R,
    alloc: Global,
    gate: &G,
    step: u8,
    selection: &Selection,
    jobs: Vec<Job>,
) -> Result<Translated, TranslationFault>
    requires selection { IsSelection selection.now }
    requires jobs { AreJobs jobs.items (functions_of selection.now.code) }
    ensures image { (t : ProgramTree) → tree_of selection.now.tree ≡ lowered_program t → IfOk result (λ made. HasImage (jobs_at step jobs.items) t made.image) }
    ensures frames { (t : ProgramTree) → tree_of selection.now.tree ≡ lowered_program t → IfOk result (λ made. HasFrames (jobs_at step jobs.items) t made.certificate) }
    ensures arranged { IfOk result (λ _. AreArranged (tree_of selection.now.tree).functions (map layout_of jobs.items)) }
    ensures sequences { IfOk result (λ made. map (λ (f : Frame). f.seq) made.certificate ≡ map (λ job. job.sequence) jobs.items) }
    ensures claims { IfOk result (λ made. All ClaimsHold made.certificate) }
    ensures refused { (t : ProgramTree) → tree_of selection.now.tree ≡ lowered_program t → IfErr result (Says (jobs_at step jobs.items) t) }
{
    frame_layouts::claims_hold();
    frame_layouts::frames_are_arranged();
    let planned = with_plan(rt, alloc, gate, selection, jobs)?;
    let image = image_of(alloc, step, selection, &planned)?;
    let certificate = certified(alloc, selection, planned)?;
    Ok(Translated { image, certificate })
}

/// The image and the certificate of a typed program by its accumulator code, whose frames are laid out as jobs for its functions, one for each in
/// order, find it; AR0 moves another register by the step, from 1 to 8. The pieces of a search run in threads where these can be made, and the
/// gate sees each of them begin and end; what becomes of the program is the same whatever the threads do. It is refused where its data or its
/// code find no room.
pub fn translate_by_jobs<R: Threads + Sync, G: Gate + Sync>(
    rt: &R,
    alloc: Global,
    gate: &G,
    step: u8,
    selection: &Selection,
    jobs: Vec<Job>,
) -> Result<Translated, TranslationFault>
    requires selection { IsSelection selection.now }
    requires jobs { AreJobs jobs.items (functions_of selection.now.code) }
    requires near { step ≤ 8 }
    ensures image { (t : ProgramTree) → IsSelectionOf selection.now t → IfOk result (λ made. HasImage (jobs_at step jobs.items) t made.image) }
    ensures frames { (t : ProgramTree) → IsSelectionOf selection.now t → IfOk result (λ made. HasFrames (jobs_at step jobs.items) t made.certificate) }
    // What the accumulator code does is what the program does.
    ensures keeps { (t : ProgramTree) → IsSelectionOf selection.now t → IfOk result (λ _. ∥ KeepsRuns (jobs_at step jobs.items) t ∥₁) }
    // So is what its word tree does, with no more work.
    ensures tree { (t : ProgramTree) → IsSelectionOf selection.now t → IfOk result (λ _. ∥ TreeKeepsRuns (jobs_at step jobs.items) t ∥₁) }
    // And so is what the image does, from any start and on any input; where the program ends, in time.
    ensures agrees { (t : ProgramTree) → IsSelectionOf selection.now t → IfOk result (λ made. ∥ Agrees (source_run t) made.image.words ∥₁) }
    ensures in_time { (t : ProgramTree) → IsSelectionOf selection.now t → IfOk result (λ made. ∥ EndsInTime t made.image.words ∥₁) }
    // The words of each function access what the source says, where its frame says, with so many address instructions as that costs.
    ensures walked { (t : ProgramTree) → IsSelectionOf selection.now t → IfOk result (λ made. ∥ AreWalkedAs made.image (map (source_sequence step) t.functions) made.certificate ∥₁) }
    // No direct operand of them names a word of its scalars.
    ensures direct { (t : ProgramTree) → IsSelectionOf selection.now t → IfOk result (λ made. ∥ IsDirect (jobs_at step jobs.items) t made.image ∥₁) }
    // Jumps lead to first words of instructions of their ranges, and calls to those of ranges and of routines.
    ensures leads { (t : ProgramTree) → IsSelectionOf selection.now t → IfOk result (λ made. ∥ LeadsRight (jobs_at step jobs.items) t made.image ∥₁) }
    // Along its code in each run, words of a function's scalars are accessed as walks list it, or through another register than AR2 to AR5.
    ensures listed { (t : ProgramTree) → IsSelectionOf selection.now t → IfOk result (λ made. ∥ ListsFrames (jobs_at step jobs.items) t made.image ∥₁) }
    // Words of data memory that can be in use at once are apart, those of the frames' lists as they are stored.
    ensures apart { (t : ProgramTree) → IsSelectionOf selection.now t → IfOk result (λ made. LieApart t made.certificate) }
    // Each frame is laid out for what its job searches.
    ensures sequences { IfOk result (λ made. map (λ (f : Frame). f.seq) made.certificate ≡ map (λ job. job.sequence) jobs.items) }
    // A frame costs what it says, and where it is claimed to be optimal no layout costs less.
    ensures claims { IfOk result (λ made. All ClaimsHold made.certificate) }
    ensures refused { (t : ProgramTree) → IsSelectionOf selection.now t → IfErr result (Says (jobs_at step jobs.items) t) }
{
    image_proof::accesses_are_kept();
    image_proof::translation_keeps_runs();
    image_proof::lowering_keeps_runs();
    image_proof::images_agree();
    image_proof::programs_walk();
    image_proof::programs_are_direct();
    image_proof::programs_lead_right();
    image_proof::programs_list_frames();
    finished(rt, alloc, gate, step, selection, jobs)
}

/// The image and the certificate of a typed program, whose frames are laid out as is chosen, for its functions' accesses. The pieces of a search
/// run in threads where these can be made, and the gate sees each of them begin and end; what becomes of the program is the same whatever the
/// threads do. It is refused where its data or its code find no room.
pub fn translate<R: Threads + Sync, G: Gate + Sync>(
    rt: &R,
    alloc: Global,
    gate: &G,
    options: Options,
    program: &Program,
) -> Result<Translated, TranslationFault>
    requires { AreOptions options }
    ensures image { IfOk result (λ made. HasImage (source_jobs options (program_of program.now)) (program_of program.now) made.image) }
    ensures frames { IfOk result (λ made. HasFrames (source_jobs options (program_of program.now)) (program_of program.now) made.certificate) }
    // What the accumulator code does is what the program does.
    ensures keeps { IfOk result (λ _. ∥ KeepsRuns (source_jobs options (program_of program.now)) (program_of program.now) ∥₁) }
    // So is what its word tree does, with no more work.
    ensures tree { IfOk result (λ _. ∥ TreeKeepsRuns (source_jobs options (program_of program.now)) (program_of program.now) ∥₁) }
    // And so is what the image does, from any start and on any input; where the program ends, in time.
    ensures agrees { IfOk result (λ made. ∥ Agrees (source_run (program_of program.now)) made.image.words ∥₁) }
    ensures in_time { IfOk result (λ made. ∥ EndsInTime (program_of program.now) made.image.words ∥₁) }
    // The words of each function access what its frame says, with so many address instructions.
    ensures walked { IfOk result (λ made. ∥ AreWalked made.image made.certificate ∥₁) }
    // No direct operand of them names a word of its scalars.
    ensures direct { IfOk result (λ made. ∥ IsDirect (source_jobs options (program_of program.now)) (program_of program.now) made.image ∥₁) }
    // Jumps lead to first words of instructions of their ranges, and calls to those of ranges and of routines.
    ensures leads { IfOk result (λ made. ∥ LeadsRight (source_jobs options (program_of program.now)) (program_of program.now) made.image ∥₁) }
    // Along its code in each run, words of a function's scalars are accessed as walks list it, or through another register than AR2 to AR5.
    ensures listed { IfOk result (λ made. ∥ ListsFrames (source_jobs options (program_of program.now)) (program_of program.now) made.image ∥₁) }
    // Words of data memory that can be in use at once are apart, those of the frames' lists as they are stored.
    ensures apart { IfOk result (λ made. LieApart (program_of program.now) made.certificate) }
    // Each frame is laid out for the accesses of its function in the source.
    ensures accesses { IfOk result (λ made. AccessAs options.step (program_of program.now) made.certificate) }
    // A frame costs what it says, and where it is claimed to be optimal no layout costs less.
    ensures claims { IfOk result (λ made. All ClaimsHold made.certificate) }
    ensures refused { IfErr result (Says (source_jobs options (program_of program.now)) (program_of program.now)) }
{
    image_proof::accesses_are_kept();
    let selection = select(alloc, program)?;
    let jobs = jobs_of(alloc, options, functions(&selection))?;
    translate_by_jobs(rt, alloc, gate, options.step, &selection, jobs)
}
