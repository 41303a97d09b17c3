//! A source is compiled with layouts for a recorded run.
ghost use Rattle.std.specs.Prelude.{◌≡◌, ◌≢◌, ◌<◌, ◌^◌, List, length, All, IfOk, IfErr};
ghost use Rattle.cc_compile.specs.c_tree.TypedTree.{ProgramTree};
ghost use Rattle.cc_compile.specs.Selections.{IsSelection, IsSelectionOf};
ghost use Rattle.cc_compile.specs.Compiles.{IsBuilt};
ghost use Rattle.cc_compile.specs.frame_layouts.Frames.{ClaimsHold};
ghost use Rattle.cc_compile.specs.frame_layouts.declared.options.Options.{Options};
ghost use Rattle.cc_compile.specs.lay_cert.Frames.{Frame};
ghost use Rattle.lay_profile.specs.declared.fault.ProfileFault.TheVariants as faults;
ghost use Rattle.lay_profile.specs.Profiles.{HasFault, HasLayoutFault, IsLaidOut, IsProfiled};
ghost use Rattle.lay_profile.specs.Recordings.{AreProfileOptions, recording_of};

use crate::fault::ProfileFault;
use crate::options::ProfileOptions;
use crate::recorded::record_run;
use crate::shapes::all_shaped;
use c25_isa::Image;
use cc_compile::{Certificate, Selection, functions, select, translate_by_jobs, typed_program};
use std::alloc::Global;
use std::thread::Threads;
use word_base::{Gate, Ports};

/// By how much AR0 moves another register: by as much as a move that needs no AR0.
const STEP: u8 = 1;

/// What a source is compiled to with layouts for a recorded run.
#[derive(Drop)]
pub struct Profiled {
    /// The words, and the range of each function.
    pub image: Image,
    /// A frame for each function, in order: its accesses, each block weighed by how often the run entered it, its layout, and what shows
    /// that no layout costs less.
    pub cert: Certificate,
    /// How often the run entered blocks of each function, in order.
    pub entered: Vec<u64>,
}

// A program in accumulator code, laid out for a recorded run.
fn laid_out<R: Threads + Sync, G: Gate + Sync>(
    rt: &R,
    alloc: Global,
    gate: &G,
    selection: &Selection,
    first: &Image,
    ports: &Ports,
    options: ProfileOptions,
) -> Result<Profiled, ProfileFault>
    requires selection { IsSelection selection.now }
    requires options { AreProfileOptions options }
    ensures laid_out { (t : ProgramTree) → IsSelectionOf selection.now t
        → IfOk result (λ p. IsLaidOut options (recording_of first.now ports.now options.steps) t p.image p.cert p.entered.items) }
    ensures claims { IfOk result (λ p. All ClaimsHold p.cert) }
    ensures refused { (t : ProgramTree) → IsSelectionOf selection.now t
        → IfErr result (λ why. why ≢ faults.NoMemory → HasLayoutFault options (recording_of first.now ports.now options.steps) t why) }
{
    cc_compile::accesses_are_kept();
    crate::weighed_costs_the_run();
    let shaped = all_shaped(alloc, first, functions(selection))?;
    let recorded = record_run(alloc, first, ports, options, &shaped)?;
    let translated = translate_by_jobs(rt, alloc, gate, STEP, selection, recorded.jobs)?;
    Ok(Profiled {
        image: translated.image,
        cert: translated.certificate,
        entered: recorded.entered,
    })
}

/// Compiles a source of less than 2^32 bytes with layouts for a run of an image that has the shape of its functions, such as the one that it is compiled
/// to otherwise. The run is that from zeros on what the ports are given, up to its end, a trap or so many steps. It is counted how often it enters
/// each block of accesses, and the frames' layouts are searched with these counts as weights. A refusal names the first fault, in the order of
/// `ProfileFault`. The pieces of a search run in threads where these can be made, and the gate sees each of them begin and end; what the source
/// is compiled to is the same whatever the threads do.
pub fn profile_build<R: Threads + Sync, G: Gate + Sync>(
    rt: &R,
    alloc: Global,
    gate: &G,
    bytes: &[u8],
    first: &Image,
    ports: &Ports,
    options: ProfileOptions,
) -> Result<Profiled, ProfileFault>
    requires short { length bytes.now < 2 ^ 32 }
    requires options { AreProfileOptions options }
    // The image is that of the source's program, linked from the pieces that are emitted and the routines, and the certificate has its frames,
    // which are laid out for the run. What it does is what the source does.
    ensures profiled { IfOk result (λ p. IsProfiled options bytes.now (recording_of first.now ports.now options.steps) p.image p.cert p.entered.items) }
    // A frame costs what it says, and where it is claimed to be optimal no layout costs less.
    ensures claims { IfOk result (λ p. All ClaimsHold p.cert) }
    // An image that the source is compiled to is never refused as one of another source.
    ensures own_image { (o : Options) (frames : List Frame) → IsBuilt o bytes.now first.now frames → IfErr result (λ why. why ≢ faults.OtherSource) }
    // A refusal has its cause, unless memory is wanting.
    ensures refused { IfErr result (λ why. why ≢ faults.NoMemory → HasFault options bytes.now (recording_of first.now ports.now options.steps) why) }
{
    cc_compile::code_is_bounded();
    cc_compile::programs_weigh_by_nodes();
    let program = typed_program(alloc, bytes)?;
    let selection = select(alloc, &program)?;
    laid_out(rt, alloc, gate, &selection, first, ports, options)
}
