//! The compilation of one source.
ghost use Rattle.std.specs.Prelude.{◌≡◌, ◌≢◌, ◌<◌, ◌^◌, length, map, All, IfOk, IfErr};
ghost use Rattle.cc_compile.specs.declared.fault.BuildFault.TheVariants as faults;
ghost use Rattle.cc_compile.specs.SourceFaults.{HasFault};
ghost use Rattle.cc_compile.specs.Compiles.{IsBuilt};
ghost use Rattle.cc_compile.specs.Made.{IsMade};
ghost use Rattle.frame_layouts.specs.Frames.{AreOptions, ClaimsHold};
ghost use Rattle.frame_layouts.specs.Rows.{row_of};

use crate::BuildFault;
use crate::front::typed_program;
use crate::translation::{Translated, translate};
use c25_isa::Image;
use cc_report::ReportRow;
use frame_layouts::{Certificate, Options, report_rows};
use std::alloc::Global;
use std::thread::Threads;
use word_base::{Gate, NoMemory};

/// What a source is compiled to.
#[derive(Drop)]
pub struct Built {
    /// The words, and the range of each function.
    pub image: Image,
    /// A frame for each function, in order: its accesses, its layout, and what shows that no layout costs less.
    pub certificate: Certificate,
    /// What a report tells of each function, in order.
    pub rows: Vec<ReportRow>,
}

// With what a report tells.
fn with_rows(alloc: Global, translated: Translated) -> Result<Built, NoMemory>
    ensures image { IfOk result (λ built. built.image ≡ translated.image) }
    ensures certificate { IfOk result (λ built. built.certificate ≡ translated.certificate) }
    ensures rows { IfOk result (λ built. built.rows.items ≡ map row_of built.certificate) }
{
    let rows = report_rows(alloc, &translated.certificate.frames)?;
    Ok(Built {
        image: translated.image,
        certificate: translated.certificate,
        rows,
    })
}

/// Compiles a source of less than 2^32 bytes, with frames laid out as is chosen. It is refused for its first fault, in the order of
/// `BuildFault`. The pieces of a search run in threads where these can be made, and the gate sees each of them begin and end; what the
/// source is compiled to is the same whatever the threads do.
pub fn compile<R: Threads + Sync, G: Gate + Sync>(
    rt: &R,
    alloc: Global,
    gate: &G,
    source: &[u8],
    options: Options,
) -> Result<Built, BuildFault>
    requires short { length source.now < 2 ^ 32 }
    requires options { AreOptions options }
    // The image does what the source does, and its words access what the frames of the certificate say.
    ensures built { IfOk result (λ built. IsBuilt options source.now built.image built.certificate) }
    // It is linked from the pieces that are emitted and the routines that they call.
    ensures made { IfOk result (λ built. IsMade options source.now built.image built.certificate) }
    // A frame costs what it says, and where it is claimed to be optimal no layout costs less.
    ensures claims { IfOk result (λ built. All ClaimsHold built.certificate) }
    ensures rows { IfOk result (λ built. built.rows.items ≡ map row_of built.certificate) }
    // A refusal has its cause, unless memory is wanting.
    ensures refused { IfErr result (λ why. why ≢ faults.NoMemory → HasFault options source.now why) }
{
    image_proof::accesses_are_kept();
    crate::image_laws::code_is_bounded();
    size_proof::programs_weigh_by_nodes();
    let program = typed_program(alloc, source)?;
    let translated = translate(rt, alloc, gate, options, &program)?;
    Ok(with_rows(alloc, translated)?)
}
