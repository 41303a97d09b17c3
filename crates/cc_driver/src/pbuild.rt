//! `pbuild SRC IMG0 PORTS IMG [-r N] [--budget B] [--steps M]`.
ghost use Rattle.std.specs.Prelude.{◌≡◌, ◌≢◌, ◌≤◌, length, IfOk, IfErr, string_bytes};
ghost use Rattle.c25_image.specs.ImageFaults.{IsWhole};
ghost use Rattle.c25_image.specs.ImageText.{image_text};
ghost use Rattle.cc_check.specs.lay_cert.CertText.{cert_text};
ghost use Rattle.cc_report.specs.Profile.{profile_lines};
ghost use Rattle.cc_words.specs.Bounds.{IsWithinBounds};
ghost use Rattle.cc_files.specs.frame_layouts.Rows.{is_optimal};
ghost use Rattle.cc_files.specs.cc_text.Refusals.{why_of, OfMemory};
ghost use Rattle.cc_answers.specs.Answers.{answered};
ghost use Rattle.cc_files.specs.World.{shelves};
ghost use Rattle.cc_driver.specs.BuildTexts.{stored_of, answer_of};
ghost use Rattle.cc_driver.specs.Commands.{stores_under};
ghost use Rattle.cc_driver.specs.Profile as profile;
ghost use Rattle.cc_driver.specs.Profile.{profile_row, profile_rows, ProfilesTo, ProfileRefused};
ghost use Rattle.cc_driver.specs.ProfileTexts.{asked_of, options_of};
ghost use Rattle.cc_files.specs.Stores.{OnlyUnder};
ghost use Rattle.cc_driver.specs.Work.{WorkDone, WorkRefused};

use crate::build::{Texts, store_texts};
use c25_image::{read_image, read_ports, write_image};
use cc_answers::Answer;
use cc_check::write_cert;
use cc_files::{
    FetchedThree, IMAGE_LIMIT, PORTS_LIMIT, ProfileOptions, Profiled, Refusal, SOURCE_LIMIT, Want,
    fetch_three, profile_build,
};
use cc_report::{ProfileRow, profile_text};
use cc_shelf::Shelf;
use cc_words::Pbuild;
use lay_cert::{CertFrame, Claim};
use std::alloc::Global;
use std::thread::Threads;
use word_base::{NoMemory, OpenGate, Text};

// How layouts are searched, as is chosen.
fn options(asked: &Pbuild<'_>) -> ProfileOptions
    ensures { result ≡ options_of asked.now }
{
    ProfileOptions {
        registers: asked.registers,
        budget: asked.budget,
        steps: asked.steps,
    }
}

// The name of the certificate of an image with this name.
fn weighted_name(alloc: Global, image: &str) -> Result<String, NoMemory>
    ensures { IfOk result (λ name. string_bytes name ≡ profile.weighted_name image.now) }
{
    Ok(format!(in alloc; "{image}.prf")?)
}

// Whether it is claimed that no layout costs less.
fn claims_least(claim: Claim) -> bool
    ensures { result ≡ is_optimal claim }
{
    match claim {
        Claim::Optimal => true,
        Claim::Best { .. } => false,
    }
}

// What is told of a frame, blocks of whose function are entered so often in all.
fn row(alloc: Global, frame: &CertFrame, entries: u64) -> Result<ProfileRow, NoMemory>
    ensures { IfOk result (λ r. r ≡ profile_row frame.now entries) }
{
    Ok(ProfileRow {
        name: Text::copy_of(alloc, frame.name())?,
        scalars: frame.seq().scalars(),
        registers: frame.registers(),
        entries,
        weighted: frame.cost(),
        optimal: claims_least(frame.claim()),
    })
}

// A row for each frame and how often blocks of its function are entered.
fn rows(alloc: Global, frames: &[CertFrame], entered: &[u64]) -> Result<Vec<ProfileRow>, NoMemory>
    ensures { IfOk result (λ rows. rows.items ≡ profile_rows frames.now entered.now) }
{
    let mut rows = Vec::new(alloc);
    for (frame, entries) in frames.iter().zip(entered) {
        rows.push(row(alloc, frame, *entries)?)?;
    }
    Ok(rows)
}

// The texts of what a source is compiled to.
fn texts_of(alloc: Global, profiled: &Profiled, image: &str) -> Result<Texts, NoMemory>
    ensures whole { IfOk result (λ _. IsWhole profiled.now.image) }
    ensures image { IfOk result (λ texts. texts.image.items ≡ image_text profiled.now.image) }
    ensures name { IfOk result (λ texts. string_bytes texts.name ≡ profile.weighted_name image.now) }
    ensures certificate { IfOk result (λ texts. texts.certificate.items ≡ cert_text profiled.now.cert) }
    ensures report { IfOk result (λ texts. texts.report.items ≡ profile_lines (profile_rows profiled.now.cert profiled.now.entered.items)) }
{
    let rows = rows(alloc, &profiled.cert.frames, &profiled.entered)?;
    Ok(Texts {
        image: write_image(alloc, &profiled.image)?,
        name: weighted_name(alloc, image)?,
        certificate: write_cert(alloc, &profiled.cert)?,
        report: profile_text(alloc, &rows)?,
    })
}

// The texts of what the source of the first text is compiled to, for a run of the image of the second on the ports of
// the third.
fn profiled<'a, R: Threads + Sync>(
    rt: &R,
    alloc: Global,
    asked: &Pbuild<'a>,
    files: &FetchedThree,
) -> Result<Texts, Refusal<'a>>
    requires short { length files.now.first.items ≤ 1048576 }
    requires within { IsWithinBounds (asked_of asked.now) }
    ensures profiled { IfOk result (λ texts. ProfilesTo (options_of asked.now) asked.now.image.now files.now.first.items files.now.second.items
        files.now.third.items (answer_of texts) (stored_of asked.now.image.now texts)) }
    ensures name { IfOk result (λ texts. string_bytes texts.name ≡ profile.weighted_name asked.now.image.now) }
    // A refusal has its cause, unless memory is wanting.
    ensures refused { IfErr result (λ r. why_of r ≢ OfMemory
        → ProfileRefused (options_of asked.now) asked.now.first.now asked.now.ports.now
        files.now.first.items files.now.second.items files.now.third.items (why_of r)) }
{
    let first = match read_image(alloc, &files.second) {
        Ok(image) => image,
        Err(fault) => return Err(Refusal::of_image(asked.first, fault)),
    };
    let ports = match read_ports(alloc, &files.third) {
        Ok(ports) => ports,
        Err(fault) => return Err(Refusal::of_ports(asked.ports, fault)),
    };
    let options = options(asked);
    let profiled = match profile_build(
        rt,
        alloc,
        &OpenGate,
        &files.first,
        &first,
        &ports,
        options,
    ) {
        Ok(profiled) => profiled,
        Err(fault) => return Err(Refusal::of_profile(asked.first, fault)),
    };
    Ok(texts_of(alloc, &profiled, asked.image)?)
}

/// Compiles a source with layouts for a recorded run, stores its image and then its certificate, and answers a line for each function.
pub(crate) fn answer<'a, R: Threads + Sync, F: Shelf>(
    rt: &R,
    alloc: Global,
    asked: &Pbuild<'a>,
    shelf: &mut F,
) -> Result<Answer, Refusal<'a>>
    requires { IsWithinBounds (asked_of asked.now) }
    ensures done { IfOk result (λ a. WorkDone (asked_of asked.now) (shelves F.tells (F.stock shelf.old) (F.stock shelf.new)) (answered a)) }
    ensures ends { IfOk result (λ a. (answered a).status ≡ 0) }
    ensures refused { IfErr result (λ r. WorkRefused (asked_of asked.now) (shelves F.tells (F.stock shelf.old) (F.stock shelf.new)) (why_of r)) }
    ensures others { OnlyUnder (stores_under (asked_of asked.now)) (shelves F.tells (F.stock shelf.old) (F.stock shelf.new)) }
{
    let source = Want {
        name: asked.source,
        limit: SOURCE_LIMIT,
    };
    let first = Want {
        name: asked.first,
        limit: IMAGE_LIMIT,
    };
    let ports = Want {
        name: asked.ports,
        limit: PORTS_LIMIT,
    };
    let files = fetch_three(alloc, shelf, &source, &first, &ports)?;
    let texts = profiled(rt, alloc, asked, &files)?;
    store_texts(alloc, shelf, asked.image, &texts)?;
    Ok(Answer {
        text: Some(texts.report),
        status: 0,
    })
}
