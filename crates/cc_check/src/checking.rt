//! Checks of whole images against certificates, of which one frame at a time is in memory.
ghost use Rattle.std.specs.Prelude.{◌≡◌, ◌&&◌, ◌||◌, ◌∷◌, ◌++◌, ◌<◌, ◌≤◌, ℕ, List, [], false, length, slice_index_or, All, IfOk, IfErr, IfSome, OnOk, MatchResult};
ghost use Rattle.lay_cert.specs.Frames.{Frame};
ghost use Rattle.lay_cert.specs.CertReading.{Reads, Says};
ghost use Rattle.lay_cert.specs.declared.fault.CertFault.TheVariants as faults;
ghost use Rattle.cc_check.specs.Findings.{number_of, is_pass};
ghost use Rattle.cc_check.specs.Checks.{OptimalHolds};
ghost use Rattle.cc_check.specs.CheckText.{finding_text, line_of, is_number, check_text, all_pass};
ghost use Rattle.cc_check.specs.Memory.{number_in};
ghost use Rattle.cc_check.specs.Checked.{AreChecked, ChecksAll};
ghost use Rattle.cc_check.specs.Kept.{AreKept};

use crate::finding::Finding;
use crate::frames::check_frame;
use crate::laws::optimal_means;
use crate::lines::{push_frame, push_no_frames};
use crate::numbers::Numbers;
use crate::walks::Walks;
use c25_isa::Image;
use lay_cert::{CertFault, CertFrame, CertReader};
use std::alloc::Global;
use word_base::NoMemory;

/// The lines of a check, each with its line feed, and whether all frames pass their tests. A function without a frame has a line and
/// no test.
#[derive(Drop)]
pub struct Checked {
    pub text: Vec<u8>,
    pub passes: bool,
}

impl Checked {
    // One more frame.
    fn add(&mut self, name: &str, finding: Finding) -> Result<(), NoMemory>
        ensures text { OnOk result (self.new.text.items ≡ self.old.text.items ++ line_of name.now (finding_text finding)) }
        ensures passes { OnOk result (self.new.passes ≡ (self.old.passes && is_pass finding)) }
    {
        push_frame(&mut self.text, name, finding)?;
        self.passes = self.passes && finding.passes();
        Ok(())
    }
}

// Marks the function of a frame, where there is one.
fn mark(framed: &mut [bool], function: Option<u16>)
    requires { IfSome function (λ k. k < length framed.old) }
    ensures { (k : ℕ) → slice_index_or framed.new k false ≡ (slice_index_or framed.old k false || is_number k function) }
{
    if let Some(function) = function {
        framed[usize::from(function)] = true;
    }
}

// One more frame is checked. Marks the function that it is of.
fn add_frame(
    alloc: Global,
    image: &Image,
    numbers: &Numbers<'_>,
    frame: &CertFrame,
    walks: &mut Walks,
    framed: &mut [bool],
    checked: &mut Checked,
) -> Result<(), NoMemory>
    requires numbers { number_in numbers.now.numbers ≡ number_of image.now.functions }
    requires walks { AreKept image.now walks.old.kept.items }
    requires marks { length framed.old ≡ length image.now.functions }
    ensures checked { (fs : List Frame) → AreChecked image.now fs checked.old.text.items checked.old.passes framed.old
        → OnOk result (AreChecked image.now (fs ++ frame.now ∷ []) checked.new.text.items checked.new.passes framed.new) }
    ensures kept { AreKept image.now walks.new.kept.items }
{
    optimal_means();
    let function = numbers.number(frame.name());
    mark(framed, function);
    let finding = check_frame(alloc, frame, image, walks, function)?;
    checked.add(frame.name(), finding)?;
    Ok(())
}

// The lines of all frames. Marks the functions that they are of.
fn check_frames(
    alloc: Global,
    image: &Image,
    certificate: &[u8],
    framed: &mut [bool],
) -> Result<Checked, CertFault>
    requires short { length certificate.now ≤ 536870912 }
    requires marks { length framed.old ≡ length image.now.functions }
    requires none { (k : ℕ) → slice_index_or framed.old k false ≡ false }
    ensures { MatchResult result (λ c. ChecksAll image.now certificate.now c.text.items c.passes framed.new) (Says certificate.now) }
{
    let numbers = Numbers::of(alloc, image)?;
    let mut walks = Walks::new(alloc, image)?;
    let mut reader = CertReader::new(certificate)?;
    let mut checked = Checked {
        text: Vec::new(alloc),
        passes: true,
    };
    while let Some(frame) = reader.next(alloc)? {
        add_frame(
            alloc,
            image,
            &numbers,
            &frame,
            &mut walks,
            framed,
            &mut checked,
        )?;
    }
    Ok(checked)
}

/// Checks the words of an image against the frames that the bytes of a certificate say. There is a line for each frame, in order, and then one for
/// each function that has no frame; of several functions of one name the first has the frames. Bytes that are no certificate are refused with
/// the fault of `read_cert`, whatever the frames before it are. Beside the bytes one frame at a time is in memory, and the walks over the
/// functions that frames named so far: each function is walked over at most once.
pub fn check(alloc: Global, image: &Image, certificate: &[u8]) -> Result<Checked, CertFault>
    requires { length certificate.now ≤ 536870912 }
    // The bytes say frames.
    ensures reads { IfOk result (λ _. (fs : List Frame) × Reads certificate.now fs) }
    ensures text { (fs : List Frame) → Reads certificate.now fs → IfOk result (λ c. c.text.items ≡ check_text image.now fs) }
    ensures passes { (fs : List Frame) → Reads certificate.now fs → IfOk result (λ c. c.passes ≡ all_pass image.now fs) }
    // What the words of each frame are that is found to be optimal.
    ensures optimal { (fs : List Frame) → Reads certificate.now fs → IfOk result (λ _. All (OptimalHolds image.now) fs) }
    // Frames that the bytes say are checked, unless memory is wanting.
    ensures written { (fs : List Frame) → Reads certificate.now fs → IfErr result (λ fault. fault ≡ faults.NoMemory) }
    // Which fault it is, and where.
    ensures fault { IfErr result (Says certificate.now) }
{
    let functions = image.functions();
    let mut framed = vec![in alloc; false; functions.len()]?;
    let mut checked = check_frames(alloc, image, certificate, &mut framed)?;
    push_no_frames(&mut checked.text, functions, &framed)?;
    Ok(checked)
}
