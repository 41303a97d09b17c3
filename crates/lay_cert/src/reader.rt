//! Reading certificates frame by frame.
ghost use Rattle.std.specs.Prelude.{◌≡◌, ◌≤◌, ◌+◌, ℕ, List, [], ◌∷◌, ◌++◌, Bool, length, ◌≢◌, MatchOption, MatchResult, IfOk, IfErr, IfSome};
ghost use Rattle.word_base.specs.Name.{IsName};
ghost use Rattle.lay_cert.specs.Frames.{Frame, IsWhole};
ghost use Rattle.lay_cert.specs.CertReading.{Unread, Inside, Finished, Named, Between, Reads, Says};
ghost use Rattle.lay_cert.specs.LineReading.{Stands};
ghost use Rattle.lay_cert.specs.FrameReading.{HasReadFrames};
ghost use Rattle.lay_cert.specs.declared.fault.CertFault.TheVariants as faults;

use crate::certificate::{CertFrame, FrameParts};
use crate::fault::CertFault;
use crate::fields::read_name;
use crate::frames::{read_blocks, read_claim, read_cost, read_frame_head, read_lists, read_marks};
use crate::lines::Lines;
use lay_model::Arrangement;
use std::alloc::Global;
use std::marker::Model;
use word_base::Text;

/// Reads the frames of a certificate one by one, so that no more than one need be in memory. Contracts see how many lines and frames are
/// read, what is left, and whether the version has lines of steps.
#[derive(Drop)]
pub struct CertReader<'a> {
    lines: Lines<'a>,
    steps: bool,
    frames: u64,
}

impl<'a> Model for CertReader<'a> {
    ghost use Rattle.lay_cert.specs.FrameReading.{Reading, IsReading};

    ghost Value = { Reading };

    ghost view = { λ r. record { at = r.lines; steps = r.steps; frames = r.frames } };

    ghost invariant = { λ r. IsReading (record { at = r.lines; steps = r.steps; frames = r.frames }) };
}

impl<'a> CertReader<'a> {
    /// Before the first frame of these bytes, of which it reads the version. It takes no memory.
    pub fn new(bytes: &'a [u8]) -> Result<Self, CertFault>
        requires { length bytes.now ≤ 536870912 }
        ensures read { MatchResult result (HasReadFrames bytes.now []) (Says bytes.now) }
        ensures memory { IfErr result (λ f. f ≢ faults.NoMemory) }
    {
        let mut lines = Lines::new(bytes);
        let steps = read_version(&mut lines)?;
        Ok(CertReader {
            lines,
            steps,
            frames: 0,
        })
    }

    /// The next frame, or `None` where the certificate ends behind those that were read. At the end and at a fault the reader stays where it is,
    /// so that a further call answers the same, unless memory is wanting. The faults are those of `read_cert`.
    pub fn next(&mut self, alloc: Global) -> Result<Option<CertFrame>, CertFault>
        // The frame that the bytes say next, the end that they say, or their fault.
        ensures read { (bytes : List ℕ) (fs : List Frame) → HasReadFrames bytes fs self.old → MatchResult result (λ found. MatchOption found (Reads bytes fs) (λ f. HasReadFrames bytes (fs ++ f ∷ []) self.new)) (Says bytes) }
        // It is a frame, and its numbers have their bits.
        ensures whole { IfOk result (λ found. IfSome found IsWhole) }
        // It is one more, and they are never more than bytes: reading frame by frame ends.
        ensures further { IfOk result (λ found. IfSome found (λ _. (self.new.frames ≡ self.old.frames + 1) × (self.new.frames ≤ 536870912))) }
        ensures stays { MatchResult result (λ found. MatchOption found (self.new ≡ self.old) (λ _. Unit {0})) (λ _. self.new ≡ self.old) }
    {
        let mut lines = self.lines.duplicate();
        let Some(name) = read_frame_line(&mut lines)? else {
            read_end(&lines)?;
            return Ok(None);
        };
        let frame = read_frame(alloc, &mut lines, name, self.steps, self.frames)?;
        self.lines = lines;
        self.frames += 1;
        Ok(Some(frame))
    }
}

// Reads the version, and says whether it has lines of steps.
fn read_version(lines: &mut Lines<'_>) -> Result<bool, CertFault>
    ensures read { (bytes : List ℕ) → Stands bytes lines.old Unread → MatchResult result (λ steps. Stands bytes lines.new (Inside steps [] Between)) (Says bytes) }
    ensures memory { IfErr result (λ f. f ≢ faults.NoMemory) }
{
    let found = lines.number(b"C25 CERTIFICATE ", 0, u64::MAX)?;
    match found {
        1 => Ok(false),
        2 => Ok(true),
        _ => Err(CertFault::Version { found }),
    }
}

// Reads the first line of a frame, and gives its name, or the last line.
fn read_frame_line<'a>(lines: &mut Lines<'a>) -> Result<Option<&'a str>, CertFault>
    ensures read { (bytes : List ℕ) (steps : Bool) (fs : List Frame) → Stands bytes lines.old (Inside steps fs Between) → MatchResult result (λ found. MatchOption found (Stands bytes lines.new (Finished fs)) (λ name. Stands bytes lines.new (Inside steps fs (Named name.now)))) (Says bytes) }
    ensures name { IfOk result (λ found. IfSome found (λ name. IsName name.now)) }
{
    let fault = lines.next_fault();
    let Some(line) = lines.next() else {
        return Err(fault);
    };
    if line == b"end".as_slice() {
        return Ok(None);
    }
    let Some(name) = read_name(line) else {
        return Err(fault);
    };
    Ok(Some(name))
}

// Reads what stands behind the first line of the frame of this number.
fn read_frame(
    alloc: Global,
    lines: &mut Lines<'_>,
    name: &str,
    steps: bool,
    frame: u64,
) -> Result<CertFrame, CertFault>
    requires { IsName name.now }
    ensures { (bytes : List ℕ) (fs : List Frame) → length fs ≡ frame → Stands bytes lines.old (Inside steps fs (Named name.now)) → MatchResult result (λ f. Stands bytes lines.new (Inside steps (fs ++ f ∷ []) Between)) (Says bytes) }
{
    let head = read_frame_head(lines, steps)?;
    let seq = read_blocks(alloc, lines, head)?;
    let found = read_lists(alloc, lines, head.registers)?;
    let cost = read_cost(alloc, lines, &found.lists, head.scalars)?;
    let claim = read_claim(lines)?;
    let log = read_marks(alloc, lines, frame)?;
    Ok(CertFrame::new(FrameParts {
        name: Text::copy_of(alloc, name)?,
        registers: head.registers,
        seq,
        arr: Arrangement::new(found.lists),
        bases: found.bases,
        cost,
        claim,
        log,
    }))
}

// Nothing stands behind the last line.
fn read_end(lines: &Lines<'_>) -> Result<(), CertFault>
    ensures { (bytes : List ℕ) (fs : List Frame) → Stands bytes lines.now (Finished fs) → MatchResult result (λ _. Reads bytes fs) (Says bytes) }
{
    if lines.rest().is_empty() {
        Ok(())
    } else {
        Err(lines.next_fault())
    }
}
