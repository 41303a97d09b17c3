//! The lines of a frame, kind by kind.
ghost use Rattle.std.specs.Prelude.{◌≡◌, ◌≤◌, ℕ, List, [], ◌∷◌, ◌++◌, Bool, length, codes, MatchResult, IfOk};
ghost use Rattle.lay_model.specs.Sequences.{Block};
ghost use Rattle.lay_model.specs.Arrangements.{Arranges};
ghost use Rattle.lay_cert.specs.Frames.{Frame};
ghost use Rattle.lay_cert.specs.CertReading.{Head, head_of, frame_of, marked, Inside, Named, Stepped, Listing, Costed, Claimed, Marking, Between, registered, Says};
ghost use Rattle.lay_cert.specs.LineReading.{Stands, BeginsNot, HasLists, IsHead};

use crate::certificate::{Claim, MOST_REGISTERS};
use crate::fault::CertFault;
use crate::fields;
use crate::lines::Lines;
use lay_lines::{MARKS_TO_A_LINE, is_arranged, is_short, push_marks, read_block, read_list};
use lay_model::{Blocks, MOST_SCALARS, MOST_STEP, ScalarList, Sequence};
use lay_tree::{Log, Mark};
use std::alloc::Global;

/// The most that weights times numbers of accesses are together.
const MOST_COUNTED: u64 = 1 << 60;

/// The numbers before the blocks of a frame.
#[derive(Clone, Copy)]
pub(crate) struct FrameHead {
    pub(crate) registers: u8,
    pub(crate) step: u8,
    pub(crate) scalars: u8,
}

/// The lists of a frame with their bases.
#[derive(Drop)]
pub(crate) struct Lists {
    pub(crate) lists: Vec<ScalarList>,
    pub(crate) bases: Vec<u16>,
}

// Reads the step, which is 1 where there is no line of it.
fn read_step(lines: &mut Lines<'_>, steps: bool) -> Result<u8, CertFault>
    ensures read { (bytes : List ℕ) (fs : List Frame) (name : List ℕ) (k : ℕ) → Stands bytes lines.old (Inside steps fs (registered steps name k)) → MatchResult result (λ step. Stands bytes lines.new (Inside steps fs (Stepped name k step))) (Says bytes) }
    ensures range { IfOk result (λ step. (1 ≤ step) × (step ≤ 8)) }
{
    if !steps {
        return Ok(1);
    }
    let step = lines.number(b"step ", 1, u64::from(MOST_STEP))?;
    Ok(step as u8)
}

/// Reads what stands between the name and the blocks.
pub(crate) fn read_frame_head(lines: &mut Lines<'_>, steps: bool) -> Result<FrameHead, CertFault>
    ensures read { (bytes : List ℕ) (fs : List Frame) (name : List ℕ) → Stands bytes lines.old (Inside steps fs (Named name)) → MatchResult result (λ head. Stands bytes lines.new (Inside steps fs (Listing (head_of name head.registers head.step head.scalars) [] [] []))) (Says bytes) }
    ensures range { IfOk result (λ head. IsHead head.registers head.step head.scalars) }
{
    let registers = lines.number(b"registers ", 1, u64::from(MOST_REGISTERS))?;
    let step = read_step(lines, steps)?;
    let scalars = lines.number(b"scalars ", 0, u64::from(MOST_SCALARS))?;
    Ok(FrameHead {
        registers: registers as u8,
        step,
        scalars: scalars as u8,
    })
}

/// Reads all lines of blocks.
pub(crate) fn read_blocks(
    alloc: Global,
    lines: &mut Lines<'_>,
    head: FrameHead,
) -> Result<Sequence, CertFault>
    requires { IsHead head.registers head.step head.scalars }
    ensures read { (bytes : List ℕ) (steps : Bool) (fs : List Frame) (h : Head) → h.scalars ≡ head.scalars → Stands bytes lines.old (Inside steps fs (Listing h [] [] [])) → MatchResult result (λ seq. Stands bytes lines.new (Inside steps fs (Listing h seq.blocks [] []))) (Says bytes) }
    ensures seq { IfOk result (λ seq. (seq.scalars ≡ head.scalars) × (seq.step ≡ head.step)) }
    ensures next { IfOk result (λ _. BeginsNot (codes "block ") lines.new.text) }
{
    let mut blocks = Blocks::new(alloc);
    let mut room = MOST_COUNTED;
    while let Some(line) = lines.next_with(b"block ") {
        let Some(block) = read_block(alloc, line, head.scalars, room)? else {
            return Err(lines.fault());
        };
        room -= u64::from(block.weight()) * block.accesses().len() as u64;
        blocks.push(block.weight(), block.accesses())?;
    }
    Ok(Sequence::new(head.scalars, head.step, blocks))
}

/// Reads all lines of lists, at most one for each register.
pub(crate) fn read_lists(
    alloc: Global,
    lines: &mut Lines<'_>,
    registers: u8,
) -> Result<Lists, CertFault>
    ensures read { (bytes : List ℕ) (steps : Bool) (fs : List Frame) (h : Head) (blocks : List Block) → h.registers ≡ registers → BeginsNot (codes "block ") lines.old.text → Stands bytes lines.old (Inside steps fs (Listing h blocks [] [])) → MatchResult result (λ found. HasLists bytes steps fs h blocks found.lists.items found.bases.items lines.new) (Says bytes) }
    ensures counts { IfOk result (λ found. (length found.lists.items ≤ registers) × (length found.bases.items ≡ length found.lists.items)) }
{
    let mut lists = Vec::new(alloc);
    let mut bases = Vec::new(alloc);
    while let Some(line) = lines.next_with(b"list ") {
        let fault = lines.fault();
        if lists.len() >= usize::from(registers) {
            return Err(fault);
        }
        let Some((base, list)) = read_list(alloc, line)? else {
            return Err(fault);
        };
        bases.push(base)?;
        lists.push(list)?;
    }
    Ok(Lists { lists, bases })
}

/// Reads the cost, which stands behind lists that arrange so many scalars.
pub(crate) fn read_cost(
    alloc: Global,
    lines: &mut Lines<'_>,
    lists: &[ScalarList],
    scalars: u8,
) -> Result<u64, CertFault>
    ensures read { (bytes : List ℕ) (steps : Bool) (fs : List Frame) (h : Head) (blocks : List Block) (bases : List ℕ) → h.scalars ≡ scalars → HasLists bytes steps fs h blocks lists.now bases lines.old → MatchResult result (λ cost. Stands bytes lines.new (Inside steps fs (Costed h blocks bases lists.now cost))) (Says bytes) }
    ensures arranged { IfOk result (λ _. Arranges scalars lists.now) }
{
    let arranged = is_arranged(alloc, lists, scalars)?;
    if !arranged {
        return Err(lines.next_fault());
    }
    let cost = lines.number(b"cost ", 0, u64::MAX)?;
    Ok(cost)
}

/// Reads the claim.
pub(crate) fn read_claim(lines: &mut Lines<'_>) -> Result<Claim, CertFault>
    ensures { (bytes : List ℕ) (steps : Bool) (fs : List Frame) (h : Head) (blocks : List Block) (bases : List ℕ) (lists : List (List ℕ)) (cost : ℕ) → Stands bytes lines.old (Inside steps fs (Costed h blocks bases lists cost)) → MatchResult result (λ claim. Stands bytes lines.new (Inside steps fs (Claimed (frame_of h blocks bases lists cost claim)))) (Says bytes) }
{
    let fault = lines.next_fault();
    let Some(line) = lines.next() else {
        return Err(fault);
    };
    let Some(claim) = fields::read_claim(line) else {
        return Err(fault);
    };
    Ok(claim)
}

// Reads the lines of so many marks.
fn read_mark_lines(alloc: Global, lines: &mut Lines<'_>, count: u64) -> Result<Vec<Mark>, CertFault>
    ensures { (bytes : List ℕ) (steps : Bool) (fs : List Frame) (f : Frame) → Stands bytes lines.old (Inside steps fs (Marking f count)) → MatchResult result (λ marks. Stands bytes lines.new (Inside steps fs (Marking (marked f marks.items) 0))) (Says bytes) }
{
    let most = lines.rest().len() as u64;
    let mut marks = Vec::with_capacity(alloc, count.min(most) as usize)?;
    let mut left = count;
    while left > 0 {
        let fault = lines.next_fault();
        let Some(line) = lines.next() else {
            return Err(fault);
        };
        let in_line = left.min(MARKS_TO_A_LINE as u64);
        let full = line.len() as u64 == in_line;
        if !full {
            return Err(fault);
        }
        let all = push_marks(&mut marks, line)?;
        if !all {
            return Err(fault);
        }
        left -= in_line;
    }
    Ok(marks)
}

/// Reads the marks of the frame of this number, and the last line of it.
pub(crate) fn read_marks(alloc: Global, lines: &mut Lines<'_>, frame: u64) -> Result<Log, CertFault>
    ensures { (bytes : List ℕ) (steps : Bool) (fs : List Frame) (f : Frame) → length fs ≡ frame → Stands bytes lines.old (Inside steps fs (Claimed f)) → MatchResult result (λ log. Stands bytes lines.new (Inside steps (fs ++ marked f log ∷ []) Between)) (Says bytes) }
{
    let count = lines.number(b"marks ", 0, u64::MAX)?;
    if is_short(lines.rest(), count) {
        return Err(CertFault::Short { frame });
    }
    let marks = read_mark_lines(alloc, lines, count)?;
    lines.expect(b"endframe")?;
    Ok(Log { marks })
}
