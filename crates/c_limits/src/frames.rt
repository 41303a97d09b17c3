//! What the objects of a function stand for: frame scalars, and objects in memory.
ghost use Rattle.std.specs.Prelude.{◌≡◌, ◌<◌, ◌≤◌, ◌+◌, ◌||◌, ◌∷◌, [], Bool, true, false, ℕ, List, map, length, slice_index_or, IfOk, OnOk};
ghost use Rattle.c_limits.specs.Frames.{Marks, numbered_by, scalars_by, scalars_with, still, IsFrame};
ghost use Rattle.c_rules.specs.Counted.{most_counted};
ghost use Rattle.c_rules.specs.Programs.{in_frame};
ghost use Rattle.c_rules.specs.Programs.{is_address, references};
ghost use Rattle.c_rules.specs.Statements.{LocalTree};
ghost use Rattle.c_rules.specs.LocalView.{local_tree_of};

use c_rules::{Local, ObjectType};
use c_tree::{MOST_FRAME_SCALARS, Use, VarRef};
use std::alloc::Global;
use word_base::NoMemory;

/// The largest number of scalars in a frame.
const MOST_SCALARS: u32 = MOST_FRAME_SCALARS as u32;

/// What each object of a function stands for.
#[derive(Drop)]
pub(crate) enum Frame {
    Known(Vec<VarRef>),
    /// The function has so many frame scalars, which are too many.
    TooMany(u32),
}

/// What the objects of a function stand for, in order of declaration.
pub(crate) fn frame_of(alloc: Global, uses: &[Use], locals: &[Local]) -> Result<Frame, NoMemory>
    requires few { length locals.now ≤ most_counted }
    ensures { IfOk result (IsFrame (references uses.now (map local_tree_of locals.now))) }
{
    let pointed = pointed_by(alloc, uses, locals.len())?;
    let scalars = count_scalars(&pointed, locals);
    if scalars > MOST_SCALARS {
        return Ok(Frame::TooMany(scalars));
    }
    let references = references(alloc, &pointed, locals)?;
    Ok(Frame::Known(references))
}

// Which of so many objects have their addresses taken.
fn pointed_by(alloc: Global, uses: &[Use], count: usize) -> Result<Vec<bool>, NoMemory>
    ensures { IfOk result (λ marks. Marks uses.now count marks.items) }
{
    let mut marks = vec![in alloc; false; count]?;
    for found in uses {
        mark(&mut marks, *found);
    }
    Ok(marks)
}

fn mark(marks: &mut [bool], found: Use)
    ensures { (n : ℕ) → n < length marks.old → slice_index_or marks.new n false ≡ (slice_index_or marks.old n false || is_address found n) }
{
    if let Use::Address(VarRef::Local(number)) = found {
        let number = number as usize;
        if number < marks.len() {
            marks[number] = true;
        }
    }
}

fn is_in_frame(local: &Local, pointed: bool) -> bool
    ensures { result ≡ in_frame (local_tree_of local.now) pointed }
{
    match local.object_type {
        ObjectType::Single(_) => !pointed,
        ObjectType::Array { .. } => false,
    }
}

fn count_scalars(pointed: &[bool], locals: &[Local]) -> u32
    requires marked { length pointed.now ≡ length locals.now }
    requires few { length locals.now ≤ most_counted }
    ensures { result ≡ scalars_by pointed.now (map local_tree_of locals.now) }
{
    let mut count = 0;
    for (n, local) in locals.iter().enumerate() {
        if is_in_frame(local, pointed[n]) {
            count += 1;
        }
    }
    count
}

fn references(alloc: Global, pointed: &[bool], locals: &[Local]) -> Result<Vec<VarRef>, NoMemory>
    requires marked { length pointed.now ≡ length locals.now }
    requires few { length locals.now ≤ most_counted }
    requires scalars { scalars_by pointed.now (map local_tree_of locals.now) ≤ MOST_FRAME_SCALARS }
    ensures { IfOk result (λ references. references.items ≡ numbered_by pointed.now 0 0 (map local_tree_of locals.now)) }
{
    let mut numbering = Numbering {
        references: Vec::new(alloc),
        scalars: 0,
        objects: 0,
    };
    for (n, local) in locals.iter().enumerate() {
        numbering.add(local, pointed[n])?;
    }
    Ok(numbering.references)
}

/// Objects with their numbers, each among its own kind.
#[derive(Drop)]
pub(crate) struct Numbering {
    references: Vec<VarRef>,
    scalars: u8,
    objects: u32,
}

impl Numbering {
    fn add(&mut self, local: &Local, pointed: bool) -> Result<(), NoMemory>
        requires scalars { scalars_with self.old (pointed ∷ []) (local_tree_of local.now ∷ []) ≤ MOST_FRAME_SCALARS }
        requires objects { self.old.objects < most_counted }
        ensures numbered { IfOk result (λ _. (marks : List Bool) (ls : List LocalTree) → still self.new marks ls ≡ still self.old (pointed ∷ marks) (local_tree_of local.now ∷ ls)) }
        ensures scalars { IfOk result (λ _. (marks : List Bool) (ls : List LocalTree) → scalars_with self.new marks ls ≡ scalars_with self.old (pointed ∷ marks) (local_tree_of local.now ∷ ls)) }
        ensures objects { OnOk result (self.new.objects ≤ self.old.objects + 1) }
    {
        if is_in_frame(local, pointed) {
            self.references.push(VarRef::Scalar(self.scalars))?;
            self.scalars += 1;
        } else {
            self.references.push(VarRef::Local(self.objects))?;
            self.objects += 1;
        }
        Ok(())
    }
}
