//! First values of static objects.
#![tactic(auto, using(crate::proofs::Appending::appended))]

ghost use Rattle.std.specs.Prelude.{◌≡◌, ◌++◌, ◌∷◌, [], map, None, OnOk};
ghost use Rattle.c_tree.specs.View.{object_of};
ghost use Rattle.emit_blocks.specs.Appended.{Appends};
ghost use Rattle.frame_emit.specs.Startup as spec;

use crate::code::Code;
use crate::frames::address_in;
use c_tree::{Initial, Object};
use c25_isa::{Change, Indirect, Instr, Operand};
use word_base::NoMemory;

/// Stores the accumulator's low half at AR1, and moves it to the next word.
const STORE_UP: Instr = Instr::Sacl {
    shift: 0,
    operand: Operand::Indirect(Indirect {
        change: Change::Up,
        next: None,
    }),
};

// The word that a cell starts with.
fn initial_word(statics: &[u16], initial: Initial) -> u16
    ensures { result ≡ spec.initial_word statics.now initial }
{
    match initial {
        Initial::Word(word) => word,
        Initial::Address { object, index } => address_in(statics, object).wrapping_add(index),
        Initial::Null => 0,
    }
}

// The cells up to the last one that doesn't start with 0.
#[tactic(auto, using(crate::proofs::Trimming::last_is_zero, crate::proofs::Trimming::last_is_kept))]
fn up_to_last<'a>(statics: &[u16], initials: &'a [Initial]) -> &'a [Initial]
    ensures { map (spec.initial_word statics.now) result.now ≡ spec.up_to_last (map (spec.initial_word statics.now) initials.now) }
{
    let mut rest = initials;
    while let Some((last, before)) = rest.split_last() {
        if initial_word(statics, *last) != 0 {
            return rest;
        }
        rest = before;
    }
    rest
}

fn load_of(word: u16) -> Instr
    ensures { result ≡ spec.load_of word }
{
    if word < 256 {
        Instr::Lack(word as u8)
    } else {
        Instr::Lalk { shift: 0, word }
    }
}

// A word, by what the accumulator holds, if that is known.
fn push_word(code: &mut Code, held: Option<u16>, word: u16) -> Result<(), NoMemory>
    ensures { OnOk result (Appends code.old code.new (spec.word_load held word ++ spec.store_up ∷ [])) }
{
    if held != Some(word) {
        code.push(load_of(word))?;
    }
    code.push(STORE_UP)
}

// The words of cells, one behind another.
fn push_words(code: &mut Code, statics: &[u16], initials: &[Initial]) -> Result<(), NoMemory>
    ensures { OnOk result (Appends code.old code.new (spec.words_code None (map (spec.initial_word statics.now) initials.now))) }
{
    let mut held = None;
    let mut rest = initials;
    while let Some((first, behind)) = rest.split_first() {
        let word = initial_word(statics, *first);
        push_word(code, held, word)?;
        held = Some(word);
        rest = behind;
    }
    Ok(())
}

// The words of an object at an address.
fn push_filling(
    code: &mut Code,
    statics: &[u16],
    address: u16,
    initials: &[Initial],
) -> Result<(), NoMemory>
    ensures { OnOk result (Appends code.old code.new (spec.filling_code address (spec.up_to_last (map (spec.initial_word statics.now) initials.now)))) }
{
    let filled = up_to_last(statics, initials);
    if filled.is_empty() {
        return Ok(());
    }
    code.push(Instr::Lrlk {
        register: 1,
        word: address,
    })?;
    push_words(code, statics, filled)
}

/// The first values of the static objects.
pub(crate) fn push_fillings(
    code: &mut Code,
    statics: &[u16],
    objects: &[Object],
) -> Result<(), NoMemory>
    ensures { OnOk result (Appends code.old code.new (spec.fillings_code statics.now statics.now (map object_of objects.now))) }
{
    let mut addresses = statics;
    let mut rest = objects;
    while let Some((object, behind)) = rest.split_first() {
        let Some((address, others)) = addresses.split_first() else {
            return Ok(());
        };
        push_filling(code, statics, *address, object.initial.as_slice())?;
        addresses = others;
        rest = behind;
    }
    Ok(())
}
