//! What is wanted of a whole source behind the rules of its nodes: ISO 9899:1990 6.7 and the limits of docs/LANGUAGE.md, "Types".
ghost use Rattle.std.specs.Prelude.{◌≡◌, ◌≤◌, [], ◌∷◌, map, length, vec_items, All, IfOk, IfErr, Some, None};
ghost use Rattle.c_tree.specs.View.{stmt_of};
ghost use Rattle.c_rules.specs.declared.fault.LimitName.TheVariants as limit;
ghost use Rattle.c_rules.specs.Chains.{IsRecursion};
ghost use Rattle.c_rules.specs.Checked.{AreWhole};
ghost use Rattle.c_rules.specs.Counted.{IsCounted, AreCounted, most_counted};
ghost use Rattle.c_rules.specs.Faults.{SaysOf};
ghost use Rattle.c_rules.specs.Programs.{frame_scalars};
ghost use Rattle.c_rules.specs.Programs as programs;
ghost use Rattle.c_rules.specs.Programs.{frame, HasBodies, HasNoCycle};
ghost use Rattle.c_tree.specs.Uses.{statement_uses};
ghost use Rattle.c_limits.specs.FunctionView.{frame_lists, typed_function_of};
ghost use Rattle.c_rules.specs.Whole as wanted;
ghost use Rattle.c_rules.specs.Whole.{IsOver, passed, frame_size, first_above};

use crate::frames::{Frame, frame_of};
use crate::functions::TypedFunction;
use crate::recursion::{first_round, names_of};
use crate::temporaries::temporaries_of;
use crate::uses::uses_of;
use c_conversions::{INT, same_kind};
use c_rules::{LimitName, TypeFault};
use c_tree::{MOST_CASES, MOST_FRAME_SCALARS, MOST_FUNCTIONS, MOST_PARAMETERS, Use, VarRef};
use std::alloc::Global;
use word_base::NoMemory;

/// The greatest number of frame scalars of a function, its temporaries counted.
const MOST_SCALARS: u32 = MOST_FRAME_SCALARS as u32;

/// What the objects of each function stand for, where what is wanted of the whole source holds. The functions are those of a source
/// within its limits, so that each count has 32 bits.
pub fn frames_of(alloc: Global, functions: &[TypedFunction]) -> Result<Vec<Vec<VarRef>>, TypeFault>
    requires { AreCounted (map typed_function_of functions.now) }
    ensures whole { IfOk result (λ _. AreWhole (map typed_function_of functions.now)) }
    ensures frames { IfOk result (λ frames. frame_lists frames.items ≡ map frame (map typed_function_of functions.now)) }
    ensures refused { IfErr result (SaysOf (map typed_function_of functions.now)) }
{
    if !has_main(functions) {
        return Err(TypeFault::MissingMain { at: 0 });
    }
    let uses = all_uses(alloc, functions)?;
    if let Some(at) = missing_body(&uses) {
        return Err(TypeFault::MissingBody { at });
    }
    no_recursion(alloc, functions, &uses)?;
    few_functions(functions)?;
    few_parameters(functions)?;
    let frames = small_frames(alloc, functions, &uses)?;
    few_cases(&uses)?;
    Ok(frames)
}

fn is_main(f: &TypedFunction) -> bool
    ensures { result ≡ programs.is_main (typed_function_of f.now) }
{
    f.name.as_str() == "main" && same_kind(f.result, Some(INT)) && f.parameters == 0
}

fn has_main(functions: &[TypedFunction]) -> bool
    ensures { result ≡ programs.has_main (map typed_function_of functions.now) }
{
    for f in functions {
        if is_main(f) {
            return true;
        }
    }
    false
}

fn all_uses(alloc: Global, functions: &[TypedFunction]) -> Result<Vec<Vec<Use>>, NoMemory>
    ensures { IfOk result (λ all. map vec_items all.items ≡ map (λ f. statement_uses (stmt_of f.body.value)) functions.now) }
{
    let mut all = Vec::new(alloc);
    for f in functions {
        all.push(uses_of(alloc, &f.body)?)?;
    }
    Ok(all)
}

// The place of the first call of a function that has no body.
fn missing_body(uses: &[Vec<Use>]) -> Option<u32>
    ensures { result ≡ wanted.first_among (length uses.now) (map vec_items uses.now) }
{
    let mut first = None;
    for list in uses {
        first = earlier(first, missing_call(list, uses.len()));
    }
    first
}

// The place of the first call of a function whose number isn't below this.
fn missing_call(uses: &[Use], bodies: usize) -> Option<u32>
    ensures { result ≡ wanted.first_without bodies uses.now }
{
    let mut first = None;
    for found in uses {
        if let Use::Call { function, at } = found {
            if usize::from(*function) >= bodies {
                first = earlier(first, Some(*at));
            }
        }
    }
    first
}

fn earlier(a: Option<u32>, b: Option<u32>) -> Option<u32>
    ensures { result ≡ wanted.earlier a b }
{
    match (a, b) {
        (Some(a), Some(b)) => Some(a.min(b)),
        (None, other) => other,
        (some, None) => some,
    }
}

// No function reaches itself by calls.
fn no_recursion(
    alloc: Global,
    functions: &[TypedFunction],
    uses: &[Vec<Use>],
) -> Result<(), TypeFault>
    requires uses { map vec_items uses.now ≡ map (λ f. statement_uses (stmt_of f.body.value)) functions.now }
    requires bodies { HasBodies (map typed_function_of functions.now) }
    ensures no_cycle { IfOk result (λ _. HasNoCycle (map typed_function_of functions.now)) }
    ensures refused { IfErr result (IsRecursion (map typed_function_of functions.now)) }
{
    match first_round(alloc, uses)? {
        None => Ok(()),
        Some(round) => Err(TypeFault::Recursion {
            chain: names_of(alloc, functions, &round)?,
        }),
    }
}

fn over(which: LimitName, count: u32) -> TypeFault
    ensures { IsOver which (Some count) result }
{
    TypeFault::Limit { which, count }
}

fn counted(which: LimitName, count: usize) -> TypeFault
    requires { count ≤ most_counted }
    ensures { IsOver which (Some count) result }
{
    over(which, count as u32)
}

fn few_functions(functions: &[TypedFunction]) -> Result<(), TypeFault>
    requires { AreCounted (map typed_function_of functions.now) }
    ensures few { IfOk result (λ _. passed limit.Functions (map typed_function_of functions.now) ≡ None) }
    ensures refused { IfErr result (IsOver limit.Functions (passed limit.Functions (map typed_function_of functions.now))) }
{
    if functions.len() > MOST_FUNCTIONS {
        return Err(counted(LimitName::Functions, functions.len()));
    }
    Ok(())
}

fn few_parameters(functions: &[TypedFunction]) -> Result<(), TypeFault>
    requires { AreCounted (map typed_function_of functions.now) }
    ensures few { IfOk result (λ _. passed limit.Parameters (map typed_function_of functions.now) ≡ None) }
    ensures refused { IfErr result (IsOver limit.Parameters (passed limit.Parameters (map typed_function_of functions.now))) }
{
    for f in functions {
        if f.parameters > MOST_PARAMETERS {
            return Err(counted(LimitName::Parameters, f.parameters));
        }
    }
    Ok(())
}

fn small_frames(
    alloc: Global,
    functions: &[TypedFunction],
    uses: &[Vec<Use>],
) -> Result<Vec<Vec<VarRef>>, TypeFault>
    requires uses { map vec_items uses.now ≡ map (λ f. statement_uses (stmt_of f.body.value)) functions.now }
    requires counted { AreCounted (map typed_function_of functions.now) }
    ensures frames { IfOk result (λ frames. frame_lists frames.items ≡ map (λ f. frame (typed_function_of f)) functions.now) }
    ensures small { IfOk result (λ _. passed limit.Scalars (map typed_function_of functions.now) ≡ None) }
    ensures refused { IfErr result (IsOver limit.Scalars (passed limit.Scalars (map typed_function_of functions.now))) }
{
    let mut frames = Vec::new(alloc);
    for (n, f) in functions.iter().enumerate() {
        frames.push(small_frame(alloc, f, &uses[n])?)?;
    }
    Ok(frames)
}

fn small_frame(alloc: Global, f: &TypedFunction, uses: &[Use]) -> Result<Vec<VarRef>, TypeFault>
    requires uses { uses.now ≡ statement_uses (stmt_of f.now.body.value) }
    requires counted { IsCounted (typed_function_of f.now) }
    ensures frame { IfOk result (λ references. references.items ≡ frame (typed_function_of f.now)) }
    ensures small { IfOk result (λ _. frame_size (typed_function_of f.now) ≤ MOST_FRAME_SCALARS) }
    ensures refused { IfErr result (IsOver limit.Scalars (first_above MOST_FRAME_SCALARS (frame_size (typed_function_of f.now) ∷ []))) }
{
    let temporaries = temporaries_of(&f.body);
    match frame_of(alloc, uses, &f.locals)? {
        Frame::TooMany(scalars) => Err(over(LimitName::Scalars, scalars + temporaries)),
        Frame::Known(references) => {
            let size = scalars_among(&references) + temporaries;
            if size > MOST_SCALARS {
                return Err(over(LimitName::Scalars, size));
            }
            Ok(references)
        }
    }
}

// How many frame scalars there are among the objects of a function.
fn scalars_among(references: &[VarRef]) -> u32
    requires { frame_scalars references.now ≤ MOST_FRAME_SCALARS }
    ensures { result ≡ frame_scalars references.now }
{
    let mut count = 0;
    for reference in references {
        if let VarRef::Scalar(_) = reference {
            count += 1;
        }
    }
    count
}

fn few_cases(uses: &[Vec<Use>]) -> Result<(), TypeFault>
    requires { All (λ n. n ≤ most_counted) (wanted.all_cases (map vec_items uses.now)) }
    ensures few { IfOk result (λ _. first_above MOST_CASES (wanted.all_cases (map vec_items uses.now)) ≡ None) }
    ensures refused { IfErr result (IsOver limit.Cases (first_above MOST_CASES (wanted.all_cases (map vec_items uses.now)))) }
{
    for list in uses {
        few_cases_in(list)?;
    }
    Ok(())
}

fn few_cases_in(uses: &[Use]) -> Result<(), TypeFault>
    requires { All (λ n. n ≤ most_counted) (wanted.case_counts uses.now) }
    ensures few { IfOk result (λ _. first_above MOST_CASES (wanted.case_counts uses.now) ≡ None) }
    ensures refused { IfErr result (IsOver limit.Cases (first_above MOST_CASES (wanted.case_counts uses.now))) }
{
    for found in uses {
        if let Use::Cases(count) = found {
            if *count > MOST_CASES {
                return Err(counted(LimitName::Cases, *count));
            }
        }
    }
    Ok(())
}
