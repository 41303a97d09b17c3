//! `gen N`.
ghost use Rattle.std.specs.Prelude.{◌≢◌, ◌≤◌, length, [], IfOk, IfErr};
ghost use Rattle.cc_files.specs.cc_compile.Compiles.{IsBuilt};
ghost use Rattle.cc_files.specs.cc_compile.Made.{IsMade};
ghost use Rattle.cc_gen.specs.Generated.{generated};
ghost use Rattle.cc_words.specs.Asked.{ToGenerate};
ghost use Rattle.cc_words.specs.Bounds.{IsWithinBounds};
ghost use Rattle.cc_files.specs.cc_text.Refusals.{why_of, OfMemory};
ghost use Rattle.cc_answers.specs.Answers.{answered};
ghost use Rattle.cc_driver.specs.Build as build;
ghost use Rattle.cc_driver.specs.Gen.{Summarizes, GeneratesTo, GenerateRefused};

use crate::build::plain_options;
use crate::run::run_from_zeros;
use c25_isa::Image;
use cc_answers::{Answer, gen_answer};
use cc_files::{Built, Refusal, compile};
use cc_gen::generate;
use cc_words::Gen;
use std::alloc::Global;
use std::thread::Threads;
use word_base::{NoMemory, OpenGate, Ports};

/// The greatest number of steps that the run of a generated program may have.
const STEPS: u64 = 10_000_000;

// What the program that is made from a number is compiled to.
fn built<'a, R: Threads + Sync>(rt: &R, alloc: Global, number: u32) -> Result<Built, Refusal<'a>>
    requires { IsWithinBounds (ToGenerate number) }
    ensures built { IfOk result (λ built. IsBuilt build.plain_options (generated number) built.image built.certificate) }
    ensures made { IfOk result (λ built. IsMade build.plain_options (generated number) built.image built.certificate) }
    // A refusal has its cause, unless memory is wanting.
    ensures refused { IfErr result (λ r. why_of r ≢ OfMemory → GenerateRefused number (why_of r)) }
{
    let source = generate(alloc, number)?;
    Ok(compile(rt, alloc, &OpenGate, &source, plain_options())?)
}

// Runs the image of a generated program from zeros on no input for so many steps, and sums that up.
fn summary(alloc: Global, number: u32, image: &Image, steps: u64) -> Result<Answer, NoMemory>
    ensures { IfOk result (λ a. Summarizes steps number image.now (answered a)) }
{
    let ports = Ports::new(Vec::new(alloc));
    let outcome = run_from_zeros(alloc, image, ports, steps)?;
    gen_answer(alloc, number, image.functions().len(), &outcome, steps)
}

/// Makes a program from a number, compiles it, and runs it from zeros on no input.
pub(crate) fn answer<'a, R: Threads + Sync>(
    rt: &R,
    alloc: Global,
    asked: &Gen,
) -> Result<Answer, Refusal<'a>>
    requires { IsWithinBounds (ToGenerate asked.now.number) }
    ensures done { IfOk result (λ a. GeneratesTo asked.now.number (answered a)) }
    // A refusal has its cause, unless memory is wanting.
    ensures refused { IfErr result (λ r. why_of r ≢ OfMemory → GenerateRefused asked.now.number (why_of r)) }
{
    let built = built(rt, alloc, asked.number)?;
    Ok(summary(alloc, asked.number, &built.image, STEPS)?)
}
