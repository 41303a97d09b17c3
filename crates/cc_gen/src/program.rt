//! The text of a program.
ghost use Rattle.std.specs.Prelude.{◌≡◌, ◌≤◌, ◌++◌, IfOk, OnOk};
ghost use Rattle.cc_gen.specs.Generated.{factor, function_line, call_line, lines_below, generated};

use lay_text::push_decimal;
use std::alloc::Global;
use word_base::NoMemory;

// The constant in a function.
fn factor(index: u32) -> u32
    requires { index ≤ 200 }
    ensures { result ≡ factor index }
{
    (7 * index + 3) % 16
}

// The line that defines a function.
fn push_function(text: &mut Vec<u8>, index: u32) -> Result<(), NoMemory>
    requires { index ≤ 200 }
    ensures { OnOk result (text.new.items ≡ text.old.items ++ function_line index) }
{
    text.extend_from_slice(b"int f")?;
    push_decimal(text, u64::from(index))?;
    text.extend_from_slice(
        b"(int a, int b) { int s; int j; s = a; for (j = 0; j < 4; j++) s = (s + b * ",
    )?;
    push_decimal(text, u64::from(factor(index)))?;
    text.extend_from_slice(b") & 1023; return s; }\n")?;
    Ok(())
}

// The lines of so many functions.
#[tactic(auto, using(crate::proofs::Lines::lines_more))]
fn push_functions(text: &mut Vec<u8>, number: u32) -> Result<(), NoMemory>
    requires { number ≤ 200 }
    ensures { OnOk result (text.new.items ≡ text.old.items ++ lines_below function_line number) }
{
    for index in 0..number {
        push_function(text, index)?;
    }
    Ok(())
}

// The line that calls a function.
fn push_call(text: &mut Vec<u8>, index: u32) -> Result<(), NoMemory>
    requires { index ≤ 200 }
    ensures { OnOk result (text.new.items ≡ text.old.items ++ call_line index) }
{
    text.extend_from_slice(b"x = f")?;
    push_decimal(text, u64::from(index))?;
    text.extend_from_slice(b"(x, ")?;
    push_decimal(text, u64::from(index + 1))?;
    text.extend_from_slice(b"); __out(1, x);\n")?;
    Ok(())
}

// The lines of so many calls.
#[tactic(auto, using(crate::proofs::Lines::lines_more))]
fn push_calls(text: &mut Vec<u8>, number: u32) -> Result<(), NoMemory>
    requires { number ≤ 200 }
    ensures { OnOk result (text.new.items ≡ text.old.items ++ lines_below call_line number) }
{
    for index in 0..number {
        push_call(text, index)?;
    }
    Ok(())
}

/// A C program of so many functions, from 1 to 200, and a `main` that calls each once and puts what it gives to port 1. Only
/// the want of memory is refused.
pub fn generate(alloc: Global, number: u32) -> Result<Vec<u8>, NoMemory>
    requires some { 1 ≤ number }
    requires few { number ≤ 200 }
    ensures { IfOk result (λ text. text.items ≡ generated number) }
{
    let mut text = Vec::new(alloc);
    push_functions(&mut text, number)?;
    text.extend_from_slice(b"int main(void) { int x; x = 1;\n")?;
    push_calls(&mut text, number)?;
    text.extend_from_slice(b"return x; }\n")?;
    Ok(text)
}
