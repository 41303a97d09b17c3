//! Macros and sections: from the bytes of a C source with `#` lines to the tokens that it expands to (ISO 9899:1990 6.8,
//! for macros without parameters and for `#ifdef` and `#ifndef`).
//!
//! The tokens are those of `Expands`, a definition of this crate: the lines of the source one after another, each with
//! the macros and open sections that the lines before it leave. A refusal names the first fault in the source.
#![tactic(auto)]

mod directives;
mod expander;
mod expansion;
mod fault;
mod kinds;
mod laws;
mod lines;
mod macros;
mod output;
mod reader;
mod replacer;
mod sections;
mod verb;

pub use expansion::expand;
pub use fault::{MacroFault, MacroLimit};
pub use laws::{expansions_have_spellings, one_outcome, plain_source_expands};
