//! What a typed program does: its outputs, and how it ends, goes on, or comes to what C doesn't define.
#![tactic(auto)]

mod blocks;
mod expressions;
mod frame;
mod labels;
mod run;
mod statements;

pub use run::evaluate;
