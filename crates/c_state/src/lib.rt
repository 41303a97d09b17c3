//! What is known at a point of a run of a typed program, and what operators do on it: ISO 9899:1990 6.1.2.4, 6.3.3.3 and 6.3.5 to 6.3.12.
//!
//! Values and the objects that hold them, what names stand for, the input that is left, and the outputs so far. No expression or
//! statement is known here.
#![tactic(auto)]

mod cells;
mod inputs;
mod names;
mod operators;
mod state;
mod store;
mod value;

pub use cells::Cells;
pub use inputs::Inputs;
pub use names::Names;
pub use operators::Operand;
pub use state::State;
pub use store::Store;
pub use value::{Name, Spot, Stop, Value, undefined};
