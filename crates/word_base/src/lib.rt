//! What every other crate stands on: words and the ports that they pass through, the ends of a
//! run, names and texts.
#![tactic(auto)]

mod gate;
mod items;
mod name;
mod outcome;
mod port;
mod text;
mod word;

pub use gate::{Gate, OpenGate};
pub use items::Items;
pub use name::{is_name, is_name_part, is_name_start, name_text};
pub use outcome::{Ending, Outcome, UndefinedKind};
pub use port::{Outs, PortWord, Ports};
pub use text::{NoMemory, Text};
pub use word::{div_trunc, rem_trunc, signed, wrap16, zero_ext};
