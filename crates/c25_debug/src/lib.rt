//! The debugger: follows a script of breakpoints, steps and looks over the machine.
#![tactic(auto)]

mod breakpoints;
mod command;
mod debugger;
mod fault;
mod lines;
mod script;

pub use command::Command;
pub use debugger::session;
pub use fault::ScriptFault;
pub use script::read_script;
