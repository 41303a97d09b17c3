//! What the words of a command line ask for. A command has a module, with what it asks for.
#![tactic(auto)]

mod asked;
mod asm;
mod build;
mod check;
mod debug;
mod dis;
mod exec;
mod generated;
mod join;
mod layout;
mod means;
mod name;
mod options;
mod pbuild;
mod pre;
mod run;

pub use asked::{Request, requested};
pub use asm::Asm;
pub use build::Build;
pub use check::Check;
pub use debug::Debug;
pub use dis::Dis;
pub use exec::Exec;
pub use generated::Gen;
pub use join::Join;
pub use layout::Layout;
pub use means::Means;
pub use pbuild::Pbuild;
pub use pre::Pre;
pub use run::Run;
