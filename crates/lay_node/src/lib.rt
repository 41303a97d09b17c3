//! A node of the tree of layouts, and a walk down the tree and up again. What bounds need is kept up to date on the way, and no step
//! of a walk takes memory.
#![tactic(auto)]

mod kept;
mod level;
mod open_list;
mod position;

pub use kept::Kept;
pub use position::Position;
