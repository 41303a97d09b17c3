//! The search for an arrangement that costs least: a starting layout, and a tree of which each part is gone through or ruled out by a
//! bound. It knows neither the language nor the machine.
#![tactic(auto)]

mod closing;
mod descent;
mod opening;
mod pieces;
mod root;
mod rounds;

pub use closing::close_search;
pub use lay_greedy::greedy;
pub use lay_tree::{Answer, Log, Mark, PieceEnd};
pub use opening::{Opening, open_search};
pub use pieces::run_piece;
pub use root::Root;
pub use rounds::{Best, round_end, search};
