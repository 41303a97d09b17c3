//! Access sequences and arrangements of scalars over address registers. It knows neither the language nor the machine.
#![tactic(auto)]

mod arrangement;
mod blocks;
mod scalar_list;
mod sequence;

pub use arrangement::Arrangement;
pub use blocks::Blocks;
pub use scalar_list::ScalarList;
pub use sequence::{Block, MOST_SCALARS, MOST_STEP, Sequence};
