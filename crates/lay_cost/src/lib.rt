//! What layouts cost: what an arrangement of scalars over address registers costs on a sequence, and how often scalars are neighbours.
#![tactic(auto)]

mod counting;
mod laws;
mod neighbours;
mod places;
mod tally;

pub use counting::{CLOSE, cost, part_cost};
pub use laws::{
    a_list_costs_its_pairs, a_step_costs_no_more, lists_add_up, others_load, placements_close_up,
    registers_are_alike, weights_are_of_pairs,
};
pub use neighbours::{WeightTable, loads, weights};
