//! Where the data of a program of word trees lies in data memory.
//!
//! `plan` says where. The folder `specs` defines it, and `plans_keep_apart` says that what is used at once lies apart.
#![tactic(auto)]

mod begins;
mod body;
mod data_plan;
mod laws;
mod layout;
mod needs;
mod planning;

pub use data_plan::{
    DATA_START, DataPlan, FramePlan, MOST_DATA_WORDS, MOST_LISTS, PlanFault, SCRATCH_WORDS,
};
pub use laws::plans_keep_apart;
pub use lay_model::{Arrangement, ScalarList};
pub use planning::plan;
pub use tree_code::{TreeFunction, TreeProgram};
