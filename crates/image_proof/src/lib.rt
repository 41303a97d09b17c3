//! The laws that an image does what the source does that it was translated from: translation keeps runs, sites are what the plan of data memory
//! gives, the startup calls `main` from a reset, and what the run of an image tells of the source; and what a walk finds in the words of an image:
//! the accesses of each function's scalars, as many address instructions as they cost, and no direct operand that names another place. No code: the
//! translation that the laws speak of is passed on.
#![tactic(auto)]

mod direct_laws;
mod exec_laws;
mod image_laws;
mod image_walks_laws;
mod listing_laws;
mod piece_walks_laws;
mod run_laws;
mod site_laws;
mod target_laws;
mod usable_laws;

pub use acc_select::{AccFunction, AccProgram, select};
pub use acc_select_proof::{accesses_are_kept, typed_programs_keep};
pub use c25_helper::{called_helpers, helper_pieces_fit};
pub use direct_laws::{images_are_direct, programs_are_direct};
pub use exec_laws::runs_tell;
pub use frame_emit::emit;
pub use image_laws::{images_agree, images_keep_runs};
pub use image_walks_laws::{images_walk, programs_walk};
pub use listing_laws::{images_list_frames, programs_list_frames};
pub use piece_walks_laws::{pieces_walk, runs_are_direct};
pub use run_laws::translation_keeps_runs;
pub use site_laws::{calls_stand, sites_spare_frames};
pub use target_laws::{images_lead_right, programs_lead_right};
pub use tree_code_proof::lowering_keeps_runs;
pub use usable_laws::selected_is_usable;
