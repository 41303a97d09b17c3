//! What emitted code does: laws on straight code, jumps, calls and linked pieces over c25_isa's machine, and lemmas on repeats, divisions, shifts and loops that clear words.
#![tactic(auto)]

mod laws;
mod starting;

pub use laws::{
    agreement_composes, code_leads_at_modes, code_leads_within, jumps_lead, linked_pieces_stand,
    stopped_runs_stay, straight_code_leads,
};
pub use starting::startups_arrive;
