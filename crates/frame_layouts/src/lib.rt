//! The frames of a program's functions: how their scalars are laid out, the certificate of it, and what a report tells.
#![tactic(auto)]

mod certificate;
mod laws;
mod layouts;
mod options;
mod rows;

pub use certificate::certificate_of;
pub use laws::{claims_hold, frames_are_arranged, layouts_are_arranged};
pub use lay_cert::{CertFault, Certificate};
pub use lay_par::Job;
pub use layouts::{Finding, Layouts, jobs_of, lay_out};
pub use mem_plan::{DataPlan, PlanFault, plan};
pub use options::Options;
pub use rows::report_rows;
