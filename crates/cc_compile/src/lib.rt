//! The compiler: the phases from a source's bytes to a typed program, and from that to its image and its certificate, each in a row; and why a source
//! isn't compiled, with what each reason says of its bytes. It reads and writes no file.
#![tactic(auto)]

mod built_laws;
mod cc_fault_laws;
mod fault;
mod front;
mod image_laws;
mod laws;
mod limit_laws;
mod phases;
mod translation;
mod translation_fault;

pub use built_laws::built_functions_differ;
pub use c_lexer::LexFault;
pub use c_parser::ParseFault;
pub use c_rules::TypeFault;
pub use c25_link::LinkFault;
pub use cc_fault_laws::one_source_fault;
pub use fault::BuildFault;
pub use frame_layouts::{CertFault, Certificate, Job, Options, PlanFault};
pub use front::typed_program;
pub use image_laws::{code_is_bounded, one_image};
pub use image_proof::{accesses_are_kept, runs_tell};
pub use laws::full_code_is_large;
pub use limit_laws::sources_within_limits_have_no_fault;
pub use phases::{Built, compile};
pub use size_proof::programs_weigh_by_nodes;
pub use translation::{Selection, Translated, functions, select, translate, translate_by_jobs};
pub use translation_fault::TranslationFault;
