//! Why a command is refused, with the line and the status of each refusal (docs/COMMANDS.md).
#![tactic(auto)]

mod macro_text;
mod refusal;
mod refusal_text;
mod source_text;
mod unit_text;

pub use c_macro::{expand, expansions_have_spellings};
pub use c_units::{join_text, token_text};
pub use lay_profile::{
    Built, Options, ProfileFault, ProfileOptions, Profiled, built_functions_differ,
    built_images_have_the_shape, compile, profile_build, runs_tell,
    sources_within_limits_have_no_fault, typed_program,
};
pub use macro_text::macro_line;
pub use refusal::{FileFault, Refusal};
pub use refusal_text::file_line;
pub use source_text::source_line;
pub use unit_text::unit_line;
