//! What commands do with files and with the output: files that are fetched or why not, files that are stored, and the line or the text that is put,
//! with its status. Which files a command wants, and what it makes of them, isn't known here.
#![tactic(auto)]

mod output;
mod shelf;

pub use cc_text::{
    Built, Options, ProfileFault, ProfileOptions, Profiled, Refusal, built_functions_differ,
    built_images_have_the_shape, compile, expand, expansions_have_spellings, join_text,
    profile_build, runs_tell, sources_within_limits_have_no_fault, token_text, typed_program,
};
pub use output::{put, refuse, say};
pub use shelf::{
    CERTIFICATE_LIMIT, Fetched, FetchedThree, IMAGE_LIMIT, PORTS_LIMIT, SCRIPT_LIMIT,
    SEQUENCE_LIMIT, SOURCE_LIMIT, TEXT_LIMIT, Want, fetch, fetch_all, fetch_both, fetch_three,
    store,
};
