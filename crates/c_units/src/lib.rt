//! Programs of several files: their tokens in one list (docs/LANGUAGE.md, "Programs of several files").
#![tactic(auto)]

mod externs;
mod fault;
mod files;
mod joining;
mod laws;
mod names;
mod objects;
mod reserved;
mod statics;
mod tables;

pub use c_lexer::{LexFault, token_text};
pub use c_parser::ParseFault;
pub use c_rules::{LimitName, TypeFault};
pub use fault::UnitFault;
pub use joining::{join_text, join_units};
pub use laws::{
    answers_are_typed_with_any_names, externs_are_dropped_before_externals, fresh_choices_agree,
    one_outcome, reserved_names_end_in_numbers, static_names_are_fresh,
    statics_keep_to_their_files,
};
