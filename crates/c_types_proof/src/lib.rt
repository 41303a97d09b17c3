//! The laws of what typed programs are, besides being well formed: each object of a function is declared in one place, and each initialised array
//! is filled once, where it is declared; and all that it says is of words. It has no code of its own.
#![tactic(auto)]

mod laws;

pub use laws::{
    objects_are_used_where_declared, sources_have_values, sources_say_words,
    typed_programs_are_of_words, typed_programs_are_placed, typed_programs_are_whole,
};
