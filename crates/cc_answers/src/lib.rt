//! What commands answer: the text and the status of what runs and sources come to, of layouts and of generated programs (docs/COMMANDS.md).
#![tactic(auto)]

mod answer;
mod gen_text;
mod layout_text;
mod means_text;
mod run_text;

pub use answer::Answer;
pub use gen_text::gen_answer;
pub use layout_text::layout_answer;
pub use means_text::means_answer;
pub use run_text::run_answer;
