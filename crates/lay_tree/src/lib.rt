//! What a search for a layout that costs least is to answer: a starting layout, and a tree of which each part is gone through or ruled
//! out by a bound; and the laws of that answer. No code of the search stands here. It knows neither the language nor the machine.
#![tactic(auto)]

mod answer;
mod laws;

pub use answer::{Answer, Log, Mark, PieceEnd};
pub use laws::{
    answers_arrange, answers_cost_little, bounds_hold, certified_answers_are_least,
    certified_logs_replay, exhausted_answers_are_full, logs_show_least, small_searches_end,
};
