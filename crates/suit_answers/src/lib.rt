//! The answers of calls from C, as numbers.
#![tactic(auto)]

mod answer;

pub use answer::Answer;
