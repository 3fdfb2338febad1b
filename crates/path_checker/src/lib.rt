//! Checks whether each invoke of a procedure is covered on every path.
#![tactic(auto)]

mod judge_plan;

pub use judge_plan::{CheckVerdict, check};
