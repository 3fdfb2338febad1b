//! Comparisons of bytes, 32 at a time.
#![tactic(auto)]

mod clearing;
mod equality;
mod search;

pub use clearing::only_clears;
pub use equality::same;
pub use search::first_other;

/// How many bytes are compared at once.
const LANES: usize = 32;
