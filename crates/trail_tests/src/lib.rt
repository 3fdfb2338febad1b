//! A trail in memory that meets `Trail` and tells its list. It shows that the trait's contract can be met.
#![tactic(auto)]

mod memory_trail;

pub use memory_trail::{MOST_OUTCOMES, MemoryTrail};
