//! The tests.

mod all_runs;
mod parts;
mod same_events;
mod small_plans;
