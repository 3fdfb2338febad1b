//! Given what it needs, a command is done: laws of `run update`, `run boot` and `run migrate`.
#![tactic(auto)]

mod law;

pub use law::completeness_laws;
