//! The two procedures of a manifest (draft-ietf-suit-manifest-25, sections 6.3 and 6.4), lent by the bytes of its
//! envelope.
//!
//! Nothing is copied, and nothing is allocated. Contracts see a program as the procedure that its bytes spell.
#![tactic(auto)]

mod members;
mod programs;

pub use programs::{invocation_program, update_program};
