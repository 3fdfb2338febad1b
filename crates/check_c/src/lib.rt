//! The checker for programs in C, which pass the bytes of an envelope.
#![tactic(auto)]

mod checking;
mod trimming;
