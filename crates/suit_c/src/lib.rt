//! Calls for programs in C, over bytes that they pass. None of them allocates, keeps a pointer that it was passed, or
//! writes anything but its answer.
#![tactic(auto)]

mod authentic;
mod reading;
mod status;
