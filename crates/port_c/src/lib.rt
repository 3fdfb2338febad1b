//! The program for callers in C, which runs a command over an outside behind a port.
#![tactic(auto)]

mod command;
mod words;
