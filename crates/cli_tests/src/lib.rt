//! Tests of the program: sessions of commands through `run`, on objects in memory and on the real ones; and tests of the draws
//! of `conformance`. They are a crate of their own, since a crate with tests is proved twice.
#![tactic(auto)]

#[cfg(test)]
mod bytes;
#[cfg(test)]
mod fails;
#[cfg(test)]
mod faults;
#[cfg(test)]
mod files;
#[cfg(test)]
mod laws;
#[cfg(test)]
mod session;
#[cfg(test)]
mod steps;
#[cfg(test)]
mod tests;
