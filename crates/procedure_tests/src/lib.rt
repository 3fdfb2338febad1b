//! Tests of drawn procedures, run over their bytes and compared with a plain player of their trees, and of swaps that
//! are cut. They have their own crate, since a crate that holds its tests is proved twice.
#![tactic(auto)]

#[cfg(test)]
mod tests;
