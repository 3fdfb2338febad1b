//! Tests of `path_checker` that use only its public calls. They have their own crate, since a crate that holds its
//! tests is proved twice.
#![tactic(auto)]

#[cfg(test)]
mod tests;
