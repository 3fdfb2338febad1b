//! Tests of notations.

mod large;
mod refused;
mod rows;
