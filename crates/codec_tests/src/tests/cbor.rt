//! Tests of items.

pub(crate) mod reading;
mod writing;
