//! A second update, or a migration, that is cut off, or of which a call fails, at each call in turn; then a boot, and the same
//! again.

pub(crate) mod after;
mod faults;
mod losses;
pub(crate) mod recorded;
