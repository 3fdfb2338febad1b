//! Damaged bytes: one byte of what is read is changed, each in turn and in three ways, and the runs are counted by their status.
//! `attacks/damaged` finds the same counts by a reader of its own, which was written from the format.

mod counts;
mod envelope;
mod flash;
