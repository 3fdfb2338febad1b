//! Booting, for a boot loader in C, from a flash that stands in memory, and what is in use there.
#![tactic(auto)]

mod booting;
mod image;
mod slot;

pub use image::SuitImage;
pub use slot::SuitSlot;
