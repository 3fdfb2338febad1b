//! A disk over NOR flash, where a program only clears bits and an erase sets those of a whole
//! block.
#![tactic(auto)]

mod blocks;
mod calls;
mod either_disk;
mod file_nor;
mod fuse_nor;
mod law;
mod memory_nor;
mod nor;
mod nor_disk;
mod phase;
mod reading;
mod replacing;
mod settling;
mod step;
mod writing;

pub use either_disk::EitherDisk;
pub use file_nor::FileNor;
pub use fuse_nor::FuseNor;
pub use law::nor_loss_laws;
pub use memory_nor::MemoryNor;
pub use nor::Nor;
pub use nor_disk::NorDisk;
pub use phase::Phase;

/// The size of a block in bytes. A block is erased as a whole.
const BLOCK: usize = 4096;
