//! A flash in memory that is read in place: the disk, the host and the launcher of a boot that
//! touches nothing else and tells its caller which image to start.
#![tactic(auto)]

mod no_files;
mod noted_image;
mod standing;
mod view_disk;
mod view_launcher;

pub use no_files::NoFiles;
pub use noted_image::{LONGEST_ARGUMENTS, LONGEST_DIGEST, NotedImage};
pub use view_disk::ViewDisk;
pub use view_launcher::ViewLauncher;
