//! The outside world: files, output, flash and launched images, as traits, with implementations in
//! memory and over a real system.
#![tactic(auto)]

mod calls;
mod client;
mod disk;
mod edge;
mod file_disk;
mod file_host;
mod file_launcher;
mod file_table;
mod fuse_disk;
mod gate;
mod host;
mod launch;
mod launcher;
mod law;
mod memory_disk;
mod memory_host;
mod memory_launcher;
mod memory_sink;
mod page;
mod rest;
mod sink;
mod std_sink;
mod step;
mod take;

pub use client::vouch;
pub use disk::Disk;
pub use edge::Edge;
pub use file_disk::FileDisk;
pub use file_host::FileHost;
pub use file_launcher::FileLauncher;
pub use fuse_disk::FuseDisk;
pub use gate::{Gate, gate_of};
pub use host::{Host, Pulled, Started};
pub use launch::{Launch, Launches};
pub use launcher::{Image, Label, Launched, Launcher};
pub use law::{disk_laws, fault_laws, host_laws, launch_laws, loss_laws, sink_laws};
pub use memory_disk::MemoryDisk;
pub use memory_host::MemoryHost;
pub use memory_launcher::MemoryLauncher;
pub use memory_sink::MemorySink;
pub use page::{CLOSED, OPEN, close_gate, open_written, write_and_sync, write_gated, write_known};
pub use sink::Sink;
pub use std_sink::StdSink;
pub use take::{Taken, take_all};
