//! The outside world behind a port: each call sends a message to the port, and reads the answer
//! from it.
#![tactic(auto)]

mod counting;
mod disk;
mod head;
mod host;
mod launcher;
mod line;
mod message;
mod sink;

pub use disk::PortDisk;
pub use host::PortHost;
pub use launcher::PortLauncher;
pub use sink::PortSink;
