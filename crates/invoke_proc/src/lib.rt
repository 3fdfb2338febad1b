//! Booting: the invocation procedure of the installed manifest.
#![tactic(auto)]

mod bank;
mod boot_end;
mod booting;
mod buffer;
mod components;
mod key;
mod law;
mod running;
mod writing;

pub use boot_end::{BootEnd, Lacking};
pub use booting::boot;
pub use buffer::BootBuffer;
pub use key::key_bytes;
pub use law::boot_laws;
