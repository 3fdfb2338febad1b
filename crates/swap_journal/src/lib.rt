//! Exchanges two contents of a disk by copies, so that a power loss at any moment loses neither.
//! The page that records a swap is opened first, and stays open until it is closed.
#![tactic(auto)]

mod advancing;
mod completing;
mod concluding;
mod contents;
mod copying;
mod exchanging;
mod finishing;
mod law;
mod lengths;
mod progress;
mod resuming;
mod swap;

pub use advancing::advance;
pub use completing::{close, complete};
pub use contents::{Exchange, PIECE};
pub use copying::make_copy;
pub use exchanging::exchange;
pub use finishing::finish;
pub use law::copy_laws;
pub use progress::{Entry, Progress};
pub use resuming::{read_progress, resume};
pub use swap::{Journal, Swap};
