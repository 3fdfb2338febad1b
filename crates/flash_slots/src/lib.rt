//! The contents in slots of the flash. A content is a list of bytes that is read in parts and
//! replaced as a whole.
#![tactic(auto)]

mod area;
mod law;
mod overwriting;
mod passing;
mod ram;
mod reading;
mod writing;

pub use area::TooLarge;
pub use law::ram_laws;
pub use overwriting::{overwrite, put_length};
pub use passing::{digest_some, same_content};
pub use ram::Ram;
pub use reading::{length, read, read_some};
pub use writing::{AppendFault, Writing, begin};
