//! Updates: the procedure that is run, the bank that the envelope is written to, and the record that is committed.
#![tactic(auto)]

mod accepting;
mod bank;
mod bank_reading;
mod choosing;
mod finishing;
mod flash_update;
mod in_use;
mod installing;
mod judged;
mod law;
mod offer;
mod program;
mod starting;
mod update_end;

pub use bank::write_bank;
pub use choosing::{choice_laws, choose};
pub use flash_update::update;
pub use installing::install;
pub use judged::Update;
pub use law::moment_laws;
pub use offer::Offer;
pub use update_end::UpdateEnd;
