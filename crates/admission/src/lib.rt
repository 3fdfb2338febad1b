//! Whether an envelope's bytes may be installed or started, as one typed answer.
//!
//! The judgements come in one order. A refusal tells which of them failed, and with what values; all before it were
//! met.
#![tactic(auto)]

mod admitting;
mod judging;
mod law;
mod lent_places;
mod opening;
mod refusal;
mod starting;

pub use admitting::{Admitted, admit};
pub use judging::{WIDEST, judge};
pub use law::admission_laws;
pub use opening::{LONGEST_TRIMMED, Opened, open};
pub use refusal::{NotAdmitted, NotOpened, NotSafe, NotStartable, Procedure};
pub use starting::{Start, startable};
