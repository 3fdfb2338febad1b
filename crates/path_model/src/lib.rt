//! Events on the paths of a procedure, and which of its invokes are covered (draft-ietf-suit-manifest-25, section 6).
#![tactic(auto)]

mod bad_path;
mod cause;
mod cover;
mod event;
mod identity;
mod law;
mod play_law;
mod procedure;
mod resume_law;

pub use bad_path::BadPath;
pub use cause::Cause;
pub use cover::{first_uncovered, has_matched, is_covered};
pub use event::{Event, Events};
pub use identity::{Identities, Identity};
pub use law::{
    condition_laws, cover_laws, directive_laws, event_bound_laws, example_laws, following_laws,
    identity_laws, inner_sequence_laws, one_run_laws, overriding_laws, procedure_laws, safety_laws,
    selection_laws, sequence_laws,
};
pub use play_law::{device_laws, play_laws};
pub use procedure::Procedure;
pub use resume_law::{keeping_laws, recalled_safety_laws, resume_laws};
