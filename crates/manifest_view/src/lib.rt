//! Manifests (draft-ietf-suit-manifest-25, section 8.4) in the bytes of an envelope. They are
//! judged once, and then their parts are borrowed.
//!
//! Nothing is copied, and nothing is allocated. Contracts see a borrowed manifest as the one that
//! its bytes spell.
#![tactic(auto)]

mod alike;
mod common;
mod components;
mod identifiers;
mod later;
mod member;
mod values;
mod view;

pub use identifiers::{LentIdentifier, LentIdentifiers};
pub use member::{MemberView, TextView};
pub use view::ManifestView;
