//! Envelopes and their manifests as descriptions in JSON (RFC 8259), from which the same manifests are made again.
#![tactic(auto)]

mod commands;
mod describing;
mod held_members;
mod identifiers;
mod law;
mod members;
mod params;
mod payloads;
mod selection;
mod severing;
mod values;

pub use describing::describe;
pub use held_members::members_there;
pub use law::describe_laws;
