//! Laws of places: what the bytes of a manifest mean does not depend on where in the envelope they stand.
#![tactic(auto)]

mod law;

pub use law::{installation_laws, place_laws};
