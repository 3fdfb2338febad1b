//! Diagnostic notation of deterministic CBOR (RFC 8949, section 8), written and read.
#![tactic(auto)]

mod fault;
mod law;
mod number;
mod piece;
mod printing;
mod quoted;
mod reading;

pub use fault::NotationFault;
pub use law::notation_laws;
pub use printing::notation;
pub use reading::read_notation;
