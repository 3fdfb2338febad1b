//! Reading the fields of JSON values (RFC 8259): the first flaw is reported with its place, as a
//! JSON Pointer (RFC 6901).
#![tactic(auto)]

mod arrays;
mod flaw;
mod law;
mod objects;
mod pointer;
mod values;

pub use arrays::{Form, HexBytes, array};
pub use flaw::{Flaw, FlawKind, JsonFault};
pub use law::pointer_laws;
pub use objects::{Draft, object, required};
pub use pointer::{at_index, at_key};
pub use values::{flag, flawed, hex, number, text, uuid};
