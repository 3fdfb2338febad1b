//! Deterministic CBOR (RFC 8949, section 4.2.1), and the small lists that its users share.
#![tactic(auto)]

mod bytes;
mod compare;
mod cursor;
mod decoding;
mod duplicate;
mod encoding;
mod head;
mod head_writing;
mod item;
mod item_head;
mod items;
mod law;
mod list;
mod pairs;
mod parts;
mod pieces;
mod read_fault;
mod reason;
mod short_head;
mod skip;
mod text;
mod validity;

pub use bytes::Bytes;
pub use cursor::Cursor;
pub use decoding::decode;
pub use duplicate::Duplicate;
pub use encoding::{encode, push_item};
pub use head::{Head, HeadKind};
pub use head_writing::push_head;
pub use item::{Inner, Item};
pub use items::Items;
pub use law::{reading_laws, splitting_laws};
pub use list::{List, Names};
pub use pairs::Pairs;
pub use parts::as_text;
pub use pieces::{
    push_count, push_flag, push_kind, push_null, push_number, push_string, push_text,
};
pub use reason::{CborFault, CborRefusal, Reason};
pub use short_head::ShortHead;
pub use text::Text;
pub use validity::valid;
