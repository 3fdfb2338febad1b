//! SUIT envelopes (draft-ietf-suit-manifest-25, section 8.2): their grammar and their parts.
#![tactic(auto)]

mod authenticity;
mod decode;
mod encode;
mod envelope;
mod key;
mod law;
mod listing;
mod macs;
mod map;
mod pairs;
mod parts;
mod payload_bytes;
mod payload_list;
mod payload_order;
mod payloads;
mod severed;
mod string_hash;
mod trimming;
mod walk;
mod wrapper;
mod wrapper_parts;
mod writing;

pub use authenticity::{Authenticity, authentic};
pub use decode::decode_envelope;
pub use encode::encode_envelope;
pub use envelope::Envelope;
pub use law::{authenticity_laws, envelope_laws, payload_order_laws};
pub use listing::{KeyedPayload, all_payloads};
pub use parts::EnvelopeParts;
pub use payload_bytes::PayloadBytes;
pub use payload_list::PayloadList;
pub use payloads::payload;
pub use severed::{MemberBytes, MemberName, member};
pub use string_hash::{string_digest, string_like};
pub use trimming::{trim, trimmed_length};
pub use walk::BlockWalk;
pub use wrapper_parts::{block, blocks, stated_digest};
