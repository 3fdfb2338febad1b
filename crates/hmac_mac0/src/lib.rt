//! HMAC-SHA-256 and HMAC-SHA-512 (RFC 2104), and the COSE_Mac0 blocks that carry them (RFC 9052, section 6).
#![tactic(auto)]

mod any_mac;
mod block;
mod compare;
mod header;
mod key;
mod layout;
mod mac;
mod mac512;
mod mac_kind;
mod mac_tag;
mod make;
mod structure;
mod verdict;

pub use mac::{Mac, hmac};
pub use mac_kind::MacKind;
pub use mac_tag::MacTag;
pub use mac512::{Mac512, hmac512};
pub use make::make_block;
pub use verdict::{MacVerdict, verify};
