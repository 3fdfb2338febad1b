//! Manifests (draft-ietf-suit-manifest-25, section 8.4): how they are read and written, their
//! severable members, and their two procedures.
#![tactic(auto)]

mod common;
mod components;
mod decode;
mod encode;
mod encode_components;
mod later;
mod law;
mod manifest;
mod manifest_map;
mod members;
mod members_law;
mod pair_counts;
mod pairs;
mod pieces;
mod plans;
mod procedure_law;
mod rows;
mod severable;
mod values;

pub use common::{CommonValues, common_values};
pub use components::MAX_COMPONENTS;
pub use decode::decode_manifest;
pub use encode::encode_manifest;
pub use law::manifest_laws;
pub use manifest::{Manifest, Member, Members, TextMember};
pub use manifest_map::{LaterValues, ManifestValues, manifest_values};
pub use members::{MemberFault, members_of};
pub use members_law::members_laws;
pub use pairs::needed;
pub use plans::{invocation_plan, update_plan};
pub use procedure_law::procedure_laws;
pub use values::{read_number, read_text, read_version};
