//! Identifiers of components.

use det_cbor::{Bytes, List};

/// A component identifier (draft-ietf-suit-manifest-25, section 8.4.5): a list of byte strings.
pub type Identifier = List<Bytes>;

/// The identifiers of a manifest's components, by index.
pub type Identifiers = List<Identifier>;
