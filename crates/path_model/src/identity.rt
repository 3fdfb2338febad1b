//! The identity of a component in a procedure.

use det_cbor::List;

/// What the identity conditions compare with: the component's identifiers, as far as it has any, and the number of the
/// slot that it stands for.
#[derive(Clone, Copy, Debug, PartialEq, Eq)]
pub struct Identity {
    pub vendor: Option<[u8; 16]>,
    pub class: Option<[u8; 16]>,
    pub device: Option<[u8; 16]>,
    pub slot: u64,
}

/// Identities, one for each component.
pub type Identities = List<Identity>;
