//! Lists of component indices.

use det_cbor::List;

/// Component indices, in the order in which they are selected.
pub type IndexList = List<u32>;
