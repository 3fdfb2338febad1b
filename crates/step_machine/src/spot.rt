//! Where contents stand, and what the components are.

use flash_layout::Slot;
use path_model::Identity;

/// Where a component's content stands.
#[derive(Clone, Copy, Debug, PartialEq, Eq)]
pub enum Spot {
    /// In this slot of the flash.
    Flash(Slot),
    /// In working memory, under the component's index in the layout.
    Ram(u32),
}

/// A component in a procedure: its index in the manifest, its identity, how many bytes it has room for, and where its
/// content stands.
#[derive(Clone, Copy, Debug, PartialEq, Eq)]
pub struct Standing {
    pub component: u32,
    pub identity: Identity,
    pub capacity: u64,
    pub spot: Spot,
}

impl Default for Standing {
    /// A component without room and without identifiers.
    fn default() -> Standing {
        Standing {
            component: 0,
            identity: Identity {
                vendor: None,
                class: None,
                device: None,
                slot: 0,
            },
            capacity: 0,
            spot: Spot::Ram(0),
        }
    }
}
