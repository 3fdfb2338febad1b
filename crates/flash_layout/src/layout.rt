//! Layouts: which components a device has, and where.

use det_cbor::List;
use suit_params::{Identified, Identifier};

/// Where a component's content is kept.
#[derive(Clone, Copy, Debug, PartialEq, Eq)]
pub enum Memory {
    /// In slots of the flash.
    Flash,
    /// In working memory.
    Ram,
}

/// A component of the device.
#[derive(Debug, Drop)]
pub struct Entry {
    /// The identifier, spelled in at most 64 bytes.
    pub identifier: Identifier,
    pub memory: Memory,
    /// One or two slots in flash; one in working memory.
    pub slots: u8,
    /// Where in the flash the slots start: at byte 49,152 or later, or 0 where there is none.
    pub starts: [u64; 2],
    /// How many bytes a slot holds; at least 1.
    pub capacity: u64,
    /// The vendor's UUID, if the component has its own.
    pub vendor: Option<[u8; 16]>,
    /// The UUID of the class, if the component has its own.
    pub class: Option<[u8; 16]>,
    /// The UUID of the device, if the component has its own.
    pub device: Option<[u8; 16]>,
}

impl Identified for Entry {
    ghost use Rattle.flash_layout.specs.Overlaps.{identifier_of};

    ghost id = { identifier_of };

    fn identifier(&self) -> &Identifier {
        &self.identifier
    }
}

/// The components of a device, by index.
pub type Layout = List<Entry>;
