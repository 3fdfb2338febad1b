//! Why bytes are not a data item.

/// Why bytes are not an item of deterministic CBOR (RFC 8949, sections 3 and 4.2.1).
#[derive(Clone, Copy, Debug, PartialEq, Eq)]
pub enum Reason {
    /// The input ends inside a head or a string, or where another item is due.
    Truncated,
    /// The length is indefinite: the lower five bits of a head are 31.
    Indefinite,
    /// The head is reserved, or a simple value other than false, true and null.
    Kind,
    /// A shorter head spells the same value.
    NotShortest,
    /// An array, a map or a tag would be the 17th level.
    TooDeep,
    /// The bytes of a text are not UTF-8.
    BadText,
    /// A key equals the key before it.
    Repeated,
    /// A key sorts below the key before it, in the bytewise order of their spellings.
    Order,
}

/// Why bytes were refused, and the place of the fault in bytes.
#[derive(Clone, Copy, Debug, PartialEq, Eq)]
pub struct CborRefusal {
    pub place: u64,
    pub reason: Reason,
}

/// Why bytes were not decoded. The place is in bytes from the first one.
#[derive(Clone, Copy, Debug, PartialEq, Eq)]
pub enum CborFault {
    Refused { place: u64, reason: Reason },
    NoMemory,
}

/// Why a reader stopped, and how many bytes are left from the fault on.
#[derive(Clone, Copy, Debug, PartialEq, Eq)]
pub(crate) struct Stop {
    pub(crate) left: usize,
    pub(crate) reason: Reason,
}
