//! An image to be started.

ghost use Rattle.flash_view.specs.Noting.{IsLonger, IsNoteOf, IsTooLong, items_in, noted_bytes};
ghost use Rattle.std.specs.Option.{option_copied};
ghost use Rattle.std.specs.Prelude.{◌≡◌, ◌+◌, ◌<◌, ◌≤◌, IfOk, MatchOption, OnErr, length};

use arrayvec::{ArrayVec, CapacityError};
use suit_edge::Label;

/// The longest digest that a note holds, in bytes.
pub const LONGEST_DIGEST: usize = 64;

/// The longest arguments that a note holds, in bytes.
pub const LONGEST_ARGUMENTS: usize = 256;

/// An image to be started: `length` bytes of the flash from `place` on, and what its parameters
/// name.
#[derive(Debug, Drop)]
pub struct NotedImage {
    /// The index of the component in the manifest.
    pub component: u32,
    /// Where it begins, in bytes from the start of the flash.
    pub place: u64,
    /// Its length in bytes.
    pub length: u64,
    /// The digest that the parameters name, if any.
    pub digest: Option<ArrayVec<u8, LONGEST_DIGEST>>,
    /// The size in bytes that they name, if any.
    pub size: Option<u64>,
    /// The arguments that they name, if any.
    pub args: Option<ArrayVec<u8, LONGEST_ARGUMENTS>>,
}

// Copies bytes that may be absent, if they fit.
fn copied<const N: usize>(bytes: Option<&[u8]>) -> Result<Option<ArrayVec<u8, N>>, CapacityError>
    ensures ok { IfOk result (λ copy. items_in copy ≡ option_copied bytes.entry) }
    ensures err { OnErr result (IsLonger N (option_copied bytes.entry)) }
    ensures fits { IfOk result (λ copy. IsLonger N (option_copied bytes.entry) → ⊥) }
{
    match bytes {
        Some(held) => {
            let mut copy = ArrayVec::new();
            copy.try_extend_from_slice(held)?;
            Ok(Some(copy))
        }
        None => Ok(None),
    }
}

// Notes an image in the flash, if what its label names fits.
pub(crate) fn note_of(
    label: Label<'_>,
    place: u64,
    length: u64,
) -> Result<NotedImage, CapacityError>
    ensures ok { IfOk result (IsNoteOf label.entry place length) }
    ensures fits { IfOk result (λ note. IsTooLong label.entry → ⊥) }
    ensures err { OnErr result (IsTooLong label.entry) }
{
    Ok(NotedImage {
        component: label.component,
        place,
        length,
        digest: copied(label.digest)?,
        size: label.size,
        args: copied(label.args)?,
    })
}

impl NotedImage {
    /// The bytes of the image in a flash, or `None` if they are not inside it.
    pub fn bytes_in<'a>(&self, flash: &'a [u8]) -> Option<&'a [u8]>
        ensures { MatchOption result
            (length flash.now < self.now.place + self.now.length)
            (λ bytes. (bytes.now ≡ noted_bytes flash.now self.now)
            × (self.now.place + self.now.length ≤ length flash.now)) }
    {
        let size = flash.len() as u64;
        if size < self.place || size - self.place < self.length {
            return None;
        }
        let from = self.place as usize;
        Some(&flash[from..from + self.length as usize])
    }
}
