//! The image to be started.

ghost use Rattle.boot_c.specs.Images.{ImageLiesIn, IsLaunched, IsNoted};
ghost use Rattle.flash_view.specs.Noting.{noted_bytes, noted_launch};
ghost use Rattle.std.specs.Prelude.{◌≡◌, ◌+◌, ◌≤◌, IfSome, IsTrue, length};

use flash_view::NotedImage;
use lane_bytes::same;

/// The image to be started: so many bytes of the flash from a place on.
#[repr(C)]
#[derive(Clone, Copy)]
pub struct SuitImage {
    /// Where it begins, in bytes from the start of the flash.
    pub place: u64,
    /// How many bytes it has.
    pub length: u64,
    /// The index of its component in the manifest.
    pub component: u32,
    /// 1 where there is an image to be started, and otherwise 0.
    pub found: u32,
    /// How many bytes the digest has: 32, 48 or 64.
    pub digest_length: u32,
    /// The digest that the manifest names for it, with zeros behind it.
    pub digest: [u8; 64],
}

impl SuitImage {
    /// No image.
    pub(crate) fn none() -> SuitImage
        ensures { result.found ≡ 0 }
    {
        SuitImage {
            place: 0,
            length: 0,
            component: 0,
            found: 0,
            digest_length: 0,
            digest: [0; 64],
        }
    }
}

// The note for a caller in C, unless it names no digest or one of more than 64 bytes.
fn image_of(note: &NotedImage) -> Option<SuitImage>
    ensures noted { IfSome result (IsNoted note.now) }
    ensures found { IfSome result (λ image. image.found ≡ 1) }
{
    let noted = note.digest.as_ref()?.as_slice();
    if noted.len() > 64 {
        return None;
    }
    let mut digest = [0; 64];
    digest[..noted.len()].copy_from_slice(noted);
    Some(SuitImage {
        place: note.place,
        length: note.length,
        component: note.component,
        found: 1,
        digest_length: noted.len() as u32,
        digest,
    })
}

// Whether the noted bytes lie in the flash and are the same in both.
fn is_same(note: &NotedImage, seen: &[u8], flash: &[u8]) -> bool
    ensures same { IsTrue result → noted_bytes seen.now note.now ≡ noted_bytes flash.now note.now }
    ensures within { IsTrue result → note.now.place + note.now.length ≤ length flash.now }
{
    match (note.bytes_in(seen), note.bytes_in(flash)) {
        (Some(one), Some(other)) => same(one, other),
        _ => false,
    }
}

/// The noted image, if the flash has the bytes that the launcher saw. None if the note names no digest, or one of more
/// than 64 bytes.
pub(crate) fn image_in(note: &NotedImage, seen: &[u8], flash: &[u8]) -> Option<SuitImage>
    ensures found { IfSome result (λ image. image.found ≡ 1) }
    ensures launched { IfSome result (λ image.
        IsLaunched flash.now image (noted_launch seen.now note.now)) }
    ensures within { IfSome result (ImageLiesIn flash.now) }
{
    if !is_same(note, seen, flash) {
        return None;
    }
    image_of(note)
}
