//! Bounds that the types of a component's fields give.

ghost use Rattle.std.specs.Prelude.{◌≡◌, ◌<◌, ◌^◌, All, IfSome, length, slice_index};
ghost use Rattle.flash_layout.specs.Layouts.{AreTyped, IsTypedEntry, IsUuid};

use crate::{Entry, Key, Layout};

/// Tells the proof that a number is in the range of its type.
pub fn in_range(number: u64)
    ensures { number < 2 ^ 64 }
{
    let _ = number;
}

/// Tells the proof that an array has as many bytes as its type says.
pub fn sized<const COUNT: usize>(bytes: &[u8; COUNT])
    ensures { length bytes.now ≡ COUNT }
{
    let _ = bytes;
}

fn is_uuid(id: &Option<[u8; 16]>)
    ensures { IfSome id.now IsUuid }
{
    match id {
        Some(id) => sized(id),
        None => {}
    }
}

fn starts(starts: &[u64; 2])
    ensures long { length starts.now ≡ 2 }
    ensures first { slice_index starts.now 0 < 2 ^ 64 }
    ensures second { slice_index starts.now 1 < 2 ^ 64 }
{
    in_range(starts[0]);
    in_range(starts[1]);
}

fn entry(entry: &Entry)
    ensures { IsTypedEntry entry.now }
{
    starts(&entry.starts);
    in_range(entry.capacity);
    is_uuid(&entry.vendor);
    is_uuid(&entry.class);
    is_uuid(&entry.device);
}

fn entries(layout: &Layout)
    ensures { All IsTypedEntry layout.now }
{
    for each in layout.as_slice() {
        entry(each);
    }
}

/// Tells the proof that the fields of a layout and a key have the lengths and ranges of their
/// types.
pub(crate) fn typed(layout: &Layout, key: &Key)
    ensures { AreTyped layout.now key.now }
{
    entries(layout);
    sized(&key.bytes);
}
