//! Whether parameters are equal.

ghost use Rattle.std.specs.Prelude.{◌≡◌, ◌↔◌, IsTrue};
ghost use Rattle.std.specs.Option.{option_copied};

use lane_bytes::same as same_bytes;
use suit_params::{Digest, Param};

/// Whether two digests are equal.
pub(crate) fn same_digest(one: &Digest, other: &Digest) -> bool
    ensures { IsTrue result ↔ (one.now ≡ other.now) }
{
    same_bytes(one.bytes(), other.bytes())
}

fn same(one: &Param, other: &Param) -> bool
    ensures { IsTrue result → one.now ≡ other.now }
{
    match (one, other) {
        (Param::Vendor(id), Param::Vendor(other)) => *id == *other,
        (Param::Class(id), Param::Class(other)) => *id == *other,
        (Param::Device(id), Param::Device(other)) => *id == *other,
        (Param::Digest(digest), Param::Digest(other)) => same_digest(digest.get(), other.get()),
        (Param::Slot(number), Param::Slot(other)) => *number == *other,
        (Param::Strict(value), Param::Strict(other)) => *value == *other,
        (Param::Soft(value), Param::Soft(other)) => *value == *other,
        (Param::Size(size), Param::Size(other)) => *size == *other,
        (Param::Content(bytes), Param::Content(other)) => {
            same_bytes(bytes.as_slice(), other.as_slice())
        }
        (Param::Uri(text), Param::Uri(other)) => {
            same_bytes(text.as_str().as_bytes(), other.as_str().as_bytes())
        }
        (Param::Source(component), Param::Source(other)) => *component == *other,
        (Param::Args(bytes), Param::Args(other)) => same_bytes(bytes.as_slice(), other.as_slice()),
        _ => false,
    }
}

/// Whether both are absent, or both are present and equal.
pub(crate) fn same_param(one: Option<&Param>, other: Option<&Param>) -> bool
    ensures { IsTrue result → option_copied one.entry ≡ option_copied other.entry }
{
    match (one, other) {
        (None, None) => true,
        (Some(one), Some(other)) => same(one, other),
        _ => false,
    }
}
