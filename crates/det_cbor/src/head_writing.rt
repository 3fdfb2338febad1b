//! Writing heads to the end of a list of bytes.

ghost use Rattle.std.specs.Prelude.{◌≡◌, ◌∷◌, ◌++◌, ◌<◌, OnOk, OnErr};
ghost use Rattle.det_cbor.specs.Prefix.{IsPrefix};
ghost use Rattle.det_cbor.specs.HeadSpelling.{major_of, argument_of, spelled, IsValueOf};

use crate::{Bytes, Head, HeadKind, ShortHead};
use std::alloc::AllocError;

pub(crate) fn major_type(kind: HeadKind) -> u8
    ensures is { result ≡ major_of kind }
    ensures small { result < 8 }
{
    match kind {
        HeadKind::Unsigned => 0,
        HeadKind::Negative => 1,
        HeadKind::Bytes => 2,
        HeadKind::Text => 3,
        HeadKind::Array => 4,
        HeadKind::Map => 5,
        HeadKind::Tag => 6,
        HeadKind::Bool | HeadKind::Null => 7,
    }
}

// The argument in the head: 20 for false, 21 for true and 22 for null.
pub(crate) fn argument(head: Head) -> u64
    requires { IsValueOf head.kind head.value }
    ensures { result ≡ argument_of head.kind head.value }
{
    match head.kind {
        HeadKind::Bool => 20 + head.value,
        HeadKind::Null => 22 + head.value,
        _ => head.value,
    }
}

// Appends a first byte and the bytes after it.
fn push_parts(out: &mut Bytes, first: u8, rest: &[u8]) -> Result<(), AllocError>
    ensures ok { OnOk result (out.new ≡ out.old ++ first ∷ rest.now) }
    ensures err { OnErr result (IsPrefix out.old out.new) }
{
    out.push(first)?;
    out.extend(rest)
}

/// Appends a head in its shortest form. If memory runs out, a part of it may have been appended.
pub fn push_head(out: &mut Bytes, head: Head) -> Result<(), AllocError>
    requires { IsValueOf head.kind head.value }
    ensures ok { OnOk result (out.new ≡ out.old ++ spelled head) }
    ensures err { OnErr result (IsPrefix out.old out.new) }
{
    let short = ShortHead::new(head.kind, head.value);
    let (first, behind) = short.parts();
    push_parts(out, first, behind)
}
