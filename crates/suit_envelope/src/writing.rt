//! Writing the parts of an envelope.

ghost use Rattle.std.specs.Prelude.{◌≡◌, ◌++◌, OnOk};
ghost use Rattle.det_cbor.specs.DataItem.{ByteString, spell, IsString};
ghost use Rattle.det_cbor.specs.Heads.{head_bytes};

use det_cbor::{Bytes, HeadKind, push_kind, push_number, push_string};
use std::alloc::AllocError;

/// Appends tag 107 and the head of a map of `pairs` pairs.
pub(crate) fn push_start(out: &mut Bytes, pairs: u64) -> Result<(), AllocError>
    ensures { OnOk result (out.new ≡ out.old ++ (head_bytes 6 107 ++ head_bytes 5 pairs)) }
{
    push_kind(out, HeadKind::Tag, 107)?;
    push_kind(out, HeadKind::Map, pairs)
}

/// Appends a pair of a number and a byte string with this content.
pub(crate) fn push_pair(out: &mut Bytes, key: u64, content: &[u8]) -> Result<(), AllocError>
    ensures ok { OnOk result
        (out.new ≡ out.old ++ (head_bytes 0 key ++ spell (ByteString content.now))) }
    ensures string { IsString content.now }
{
    push_number(out, key)?;
    push_string(out, content)
}
