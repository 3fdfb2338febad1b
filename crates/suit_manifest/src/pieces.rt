//! Writing the parts of a manifest.

ghost use Rattle.std.specs.Prelude.{◌≡◌, ◌++◌, OnOk};
ghost use Rattle.det_cbor.specs.DataItem.{UnsignedInteger, ByteString, spell, IsString};
ghost use Rattle.det_cbor.specs.Heads.{head_bytes};
ghost use Rattle.suit_commands.specs.SequenceWriting.{IsU64};

use det_cbor::{Bytes, HeadKind, push_kind, push_number, push_string};
use std::alloc::AllocError;

/// Appends the head of a map of `pairs` pairs.
pub(crate) fn push_map(out: &mut Bytes, pairs: u64) -> Result<(), AllocError>
    ensures { OnOk result (out.new ≡ out.old ++ head_bytes 5 pairs) }
{
    push_kind(out, HeadKind::Map, pairs)
}

/// Appends a pair of two numbers.
pub(crate) fn push_number_pair(out: &mut Bytes, key: u64, number: u64) -> Result<(), AllocError>
    ensures ok { OnOk result
        (out.new ≡ out.old ++ (spell (UnsignedInteger key) ++ spell (UnsignedInteger number))) }
    ensures number { IsU64 number }
{
    push_number(out, key)?;
    push_number(out, number)
}

/// Appends a pair of a number and a byte string with this content.
pub(crate) fn push_string_pair(out: &mut Bytes, key: u64, content: &[u8]) -> Result<(), AllocError>
    ensures ok { OnOk result
        (out.new ≡ out.old ++ (spell (UnsignedInteger key) ++ spell (ByteString content.now))) }
    ensures string { OnOk result (IsString content.now) }
{
    push_number(out, key)?;
    push_string(out, content)
}
