//! Writing parts of items to the end of a list of bytes. If memory runs out, a part of a piece may
//! have been appended.

ghost use Rattle.std.specs.Prelude.{◌≡◌, ◌++◌, OnOk, OnErr};
ghost use Rattle.std.specs.Str.{IsUtf8};
ghost use Rattle.det_cbor.specs.DataItem.{UnsignedInteger, Boolean, NullItem, ByteString, TextString, spell, IsString};
ghost use Rattle.det_cbor.specs.Heads.{head_bytes};
ghost use Rattle.det_cbor.specs.HeadSpelling.{spelled, IsValueOf};
ghost use Rattle.det_cbor.specs.Prefix.{IsPrefix};

use crate::{Bytes, Head, HeadKind, push_head};
use std::alloc::AllocError;

/// Appends the head of this kind and value.
pub fn push_kind(out: &mut Bytes, kind: HeadKind, value: u64) -> Result<(), AllocError>
    requires { IsValueOf kind value }
    ensures ok { OnOk result
        (out.new ≡ out.old ++ spelled (record { kind = kind; value = value })) }
    ensures err { OnErr result (IsPrefix out.old out.new) }
{
    push_head(out, Head { kind, value })
}

/// Appends the head of an array of `count` items.
pub fn push_count(out: &mut Bytes, count: u64) -> Result<(), AllocError>
    ensures ok { OnOk result (out.new ≡ out.old ++ head_bytes 4 count) }
    ensures err { OnErr result (IsPrefix out.old out.new) }
{
    push_kind(out, HeadKind::Array, count)
}

/// Appends an unsigned number.
pub fn push_number(out: &mut Bytes, number: u64) -> Result<(), AllocError>
    ensures ok { OnOk result (out.new ≡ out.old ++ spell (UnsignedInteger number)) }
    ensures err { OnErr result (IsPrefix out.old out.new) }
{
    push_kind(out, HeadKind::Unsigned, number)
}

/// Appends false or true.
pub fn push_flag(out: &mut Bytes, flag: bool) -> Result<(), AllocError>
    ensures ok { OnOk result (out.new ≡ out.old ++ spell (Boolean flag)) }
    ensures err { OnErr result (IsPrefix out.old out.new) }
{
    out.push(if flag { 0xf5 } else { 0xf4 })
}

/// Appends null.
pub fn push_null(out: &mut Bytes) -> Result<(), AllocError>
    ensures ok { OnOk result (out.new ≡ out.old ++ spell NullItem) }
    ensures err { OnErr result (IsPrefix out.old out.new) }
{
    out.push(0xf6)
}

/// Appends a byte string with this content.
pub fn push_string(out: &mut Bytes, content: &[u8]) -> Result<(), AllocError>
    ensures ok { OnOk result (out.new ≡ out.old ++ spell (ByteString content.now)) }
    ensures err { OnErr result (IsPrefix out.old out.new) }
    ensures string { IsString content.now }
{
    push_kind(out, HeadKind::Bytes, content.len() as u64)?;
    out.extend(content)
}

/// Appends a text.
pub fn push_text(out: &mut Bytes, text: &str) -> Result<(), AllocError>
    ensures ok { OnOk result (out.new ≡ out.old ++ spell (TextString text.now)) }
    ensures err { OnErr result (IsPrefix out.old out.new) }
    ensures text { IsString text.now × IsUtf8 text.now }
{
    push_kind(out, HeadKind::Text, text.len() as u64)?;
    out.extend(text.as_bytes())
}
