//! Writing maps of parameters.

ghost use Rattle.std.specs.Prelude.{◌≡◌, ◌++◌, OnOk, OnErr};
ghost use Rattle.std.specs.List.{AllByRecursion};
ghost use Rattle.det_cbor.specs.DataItem.{ByteString, spell, spell_pairs};
ghost use Rattle.det_cbor.specs.Prefix.{IsPrefix};
ghost use Rattle.suit_params.specs.DigestKinds.{spelled_size};
ghost use Rattle.suit_params.specs.DigestBytes.{IsDigestBytes};
ghost use Rattle.suit_params.specs.Digests.{digest_item};
ghost use Rattle.suit_params.specs.ParamKeys.{key_of, key_item};
ghost use Rattle.suit_params.specs.ParamMaking.{value_item, param_pairs, params_item, IsParam};
ghost use Rattle.suit_params.specs.ParamWriting.{IsWritten};

use crate::{Digest, DigestKind, Param, ParamList, push_digest};
use det_cbor::{Bytes, HeadKind, push_flag, push_kind, push_number, push_string, push_text};
use std::alloc::{AllocError, Global};

// The length of a digest's array in bytes.
fn spelled_size(kind: DigestKind) -> u64
    ensures { result ≡ spelled_size kind }
{
    match kind {
        DigestKind::Sha256 => 36,
        DigestKind::Sha384 => 53,
        DigestKind::Sha512 => 69,
    }
}

// Appends a byte string that holds a digest's array.
fn push_held_digest(out: &mut Bytes, digest: &Digest) -> Result<(), AllocError>
    ensures ok { OnOk result
        (out.new ≡ out.old ++ spell (ByteString (spell (digest_item digest.now)))) }
    ensures err { OnErr result (IsPrefix out.old out.new) }
    ensures fits { OnOk result (IsDigestBytes digest.now) }
{
    push_kind(out, HeadKind::Bytes, spelled_size(digest.kind()))?;
    push_digest(out, digest)?;
    Ok(())
}

fn push_value(out: &mut Bytes, param: &Param) -> Result<(), AllocError>
    ensures ok { OnOk result (out.new ≡ out.old ++ spell (value_item param.now)) }
    ensures err { OnErr result (IsPrefix out.old out.new) }
    ensures param { OnOk result (IsParam param.now) }
{
    match param {
        Param::Vendor(id) | Param::Class(id) | Param::Device(id) => push_string(out, id),
        Param::Digest(digest) => push_held_digest(out, digest.get()),
        Param::Slot(number) | Param::Size(number) => push_number(out, *number),
        Param::Strict(flag) | Param::Soft(flag) => push_flag(out, *flag),
        Param::Content(bytes) | Param::Args(bytes) => push_string(out, bytes.as_slice()),
        Param::Uri(text) => push_text(out, text.as_str()),
        Param::Source(component) => push_number(out, *component as u64),
    }
}

fn push_param(out: &mut Bytes, param: &Param) -> Result<(), AllocError>
    ensures ok { OnOk result
        (out.new
        ≡ out.old ++ (spell (key_item (key_of param.now)) ++ spell (value_item param.now))) }
    ensures err { OnErr result (IsPrefix out.old out.new) }
    ensures param { OnOk result (IsParam param.now) }
{
    push_number(out, param.key().number() as u64)?;
    push_value(out, param)
}

fn push_params(out: &mut Bytes, list: &ParamList) -> Result<(), AllocError>
    ensures ok { OnOk result (out.new ≡ out.old ++ spell_pairs (param_pairs list.now)) }
    ensures err { OnErr result (IsPrefix out.old out.new) }
    ensures params { OnOk result (AllByRecursion IsParam list.now) }
{
    for param in list.as_slice() {
        push_param(out, param)?;
    }
    Ok(())
}

/// Appends the one spelling of the map of these parameters (draft-ietf-suit-manifest-25, section
/// 8.4.8). If memory runs out, a part of it may have been appended.
pub fn write_params(_alloc: Global, list: &ParamList, out: &mut Bytes) -> Result<(), AllocError>
    ensures ok { OnOk result (out.new ≡ out.old ++ spell (params_item list.now)) }
    ensures err { OnErr result (IsPrefix out.old out.new) }
    ensures says { OnOk result (IsWritten list.now) }
    ensures params { OnOk result (AllByRecursion IsParam list.now) }
{
    push_kind(out, HeadKind::Map, list.len() as u64)?;
    push_params(out, list)?;
    Ok(())
}
