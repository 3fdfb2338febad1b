//! Identifiers as they are spelled on the configuration page.

ghost use Rattle.std.specs.Prelude.{◌≡◌, ◌≤◌, ◌<◌, ◌+◌, ◌++◌, length, OnOk, OnErr, IfOk, IfErr};
ghost use Rattle.det_cbor.specs.DataItem.{spell_items};
ghost use Rattle.det_cbor.specs.Heads.{head_bytes};
ghost use Rattle.det_cbor.specs.HeadSpelling.{IsValueOf, spelled};
ghost use Rattle.suit_params.specs.Identifiers.{spelled_id, string_items};

use arrayvec::{ArrayVec, CapacityError};
use det_cbor::{Bytes, HeadKind, ShortHead};
use suit_params::Identifier;

/// A spelling of up to 64 bytes.
pub(crate) type Spelling = ArrayVec<u8, 64>;

// Appends a head in its shortest form (RFC 8949, section 4.2.1).
fn put_head(out: &mut Spelling, kind: HeadKind, value: u64) -> Result<(), CapacityError>
    requires { IsValueOf kind value }
    ensures ok { OnOk result
        (out.new.items ≡ out.old.items ++ spelled (record { kind = kind; value = value })) }
    ensures err { OnErr result
        (64 < length out.old.items + length (spelled (record { kind = kind; value = value }))) }
{
    let head = ShortHead::new(kind, value);
    let (first, behind) = head.parts();
    out.try_extend_from_slice(&[first])?;
    out.try_extend_from_slice(behind)
}

// Appends a byte string.
fn put_string(out: &mut Spelling, part: &Bytes) -> Result<(), CapacityError>
    ensures ok { OnOk result
        (out.new.items ≡ out.old.items ++ (head_bytes 2 (length part.now) ++ part.now)) }
    ensures err { OnErr result
        (64 < length out.old.items + length (head_bytes 2 (length part.now) ++ part.now)) }
{
    put_head(out, HeadKind::Bytes, part.len() as u64)?;
    out.try_extend_from_slice(part.as_slice())
}

// Appends byte strings.
fn put_strings(out: &mut Spelling, parts: &[Bytes]) -> Result<(), CapacityError>
    ensures ok { OnOk result
        (out.new.items ≡ out.old.items ++ spell_items (string_items parts.now)) }
    ensures err { OnErr result
        (64 < length out.old.items + length (spell_items (string_items parts.now))) }
{
    for part in parts {
        put_string(out, part)?;
    }
    Ok(())
}

/// Spells an identifier, if that takes at most 64 bytes. Allocates nothing.
pub(crate) fn spell_id(identifier: &Identifier) -> Result<Spelling, CapacityError>
    ensures ok { IfOk result (λ s. s.items ≡ spelled_id identifier.now) }
    ensures short { IfOk result (λ _. length (spelled_id identifier.now) ≤ 64) }
    ensures long { IfErr result (λ _. 64 < length (spelled_id identifier.now)) }
{
    let parts = identifier.as_slice();
    let mut out = ArrayVec::new();
    put_head(&mut out, HeadKind::Array, parts.len() as u64)?;
    put_strings(&mut out, parts)?;
    let _few = out.len();
    Ok(out)
}
