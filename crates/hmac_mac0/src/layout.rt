//! The parts of a Mac0 block, in their order.

ghost use Rattle.std.specs.Prelude.{◌≡◌, ◌↔◌, IsTrue, [], List, ℕ, IfSome, IfNone};
ghost use Rattle.det_cbor.specs.HeadSpelling.{BeginsWith};
ghost use Rattle.hmac_mac0.specs.Layout.{BeginsWithKind, StartsWithString, StartsWithMap, StartsWithNull, EndsWithTag};

use det_cbor::{Cursor, HeadKind};

// Reads the next head, which must be of this kind, and returns its value.
fn head(cursor: &mut Cursor<'_>, kind: HeadKind) -> Option<u64>
    ensures some { IfSome result
        (λ value. BeginsWith cursor.old.left (record { kind = kind; value = value })
        cursor.new.left) }
    ensures none { IfNone result (BeginsWithKind kind cursor.old.left → ⊥) }
{
    match cursor.head() {
        Ok(head) => {
            if head.kind == kind {
                Some(head.value)
            } else {
                None
            }
        }
        Err(_) => None,
    }
}

/// Reads a byte string and returns its content.
pub(crate) fn string<'a>(cursor: &mut Cursor<'a>) -> Option<&'a [u8]>
    ensures some { IfSome result
        (λ content. StartsWithString cursor.old.left content.now cursor.new.left) }
    ensures none { IfNone result
        ((content rest : List ℕ) → StartsWithString cursor.old.left content rest → ⊥) }
{
    let length = head(cursor, HeadKind::Bytes)?;
    cursor.bytes(length).ok()
}

// Skips the next item, and returns whether it is a map.
fn map(cursor: &mut Cursor<'_>) -> bool
    ensures passed { IsTrue result → StartsWithMap cursor.old.left cursor.new.left }
    ensures every { (rest : List ℕ) → StartsWithMap cursor.old.left rest → IsTrue result }
{
    match cursor.skip() {
        Ok(item) => head(&mut Cursor::new(item, 0), HeadKind::Map).is_some(),
        Err(_) => false,
    }
}

// Skips the next head, and returns whether it is null.
fn null(cursor: &mut Cursor<'_>) -> bool
    ensures passed { IsTrue result → StartsWithNull cursor.old.left cursor.new.left }
    ensures every { (rest : List ℕ) → StartsWithNull cursor.old.left rest → IsTrue result }
{
    head(cursor, HeadKind::Null).is_some()
}

/// Reads the unprotected header, null and the tag. Returns the tag if nothing follows it.
pub(crate) fn last_tag<'a>(cursor: &mut Cursor<'a>) -> Option<&'a [u8]>
    ensures some { IfSome result (λ tag. EndsWithTag cursor.old.left tag.now) }
    ensures none { IfNone result ((tag : List ℕ) → EndsWithTag cursor.old.left tag → ⊥) }
{
    if !map(cursor) || !null(cursor) {
        return None;
    }
    last_string(cursor)
}

// Reads a byte string, and returns its content if nothing follows it.
fn last_string<'a>(cursor: &mut Cursor<'a>) -> Option<&'a [u8]>
    ensures some { IfSome result (λ content. StartsWithString cursor.old.left content.now []) }
    ensures none { IfNone result
        ((content : List ℕ) → StartsWithString cursor.old.left content [] → ⊥) }
{
    let content = string(cursor)?;
    if cursor.left() > 0 {
        return None;
    }
    Some(content)
}

/// Whether the bytes are exactly one byte string.
pub(crate) fn is_string(bytes: &[u8]) -> bool
    ensures { IsTrue result ↔ ((content : List ℕ) × StartsWithString bytes.now content []) }
{
    last_string(&mut Cursor::new(bytes, 0)).is_some()
}
