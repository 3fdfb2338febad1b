//! Reading heads, strings and items from a cursor, with the refusals of manifests.

ghost use Rattle.std.specs.Prelude.{◌≡◌, ℕ, ◌<◌, length, get_or, IfOk, OnErr};
ghost use Rattle.det_cbor.specs.HeadReading.{map_ok};
ghost use Rattle.det_cbor.specs.Position.{Takes};
ghost use Rattle.suit_params.specs.Reading.{head_from, kind_from, bytes_from, inner_from, only_from, string_from, content_from, array_from, map_from};

use crate::refusal::refused;
use crate::{Refusal, Why};
use det_cbor::{Bytes, Cursor, Head, HeadKind};
use std::alloc::{AllocError, Global};

// Tells the proof that the bytes of a slice are below 256.
fn bounded(bytes: &[u8])
    ensures { (i : ℕ) → get_or bytes.now i 0 < 256 }
{
    let _ = bytes;
}

/// A second cursor over the same bytes, at the same place.
pub fn same_place<'a>(cursor: &mut Cursor<'a>) -> Cursor<'a>
    ensures copied { result ≡ cursor.old }
    ensures same { cursor.new ≡ cursor.old }
    ensures bytes { (i : ℕ) → get_or cursor.old.left i 0 < 256 }
{
    let place = cursor.place();
    match cursor.bytes(cursor.left() as u64) {
        Ok(rest) => {
            bounded(rest);
            *cursor = Cursor::new(rest, place);
            Cursor::new(rest, place)
        }
        Err(_) => unreachable!(),
    }
}

#[tactic(auto, using(crate::proofs::Readings::head_ok, crate::proofs::Readings::head_err))]
/// Reads the next head. After a refusal the cursor is where it was.
pub fn read_head(cursor: &mut Cursor<'_>) -> Result<Head, Refusal>
    ensures exact { map_ok (λ head. (head, cursor.new)) result ≡ head_from cursor.old }
    ensures same { OnErr result (cursor.new ≡ cursor.old) }
{
    Ok(cursor.head()?)
}

/// Reads the next head and returns its value. A head of another kind is refused for this reason, at
/// its place.
pub fn read_kind(cursor: &mut Cursor<'_>, kind: HeadKind, why: Why) -> Result<u64, Refusal>
    ensures { map_ok (λ n. (n, cursor.new)) result ≡ kind_from kind why cursor.old }
{
    let place = cursor.place();
    let head = read_head(cursor)?;
    if head.kind == kind {
        Ok(head.value)
    } else {
        refused(place, why)
    }
}

#[tactic(auto, using(crate::proofs::Readings::bytes_ok, crate::proofs::Readings::bytes_err))]
/// Takes the next `count` bytes. After a refusal the cursor is where it was.
pub fn read_bytes<'a>(cursor: &mut Cursor<'a>, count: u64) -> Result<&'a [u8], Refusal>
    ensures exact { map_ok (λ piece. (piece.now, cursor.new)) result ≡ bytes_from count cursor.old }
    ensures length { IfOk result (λ piece. length piece.now ≡ count) }
    ensures taken { IfOk result (λ piece. Takes cursor.old cursor.new piece.now) }
    ensures same { OnErr result (cursor.new ≡ cursor.old) }
{
    Ok(cursor.bytes(count)?)
}

/// Reads the next whole item, and returns a cursor over its bytes. It is judged as by `decode`,
/// with levels counted from this item. After a refusal the cursor is where it was.
#[tactic(auto, using(crate::specs::JudgingLaws::skip_ok, crate::specs::JudgingLaws::skip_err))]
pub fn read_item<'a>(cursor: &mut Cursor<'a>) -> Result<Cursor<'a>, Refusal>
    ensures exact { map_ok (λ inner. (inner, cursor.new)) result ≡ inner_from cursor.old }
    ensures same { OnErr result (cursor.new ≡ cursor.old) }
{
    let place = cursor.place();
    let item = cursor.skip()?;
    Ok(Cursor::new(item, place))
}

/// Reads the one item that the cursor's bytes must hold, and returns a cursor over it. The item is
/// judged first, and then any bytes after it are refused.
pub fn only_item(mut content: Cursor<'_>) -> Result<Cursor<'_>, Refusal>
    ensures { result ≡ only_from content.entry }
{
    let item = read_item(&mut content)?;
    if content.left() == 0 {
        Ok(item)
    } else {
        refused(content.place(), Why::Trailing)
    }
}

/// Reads a byte string, an item that was judged before, and returns a cursor over its content.
#[tactic(auto, unfolding(crate::specs::Reading::content_from))]
pub fn read_content<'a>(cursor: &mut Cursor<'a>) -> Result<Cursor<'a>, Refusal>
    ensures { map_ok (λ inner. (inner, cursor.new)) result ≡ content_from cursor.old }
{
    let count = read_kind(cursor, HeadKind::Bytes, Why::Shape)?;
    next_content(cursor, count)
}

/// Takes the next `count` bytes, and returns a cursor over them.
pub fn next_content<'a>(cursor: &mut Cursor<'a>, count: u64) -> Result<Cursor<'a>, Refusal>
    ensures { map_ok (λ inner. (inner, cursor.new)) result ≡ string_from count cursor.old }
{
    let place = cursor.place();
    let content = read_bytes(cursor, count)?;
    Ok(Cursor::new(content, place))
}

/// Reads the head of an array, and returns the number of its elements.
#[tactic(auto, unfolding(crate::specs::Reading::array_from))]
pub fn read_array(item: &mut Cursor<'_>) -> Result<u64, Refusal>
    ensures { map_ok (λ n. (n, item.new)) result ≡ array_from item.old }
{
    read_kind(item, HeadKind::Array, Why::Shape)
}

/// Reads the head of a map, and returns the number of its pairs.
#[tactic(auto, unfolding(crate::specs::Reading::map_from))]
pub fn read_map(item: &mut Cursor<'_>) -> Result<u64, Refusal>
    ensures { map_ok (λ n. (n, item.new)) result ≡ map_from item.old }
{
    read_kind(item, HeadKind::Map, Why::Shape)
}

/// The bytes that are left.
pub fn bytes_left<'a>(mut content: Cursor<'a>) -> &'a [u8]
    ensures { result.now ≡ content.entry.left }
{
    match content.bytes(content.left() as u64) {
        Ok(bytes) => bytes,
        Err(_) => unreachable!(),
    }
}

/// Copies the bytes that are left.
pub fn copy_left(alloc: Global, content: Cursor<'_>) -> Result<Bytes, AllocError>
    ensures { IfOk result (λ b. b ≡ content.entry.left) }
{
    Bytes::from_slice(alloc, bytes_left(content))
}
