//! Reading the values of parameters, from items that were judged before.

ghost use Rattle.std.specs.Prelude.{◌≡◌};
ghost use Rattle.det_cbor.specs.HeadReading.{map_ok};
ghost use Rattle.suit_params.specs.Reading.{bytes_from};
ghost use Rattle.suit_params.specs.ParamReading.{id_from, held_from, text_bytes, text_from, number_from, flag_from, index_from, digest_from};
ghost use Rattle.suit_params.specs.ParamJudging.{judge_index};

use crate::digest::digest_of;
use crate::reading::{next_content, only_item, read_bytes, read_kind};
use crate::refusal::refused;
use crate::{Digest, Refusal, Why};
use det_cbor::{Cursor, HeadKind, Reason, as_text};

// Reads the next 16 bytes.
fn id_bytes(map: &mut Cursor<'_>) -> Result<[u8; 16], Refusal>
    ensures { map_ok (λ id. (id, map.new)) result ≡ bytes_from 16 map.old }
{
    let bytes = read_bytes(map, 16)?;
    let mut id = [0; 16];
    id.copy_from_slice(bytes);
    Ok(id)
}

/// Reads an identifier of 16 bytes.
#[tactic(auto, unfolding(crate::specs::ParamReading::id_from))]
pub(crate) fn read_id(map: &mut Cursor<'_>) -> Result<[u8; 16], Refusal>
    ensures { map_ok (λ id. (id, map.new)) result ≡ id_from map.old }
{
    let place = map.place();
    let count = read_kind(map, HeadKind::Bytes, Why::BadParam)?;
    if count == 16 {
        id_bytes(map)
    } else {
        refused(place, Why::BadParam)
    }
}

/// Reads a byte string, and returns a cursor over its content.
#[tactic(auto, unfolding(crate::specs::ParamReading::held_from))]
pub(crate) fn read_held<'a>(map: &mut Cursor<'a>) -> Result<Cursor<'a>, Refusal>
    ensures { map_ok (λ inner. (inner, map.new)) result ≡ held_from map.old }
{
    let count = read_kind(map, HeadKind::Bytes, Why::BadParam)?;
    next_content(map, count)
}

// Reads the next `count` bytes as text. `place` is that of the text.
fn text<'a>(map: &mut Cursor<'a>, count: u64, place: u64) -> Result<&'a str, Refusal>
    ensures { map_ok (λ t. (t.now, map.new)) result ≡ text_bytes place count map.old }
{
    let bytes = read_bytes(map, count)?;
    match as_text(bytes) {
        Some(text) => Ok(text),
        None => refused(place, Why::Cbor(Reason::BadText)),
    }
}

/// Reads a text.
#[tactic(auto, unfolding(crate::specs::ParamReading::text_from))]
pub(crate) fn read_text<'a>(map: &mut Cursor<'a>) -> Result<&'a str, Refusal>
    ensures { map_ok (λ t. (t.now, map.new)) result ≡ text_from map.old }
{
    let place = map.place();
    let count = read_kind(map, HeadKind::Text, Why::BadParam)?;
    text(map, count, place)
}

/// Reads an unsigned number.
#[tactic(auto, unfolding(crate::specs::ParamReading::number_from))]
pub(crate) fn read_number(map: &mut Cursor<'_>) -> Result<u64, Refusal>
    ensures { map_ok (λ n. (n, map.new)) result ≡ number_from map.old }
{
    read_kind(map, HeadKind::Unsigned, Why::BadParam)
}

/// Reads true or false.
#[tactic(auto, unfolding(crate::specs::ParamReading::flag_from))]
pub(crate) fn read_flag(map: &mut Cursor<'_>) -> Result<bool, Refusal>
    ensures { map_ok (λ b. (b, map.new)) result ≡ flag_from map.old }
{
    Ok(read_kind(map, HeadKind::Bool, Why::BadParam)? == 1)
}

/// Checks that a component index is below the number of components. `place` is that of the index.
pub fn component_index(place: u64, number: u64, count: u32) -> Result<u32, Refusal>
    ensures { result ≡ judge_index count place number }
{
    if number < count as u64 {
        Ok(number as u32)
    } else {
        refused(place, Why::BadIndex(number, count as u64))
    }
}

/// Reads a component index.
pub(crate) fn read_index(map: &mut Cursor<'_>, count: u32) -> Result<u32, Refusal>
    ensures { map_ok (λ i. (i, map.new)) result ≡ index_from count map.old }
{
    let place = map.place();
    let number = read_number(map)?;
    component_index(place, number, count)
}

/// Reads a byte string that holds a digest.
pub(crate) fn read_held_digest(map: &mut Cursor<'_>) -> Result<Digest, Refusal>
    ensures { map_ok (λ d. (d, map.new)) result ≡ digest_from map.old }
{
    let content = read_held(map)?;
    let item = only_item(content)?;
    digest_of(item)
}
