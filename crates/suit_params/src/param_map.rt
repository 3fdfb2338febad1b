//! Maps of parameters.

ghost use Rattle.std.specs.Prelude.{◌≡◌, ℕ, ◌<◌, List, [], get_or, Result, Ok, Err, IfOk, IfErr, OnErr};
ghost use Rattle.det_cbor.specs.HeadReading.{map_ok};
ghost use Rattle.det_cbor.specs.Position.{Position};
ghost use Rattle.suit_params.specs.declared.param.Param.{Param};
ghost use Rattle.suit_params.specs.declared.refusal.Refusal.{Refusal};
ghost use Rattle.suit_params.specs.Refusing.{RefusesNext, TakesNext};
ghost use Rattle.suit_params.specs.Answering.{Gives, IsFaultBy, IsReadAs, IsRefusedAs};
ghost use Rattle.suit_params.specs.ParamKeys.{numbered};
ghost use Rattle.suit_params.specs.Params.{IsParams, RefusesParams};
ghost use Rattle.suit_params.specs.ParamJudging.{known_param};
ghost use Rattle.suit_params.specs.ParamLaws.{ParamLaws};
ghost use Rattle.suit_params.specs.ParamReading.{key_from, bytes_value_from, digest_from, value_from, param_from, params_from, params_at, next_params};

use crate::param_value::{
    read_flag, read_held, read_held_digest, read_id, read_index, read_number, read_text,
};
use crate::reading::{copy_left, read_item, read_kind, read_map, same_place};
use crate::refusal::refused;
use crate::{BoxedDigest, Fault, Param, ParamKey, ParamList, Refusal, Why};
use det_cbor::{Bytes, Cursor, HeadKind, Text};
use std::alloc::{AllocError, Global};

// The key with this number. `place` is that of the number.
fn numbered(place: u64, number: u64) -> Result<ParamKey, Refusal>
    ensures { result ≡ known_param place (numbered number) }
{
    match number {
        1 => Ok(ParamKey::Vendor),
        2 => Ok(ParamKey::Class),
        3 => Ok(ParamKey::Digest),
        5 => Ok(ParamKey::Slot),
        12 => Ok(ParamKey::Strict),
        13 => Ok(ParamKey::Soft),
        14 => Ok(ParamKey::Size),
        18 => Ok(ParamKey::Content),
        21 => Ok(ParamKey::Uri),
        22 => Ok(ParamKey::Source),
        23 => Ok(ParamKey::Args),
        24 => Ok(ParamKey::Device),
        _ => refused(place, Why::UnknownParam),
    }
}

/// Reads the key of the next pair.
#[tactic(auto, unfolding(crate::specs::ParamReading::key_from))]
pub(crate) fn read_key(map: &mut Cursor<'_>) -> Result<ParamKey, Refusal>
    ensures { map_ok (λ key. (key, map.new)) result ≡ key_from map.old }
{
    let place = map.place();
    let number = read_kind(map, HeadKind::Unsigned, Why::UnknownParam)?;
    numbered(place, number)
}

// Reads a byte string and copies its content.
fn read_bytes_value(alloc: Global, map: &mut Cursor<'_>) -> Result<Bytes, Fault>
    ensures { Gives (λ b. (b, map.new)) result (bytes_value_from map.old) }
{
    let content = read_held(map)?;
    Ok(copy_left(alloc, content)?)
}

// Reads a byte string that holds a digest, and boxes the digest.
fn read_digest_value(alloc: Global, map: &mut Cursor<'_>) -> Result<BoxedDigest, Fault>
    ensures { Gives (λ d. (d, map.new)) result (digest_from map.old) }
{
    let digest = read_held_digest(map)?;
    Ok(BoxedDigest::new(alloc, digest)?)
}

fn read_value(
    alloc: Global,
    map: &mut Cursor<'_>,
    key: ParamKey,
    count: u32,
) -> Result<Param, Fault>
    ensures { Gives (λ p. (p, map.new)) result (value_from count key map.old) }
{
    match key {
        ParamKey::Vendor => Ok(Param::Vendor(read_id(map)?)),
        ParamKey::Class => Ok(Param::Class(read_id(map)?)),
        ParamKey::Device => Ok(Param::Device(read_id(map)?)),
        ParamKey::Digest => Ok(Param::Digest(read_digest_value(alloc, map)?)),
        ParamKey::Slot => Ok(Param::Slot(read_number(map)?)),
        ParamKey::Strict => Ok(Param::Strict(read_flag(map)?)),
        ParamKey::Soft => Ok(Param::Soft(read_flag(map)?)),
        ParamKey::Size => Ok(Param::Size(read_number(map)?)),
        ParamKey::Content => Ok(Param::Content(read_bytes_value(alloc, map)?)),
        ParamKey::Uri => Ok(Param::Uri(Text::from_str(alloc, read_text(map)?)?)),
        ParamKey::Source => Ok(Param::Source(read_index(map, count)?)),
        ParamKey::Args => Ok(Param::Args(read_bytes_value(alloc, map)?)),
    }
}

fn read_param(alloc: Global, map: &mut Cursor<'_>, count: u32) -> Result<Param, Fault>
    ensures { Gives (λ p. (p, map.new)) result (param_from count map.old) }
{
    let key = read_key(map)?;
    read_value(alloc, map, key, count)
}

// How many keys there are. A map holds no key twice, so it has at most this many pairs.
const KEYS: u64 = 12;

// An empty list with room for `pairs` pairs, or for one with each key if that is less.
fn list_for(alloc: Global, pairs: u64) -> Result<ParamList, AllocError>
    ensures { IfOk result (λ list. list ≡ []) }
{
    let room = Vec::with_capacity(alloc, pairs.min(KEYS) as usize)?;
    Ok(ParamList::from_vec(room))
}

// Reads the next `pairs` pairs of a map.
fn read_pairs(
    alloc: Global,
    mut map: Cursor<'_>,
    pairs: u64,
    count: u32,
) -> Result<ParamList, Fault>
    ensures { Gives (λ list. list) result (params_from count pairs map.entry) }
{
    let mut list = list_for(alloc, pairs)?;
    for _ in 0..pairs {
        let param = read_param(alloc, &mut map, count)?;
        list.push(param)?;
    }
    Ok(list)
}

/// Reads `item`, one item that was judged before, as a map of parameters. Component indices must be
/// below `count`.
#[tactic(auto, unfolding(crate::specs::ParamReading::params_at))]
pub fn params_of(alloc: Global, mut item: Cursor<'_>, count: u32) -> Result<ParamList, Fault>
    ensures { Gives (λ list. list) result (params_at count item.entry) }
{
    let pairs = read_map(&mut item)?;
    read_pairs(alloc, item, pairs, count)
}

fn next_params(alloc: Global, cursor: &mut Cursor<'_>, count: u32) -> Result<ParamList, Fault>
    ensures { Gives (λ list. (list, cursor.new)) result (next_params count cursor.old) }
{
    let item = read_item(cursor)?;
    params_of(alloc, item, count)
}

// Reads with a second cursor, so that a fault leaves the first one alone.
fn params_ahead(alloc: Global, cursor: &mut Cursor<'_>, count: u32) -> Result<ParamList, Fault>
    ensures exact { Gives (λ list. (list, cursor.new)) result (next_params count cursor.old) }
    ensures same { OnErr result (cursor.new ≡ cursor.old) }
    ensures bytes { (i : ℕ) → get_or cursor.old.left i 0 < 256 }
{
    let mut ahead = same_place(cursor);
    let list = next_params(alloc, &mut ahead, count)?;
    *cursor = ahead;
    Ok(list)
}

/// Reads a map of parameters (draft-ietf-suit-manifest-25, section 8.4.8). Component indices must
/// be below `count`. The next item is judged as CBOR first, and then pair by pair. Allocates only
/// for the list. After a fault the cursor is where it was.
pub fn read_params(alloc: Global, cursor: &mut Cursor<'_>, count: u32) -> Result<ParamList, Fault>
    ensures ok { IfOk result (λ list. TakesNext (IsParams count) cursor.old cursor.new list) }
    ensures refused { IfErr result (IsFaultBy (RefusesNext (RefusesParams count) cursor.old)) }
    ensures same { OnErr result (cursor.new ≡ cursor.old) }
    ensures every_list { (new : Position) (ps : List Param)
        → TakesNext (IsParams count) cursor.old new ps → IsReadAs ps result }
    ensures every_refusal { (r : Refusal) → RefusesNext (RefusesParams count) cursor.old r
        → IsRefusedAs r result }
{
    params_ahead(alloc, cursor, count)
}

/// Does nothing. Its contract has the laws. A valid item says exactly one list of parameters or has
/// exactly one refusal, and never both. The numbers of a list's keys ascend. The map made from a
/// list says that list, and is valid if the list ascends. An item that says a list is the one made
/// from it. Any bytes are exactly one digest or have exactly one refusal, and say exactly one list
/// or have exactly one refusal.
pub fn param_laws()
    ensures { ParamLaws }
{}
