//! Reading parameters from bytes that were judged.

ghost use Rattle.std.specs.Prelude.{◌≡◌, IsOk, IsSome, Ok, Some};
ghost use Rattle.suit_params.specs.Reading.{bytes_from};
ghost use Rattle.suit_params.specs.DigestKinds.{size_of, kind_of};
ghost use Rattle.suit_params.specs.DigestReading.{digest_with, value_at, algorithm_at, digest_at};
ghost use Rattle.suit_params.specs.ParamKeys.{numbered};
ghost use Rattle.suit_params.specs.ParamReading.{key_from, id_from, held_from, text_from, number_from, flag_from, index_from, digest_from, bytes_value_from, value_from, param_from};
ghost use Rattle.suit_params.specs.ParamSlices.{param_of};

use crate::judged::Judged;
use det_cbor::{HeadKind, as_text};
use suit_params::{Digest, DigestKind, ParamKey, ParamSlice, Why};

// The parameter key with this number.
#[inline(always)]
fn numbered(number: u64) -> ParamKey
    requires { IsSome (numbered number) }
    ensures { numbered number ≡ Some result }
{
    match number {
        1 => ParamKey::Vendor,
        2 => ParamKey::Class,
        3 => ParamKey::Digest,
        5 => ParamKey::Slot,
        12 => ParamKey::Strict,
        13 => ParamKey::Soft,
        14 => ParamKey::Size,
        18 => ParamKey::Content,
        21 => ParamKey::Uri,
        22 => ParamKey::Source,
        23 => ParamKey::Args,
        _ => ParamKey::Device,
    }
}

#[inline(always)]
#[tactic(auto, unfolding(suit_params::specs::ParamReading::key_from))]
fn take_key(map: &mut Judged<'_>) -> ParamKey
    requires { IsOk (key_from map.old) }
    ensures { key_from map.old ≡ Ok (result, map.new) }
{
    let number = map.value(HeadKind::Unsigned, Why::UnknownParam);
    numbered(number)
}

// Takes the next 16 bytes.
#[inline(always)]
fn take_sixteen(map: &mut Judged<'_>) -> [u8; 16]
    requires { IsOk (bytes_from 16 map.old) }
    ensures { bytes_from 16 map.old ≡ Ok (result, map.new) }
{
    let bytes = map.bytes(16);
    let mut id = [0; 16];
    id.copy_from_slice(bytes);
    id
}

// Takes an identifier of 16 bytes.
#[inline(always)]
#[tactic(auto, unfolding(suit_params::specs::ParamReading::id_from))]
fn take_id(map: &mut Judged<'_>) -> [u8; 16]
    requires { IsOk (id_from map.old) }
    ensures { id_from map.old ≡ Ok (result, map.new) }
{
    let _length = map.value(HeadKind::Bytes, Why::BadParam);
    take_sixteen(map)
}

// Takes a byte string, as its content at its place.
#[inline(always)]
#[tactic(auto, unfolding(suit_params::specs::ParamReading::held_from))]
fn take_held<'a>(map: &mut Judged<'a>) -> Judged<'a>
    requires { IsOk (held_from map.old) }
    ensures { held_from map.old ≡ Ok (result, map.new) }
{
    let count = map.value(HeadKind::Bytes, Why::BadParam);
    map.content(count)
}

// Takes a byte string, as its content.
#[inline(always)]
fn take_bytes<'a>(map: &mut Judged<'a>) -> &'a [u8]
    requires { IsOk (bytes_value_from map.old) }
    ensures { bytes_value_from map.old ≡ Ok (result.now, map.new) }
{
    take_held(map).all()
}

// Takes a text. This checks its bytes again, since there is no other way to get a `str`.
#[tactic(auto, unfolding(suit_params::specs::ParamReading::text_from))]
fn take_text<'a>(map: &mut Judged<'a>) -> &'a str
    requires { IsOk (text_from map.old) }
    ensures { text_from map.old ≡ Ok (result.now, map.new) }
{
    let count = map.value(HeadKind::Text, Why::BadParam);
    let bytes = map.bytes(count);
    as_text(bytes).unwrap()
}

// Takes an unsigned number.
#[inline(always)]
#[tactic(auto, unfolding(suit_params::specs::ParamReading::number_from))]
fn take_number(map: &mut Judged<'_>) -> u64
    requires { IsOk (number_from map.old) }
    ensures { number_from map.old ≡ Ok (result, map.new) }
{
    map.value(HeadKind::Unsigned, Why::BadParam)
}

// Takes true or false.
#[inline(always)]
#[tactic(auto, unfolding(suit_params::specs::ParamReading::flag_from))]
fn take_flag(map: &mut Judged<'_>) -> bool
    requires { IsOk (flag_from map.old) }
    ensures { flag_from map.old ≡ Ok (result, map.new) }
{
    map.value(HeadKind::Bool, Why::BadParam) == 1
}

// Takes a component index.
#[inline(always)]
fn take_index(map: &mut Judged<'_>, count: u32) -> u32
    requires { IsOk (index_from count map.old) }
    ensures { index_from count map.old ≡ Ok (result, map.new) }
{
    let _ = count;
    take_number(map) as u32
}

// The hash function that the negative integer with this argument stands for.
#[inline(always)]
fn numbered_kind(argument: u64) -> DigestKind
    requires { IsSome (kind_of argument) }
    ensures { kind_of argument ≡ Some result }
{
    match argument {
        15 => DigestKind::Sha256,
        42 => DigestKind::Sha384,
        _ => DigestKind::Sha512,
    }
}

// Takes the first element of a digest. `array` is the place of the digest's array.
#[inline(always)]
fn take_algorithm(item: &mut Judged<'_>, array: u64) -> DigestKind
    requires { IsOk (algorithm_at array item.old) }
    ensures { algorithm_at array item.old ≡ Ok (result, item.new) }
{
    let _ = array;
    let head = item.head();
    numbered_kind(head.value)
}

// Takes as many bytes as a digest by this hash function has.
#[inline(always)]
fn take_sum(item: &mut Judged<'_>, kind: DigestKind) -> Digest
    requires { IsOk (bytes_from (size_of kind) item.old) }
    ensures { digest_with kind (size_of kind) item.old ≡ Ok (result, item.new) }
{
    let bytes = item.bytes(kind.size() as u64);
    Digest::new(kind, bytes)
}

// Takes the second element of a digest. `array` is the place of the digest's array.
#[inline(always)]
#[tactic(auto, unfolding(suit_params::specs::DigestReading::value_at))]
fn take_second(item: &mut Judged<'_>, array: u64, kind: DigestKind) -> Digest
    requires { IsOk (value_at array kind item.old) }
    ensures { value_at array kind item.old ≡ Ok (result, item.new) }
{
    let _ = array;
    let _length = item.value(HeadKind::Bytes, Why::Shape);
    take_sum(item, kind)
}

// Takes the digest that a whole item is.
#[inline(always)]
fn whole_digest(mut item: Judged<'_>) -> Digest
    requires { IsOk (digest_at item) }
    ensures { digest_at item.entry ≡ Ok result }
{
    let array = item.place();
    let _elements = item.value(HeadKind::Array, Why::Shape);
    let kind = take_algorithm(&mut item, array);
    take_second(&mut item, array, kind)
}

// Takes a byte string that holds a digest.
#[inline(always)]
fn take_digest(map: &mut Judged<'_>) -> Digest
    requires { IsOk (digest_from map.old) }
    ensures { digest_from map.old ≡ Ok (result, map.new) }
{
    let content = take_held(map);
    content.are_bytes();
    whole_digest(content)
}

#[inline(always)]
fn take_value<'a>(map: &mut Judged<'a>, key: ParamKey, count: u32) -> ParamSlice<'a>
    requires { IsOk (value_from count key map.old) }
    ensures { value_from count key map.old ≡ Ok (param_of result, map.new) }
{
    match key {
        ParamKey::Vendor => ParamSlice::Vendor(take_id(map)),
        ParamKey::Class => ParamSlice::Class(take_id(map)),
        ParamKey::Device => ParamSlice::Device(take_id(map)),
        ParamKey::Digest => ParamSlice::Digest(take_digest(map)),
        ParamKey::Slot => ParamSlice::Slot(take_number(map)),
        ParamKey::Strict => ParamSlice::Strict(take_flag(map)),
        ParamKey::Soft => ParamSlice::Soft(take_flag(map)),
        ParamKey::Size => ParamSlice::Size(take_number(map)),
        ParamKey::Content => ParamSlice::Content(take_bytes(map)),
        ParamKey::Uri => ParamSlice::Uri(take_text(map)),
        ParamKey::Source => ParamSlice::Source(take_index(map, count)),
        ParamKey::Args => ParamSlice::Args(take_bytes(map)),
    }
}

/// Takes the next pair of a map that was judged. Component indices are below `count`.
#[inline(always)]
pub(crate) fn take_param<'a>(map: &mut Judged<'a>, count: u32) -> ParamSlice<'a>
    requires { IsOk (param_from count map.old) }
    ensures { param_from count map.old ≡ Ok (param_of result, map.new) }
{
    let key = take_key(map);
    take_value(map, key, count)
}
