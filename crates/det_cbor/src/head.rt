//! Heads of data items: the kind of item, and a value.

ghost use Rattle.std.specs.Prelude.{◌≡◌, ◌^◌, ◌+◌, ◌<◌, length, ℕ, List, Ok, Err, IfOk, IfErr};
ghost use Rattle.std.specs.Int.{w8, w16, w32, w64};
ghost use Rattle.det_cbor.specs.declared.head.Head.{Head};
ghost use Rattle.det_cbor.specs.declared.reason.Reason.{Reason};
ghost use Rattle.det_cbor.specs.Faults.{BadHead};
ghost use Rattle.det_cbor.specs.HeadSpelling.{spelled, BeginsWith};
ghost use Rattle.det_cbor.specs.HeadReading.{map_ok, kind_of_major, shortest_from, number_at, argument_at, simple_value, head_at, place_in};

use crate::Reason;

/// The kind of item that a head begins.
#[derive(Clone, Copy, Debug, PartialEq, Eq)]
pub enum HeadKind {
    Unsigned,
    Negative,
    Bytes,
    Text,
    Array,
    Map,
    Tag,
    Bool,
    Null,
}

/// A head. Its value is a number, the length of a string, a count of items or pairs, or a tag.
///
/// The value is 0 for false and for null, and 1 for true.
#[derive(Clone, Copy, Debug, PartialEq, Eq)]
pub struct Head {
    pub kind: HeadKind,
    pub value: u64,
}

fn kind_of(major: u8) -> HeadKind
    ensures { result ≡ kind_of_major major }
{
    match major {
        0 => HeadKind::Unsigned,
        1 => HeadKind::Negative,
        2 => HeadKind::Bytes,
        3 => HeadKind::Text,
        4 => HeadKind::Array,
        5 => HeadKind::Map,
        _ => HeadKind::Tag,
    }
}

// Accepts a number that needs its width. A number below `least` has a shorter head.
fn shortest(number: u64, least: u64, rest: &[u8]) -> Result<(u64, &[u8]), Reason>
    ensures { map_ok (λ f. (f.0, f.1.now)) result ≡ shortest_from least number rest.now }
{
    if number < least {
        return Err(Reason::NotShortest);
    }
    Ok((number, rest))
}

fn u8_at(bytes: &[u8]) -> Result<(u64, &[u8]), Reason>
    ensures { map_ok (λ f. (f.0, f.1.now)) result ≡ number_at w8 24 bytes.now }
{
    match bytes.split_first_chunk::<1>() {
        None => Err(Reason::Truncated),
        Some((number, rest)) => shortest(u64::from(u8::from_be_bytes(*number)), 24, rest),
    }
}

fn u16_at(bytes: &[u8]) -> Result<(u64, &[u8]), Reason>
    ensures { map_ok (λ f. (f.0, f.1.now)) result ≡ number_at w16 (2 ^ 8) bytes.now }
{
    match bytes.split_first_chunk::<2>() {
        None => Err(Reason::Truncated),
        Some((number, rest)) => shortest(u64::from(u16::from_be_bytes(*number)), 1 << 8, rest),
    }
}

fn u32_at(bytes: &[u8]) -> Result<(u64, &[u8]), Reason>
    ensures { map_ok (λ f. (f.0, f.1.now)) result ≡ number_at w32 (2 ^ 16) bytes.now }
{
    match bytes.split_first_chunk::<4>() {
        None => Err(Reason::Truncated),
        Some((number, rest)) => shortest(u64::from(u32::from_be_bytes(*number)), 1 << 16, rest),
    }
}

fn u64_at(bytes: &[u8]) -> Result<(u64, &[u8]), Reason>
    ensures { map_ok (λ f. (f.0, f.1.now)) result ≡ number_at w64 (2 ^ 32) bytes.now }
{
    match bytes.split_first_chunk::<8>() {
        None => Err(Reason::Truncated),
        Some((number, rest)) => shortest(u64::from_be_bytes(*number), 1 << 32, rest),
    }
}

#[tactic(auto, unfolding(crate::specs::HeadReading::argument_at))]
fn argument(low: u8, bytes: &[u8]) -> Result<(u64, &[u8]), Reason>
    ensures { map_ok (λ f. (f.0, f.1.now)) result ≡ argument_at low bytes.now }
{
    match low {
        0..=23 => Ok((u64::from(low), bytes)),
        24 => u8_at(bytes),
        25 => u16_at(bytes),
        26 => u32_at(bytes),
        27 => u64_at(bytes),
        31 => Err(Reason::Indefinite),
        _ => Err(Reason::Kind),
    }
}

// Reads false, true or null from the lower five bits of a first byte.
fn simple(low: u8) -> Result<Head, Reason>
    ensures { result ≡ simple_value low }
{
    let (kind, value) = match low {
        20 => (HeadKind::Bool, 0),
        21 => (HeadKind::Bool, 1),
        22 => (HeadKind::Null, 0),
        31 => return Err(Reason::Indefinite),
        _ => return Err(Reason::Kind),
    };
    Ok(Head { kind, value })
}

#[tactic(auto, unfolding(crate::specs::HeadReading::head_at))]
fn read_head(bytes: &[u8]) -> Result<(Head, &[u8]), Reason>
    ensures { map_ok (λ f. (f.0, f.1.now)) result ≡ head_at bytes.now }
{
    match bytes {
        [] => Err(Reason::Truncated),
        [first, rest @ ..] => {
            let (major, low) = (*first / 32, *first % 32);
            if major == 7 {
                return Ok((simple(low)?, rest));
            }
            let (value, rest) = argument(low, rest)?;
            let kind = kind_of(major);
            Ok((Head { kind, value }, rest))
        }
    }
}

/// Splits the head off the front. Indefinite and reserved heads are refused by their first byte
/// alone, even if the input is also cut short.
pub(crate) fn split_head(bytes: &[u8]) -> Result<(Head, &[u8]), Reason>
    ensures exact { map_ok (λ f. (f.0, f.1.now)) result ≡ head_at bytes.now }
    ensures begins { IfOk result (λ f. BeginsWith bytes.now f.0 f.1.now) }
    ensures length { IfOk result (λ f. length bytes.now ≡ length (spelled f.0) + length f.1.now) }
    ensures bad { IfErr result (λ reason. BadHead bytes.now (place_in bytes.now reason) reason) }
    ensures every_head { (h : Head) (rest : List ℕ) → BeginsWith bytes.now h rest
        → map_ok (λ f. f.0) result ≡ Ok h }
    ensures every_fault { (at : ℕ) (reason : Reason) → BadHead bytes.now at reason
        → (map_ok (λ f. f.0) result ≡ Err reason) × (at ≡ place_in bytes.now reason) }
{
    read_head(bytes)
}
