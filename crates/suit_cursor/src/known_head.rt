//! Reading heads of bytes that were judged.

ghost use Rattle.std.specs.Prelude.{◌≡◌, ◌≤◌, ◌^◌, length, IsOk, Ok};
ghost use Rattle.std.specs.Int.{w8, w16, w32, w64};
ghost use Rattle.det_cbor.specs.HeadReading.{kind_of_major, number_at, argument_at, simple_value, head_at};

use det_cbor::{Head, HeadKind};

#[inline(always)]
fn kind_of(major: u8) -> HeadKind
    ensures { result ≡ kind_of_major major }
{
    match major {
        0 => HeadKind::Unsigned,
        1 => HeadKind::Negative,
        2 => HeadKind::Bytes,
        3 => HeadKind::Text,
        4 => HeadKind::Array,
        5 => HeadKind::Map,
        _ => HeadKind::Tag,
    }
}

#[inline(always)]
fn u8_at(bytes: &[u8]) -> (u64, &[u8])
    requires { IsOk (number_at w8 24 bytes.now) }
    ensures { number_at w8 24 bytes.now ≡ Ok (result.0, result.1.now) }
{
    match bytes.split_first_chunk::<1>() {
        None => unreachable!(),
        Some((number, rest)) => (u64::from(u8::from_be_bytes(*number)), rest),
    }
}

#[inline(always)]
fn u16_at(bytes: &[u8]) -> (u64, &[u8])
    requires { IsOk (number_at w16 (2 ^ 8) bytes.now) }
    ensures { number_at w16 (2 ^ 8) bytes.now ≡ Ok (result.0, result.1.now) }
{
    match bytes.split_first_chunk::<2>() {
        None => unreachable!(),
        Some((number, rest)) => (u64::from(u16::from_be_bytes(*number)), rest),
    }
}

#[inline(always)]
fn u32_at(bytes: &[u8]) -> (u64, &[u8])
    requires { IsOk (number_at w32 (2 ^ 16) bytes.now) }
    ensures { number_at w32 (2 ^ 16) bytes.now ≡ Ok (result.0, result.1.now) }
{
    match bytes.split_first_chunk::<4>() {
        None => unreachable!(),
        Some((number, rest)) => (u64::from(u32::from_be_bytes(*number)), rest),
    }
}

#[inline(always)]
fn u64_at(bytes: &[u8]) -> (u64, &[u8])
    requires { IsOk (number_at w64 (2 ^ 32) bytes.now) }
    ensures { number_at w64 (2 ^ 32) bytes.now ≡ Ok (result.0, result.1.now) }
{
    match bytes.split_first_chunk::<8>() {
        None => unreachable!(),
        Some((number, rest)) => (u64::from_be_bytes(*number), rest),
    }
}

// Reads an argument of two, four or eight bytes.
#[inline(always)]
#[tactic(auto, unfolding(det_cbor::specs::HeadReading::argument_at))]
fn wide(low: u8, bytes: &[u8]) -> (u64, &[u8])
    requires few { 25 ≤ low }
    requires known { IsOk (argument_at low bytes.now) }
    ensures { argument_at low bytes.now ≡ Ok (result.0, result.1.now) }
{
    match low {
        25 => u16_at(bytes),
        26 => u32_at(bytes),
        27 => u64_at(bytes),
        _ => unreachable!(),
    }
}

#[inline(always)]
#[tactic(auto, unfolding(det_cbor::specs::HeadReading::argument_at))]
fn argument(low: u8, bytes: &[u8]) -> (u64, &[u8])
    requires { IsOk (argument_at low bytes.now) }
    ensures { argument_at low bytes.now ≡ Ok (result.0, result.1.now) }
{
    match low {
        0..=23 => (u64::from(low), bytes),
        24 => u8_at(bytes),
        _ => wide(low, bytes),
    }
}

// Reads false, true or null.
#[inline(always)]
fn simple(low: u8) -> Head
    requires { IsOk (simple_value low) }
    ensures { simple_value low ≡ Ok result }
{
    let (kind, value) = match low {
        20 => (HeadKind::Bool, 0),
        21 => (HeadKind::Bool, 1),
        _ => (HeadKind::Null, 0),
    };
    Head { kind, value }
}

#[inline(always)]
#[tactic(auto, unfolding(det_cbor::specs::HeadReading::head_at))]
fn take_head(bytes: &[u8]) -> (Head, &[u8])
    requires { IsOk (head_at bytes.now) }
    ensures { head_at bytes.now ≡ Ok (result.0, result.1.now) }
{
    match bytes {
        [] => unreachable!(),
        [first, rest @ ..] => {
            let (major, low) = (*first / 32, *first % 32);
            if major == 7 {
                return (simple(low), rest);
            }
            let (value, rest) = argument(low, rest);
            let kind = kind_of(major);
            (Head { kind, value }, rest)
        }
    }
}

/// Splits the head off the front, where there is known to be one.
#[inline(always)]
pub(crate) fn known_head(bytes: &[u8]) -> (Head, &[u8])
    requires { IsOk (head_at bytes.now) }
    ensures exact { head_at bytes.now ≡ Ok (result.0, result.1.now) }
    ensures shorter { length result.1.now ≤ length bytes.now }
{
    take_head(bytes)
}
