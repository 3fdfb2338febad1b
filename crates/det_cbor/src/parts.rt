//! The parts of an item that are not items themselves: heads, strings, and the order of a map's
//! keys.

ghost use Rattle.std.specs.Prelude.{◌≡◌, ◌<◌, ◌≤◌, length, IfOk, option_map};
ghost use Rattle.det_cbor.specs.HeadReading.{map_ok, head_at};
ghost use Rattle.det_cbor.specs.ItemReading.{stop_at, stopped, string_at, utf8_text, text_at, read_of, in_order, nested, item_at, reader_at};
ghost use Rattle.det_cbor.specs.ItemSkipping.{skip_at, parts_at};

use crate::head::split_head;
use crate::reason::Stop;
use crate::{Head, Reason};
use std::cmp::Ordering;

/// The fault of a head or a string that begins at `bytes`: at the end of the input if it is
/// truncated, otherwise at the head.
pub(crate) fn stop(bytes: &[u8], reason: Reason) -> Stop
    ensures { result ≡ stop_at bytes.now reason }
{
    let left = match reason {
        Reason::Truncated => 0,
        _ => bytes.len(),
    };
    Stop { left, reason }
}

/// The levels that are left inside an array, a map or a tag. With no level left it is refused at
/// its head, which is the front of `bytes`.
#[tactic(auto, using(crate::proofs::ReadingSteps::level_left, crate::proofs::ReadingSteps::no_level_left))]
pub(crate) fn part_levels(bytes: &[u8], levels: u8) -> Result<u8, Stop>
    ensures reader { map_ok item_at result ≡ nested bytes.now (reader_at levels) }
    ensures skipper { map_ok skip_at result ≡ nested bytes.now (parts_at levels) }
    ensures fewer { IfOk result (λ left. left < levels) }
{
    if levels == 0 {
        return Err(stop(bytes, Reason::TooDeep));
    }
    Ok(levels - 1)
}

/// Splits the head off the front.
pub(crate) fn first_head(bytes: &[u8]) -> Result<(Head, &[u8]), Stop>
    ensures { map_ok (λ f. (f.0, f.1.now)) result ≡ stopped bytes.now (head_at bytes.now) }
{
    match split_head(bytes) {
        Ok(found) => Ok(found),
        Err(reason) => Err(stop(bytes, reason)),
    }
}

// Splits a string of `count` bytes off the bytes after its head.
fn string(count: u64, rest: &[u8]) -> Result<(&[u8], &[u8]), Reason>
    ensures { map_ok (λ s. (s.0.now, s.1.now)) result ≡ string_at count rest.now }
{
    if (rest.len() as u64) < count {
        return Err(Reason::Truncated);
    }
    Ok(rest.split_at(count as usize))
}

/// The bytes as text, or `None` if they are not UTF-8.
#[tactic(auto, using(crate::proofs::Utf8::good_utf8, crate::proofs::Utf8::bad_utf8))]
pub fn as_text(bytes: &[u8]) -> Option<&str>
    ensures { option_map (λ t. t.now) result ≡ utf8_text bytes.now }
{
    std::str::from_utf8(bytes).ok()
}

fn text(count: u64, rest: &[u8]) -> Result<(&str, &[u8]), Reason>
    ensures { map_ok (λ s. (s.0.now, s.1.now)) result ≡ text_at count rest.now }
{
    let (bytes, rest) = string(count, rest)?;
    match as_text(bytes) {
        Some(text) => Ok((text, rest)),
        None => Err(Reason::BadText),
    }
}

/// Splits a string off the bytes after its head. `bytes` begin with that head.
pub(crate) fn string_in<'a>(
    bytes: &[u8],
    count: u64,
    rest: &'a [u8],
) -> Result<(&'a [u8], &'a [u8]), Stop>
    ensures { map_ok (λ s. (s.0.now, s.1.now)) result
        ≡ stopped bytes.now (string_at count rest.now) }
{
    match string(count, rest) {
        Ok(found) => Ok(found),
        Err(reason) => Err(stop(bytes, reason)),
    }
}

/// Splits a text off the bytes after its head. `bytes` begin with that head.
pub(crate) fn text_in<'a>(
    bytes: &[u8],
    count: u64,
    rest: &'a [u8],
) -> Result<(&'a str, &'a [u8]), Stop>
    ensures { map_ok (λ s. (s.0.now, s.1.now)) result ≡ stopped bytes.now (text_at count rest.now) }
{
    match text(count, rest) {
        Ok(found) => Ok(found),
        Err(reason) => Err(stop(bytes, reason)),
    }
}

/// The bytes up to `rest`, which is their tail.
pub(crate) fn read_before<'a>(bytes: &'a [u8], rest: &[u8]) -> &'a [u8]
    ensures { result.now ≡ read_of bytes.now rest.now }
{
    &bytes[..bytes.len().saturating_sub(rest.len())]
}

/// Checks that a key sorts above the key before it. `bytes` begin with the key.
pub(crate) fn order(bytes: &[u8], before: Option<&[u8]>, key: &[u8]) -> Result<(), Stop>
    ensures { result ≡ stopped bytes.now (in_order (option_map (λ b. b.now) before.entry) key.now) }
{
    let Some(before) = before else {
        return Ok(());
    };
    match before.cmp(key) {
        Ordering::Less => Ok(()),
        Ordering::Equal => Err(stop(bytes, Reason::Repeated)),
        Ordering::Greater => Err(stop(bytes, Reason::Order)),
    }
}
