//! Finding integrated payloads by their keys.

ghost use Rattle.std.specs.Prelude.{◌≡◌, ℕ, List, Some, IfSome, option_map};
ghost use Rattle.std.specs.List.{Contains};
ghost use Rattle.det_cbor.specs.HeadReading.{map_ok};
ghost use Rattle.suit_envelope.specs.Payloads.{HasPayloads, payload_under};
ghost use Rattle.suit_envelope.specs.PayloadReading.{text_from, is_wanted, pair_from, found_from, counted_from, payload_from};

use crate::Envelope;
use det_cbor::{Cursor, HeadKind};
use suit_params::{Refusal, bytes_left, read_bytes, read_content, read_head};

/// Reads the next key, and returns its bytes if it is a text. All other keys of an envelope are
/// numbers.
#[tactic(auto, unfolding(crate::specs::PayloadReading::text_from))]
pub(crate) fn text_key<'a>(map: &mut Cursor<'a>) -> Result<Option<&'a [u8]>, Refusal>
    ensures { map_ok (λ text. (option_map (λ t. t.now) text, map.new)) result ≡ text_from map.old }
{
    let head = read_head(map)?;
    match head.kind {
        HeadKind::Text => {
            let text = read_bytes(map, head.value)?;
            Ok(Some(text))
        }
        _ => Ok(None),
    }
}

fn is_wanted(text: Option<&[u8]>, key: &[u8]) -> bool
    ensures { result ≡ is_wanted (option_map (λ t. t.now) text.entry) key.now }
{
    match text {
        Some(text) => text == key,
        None => false,
    }
}

// Reads a pair, and returns its content if it has the key that is looked for.
fn pair<'a>(map: &mut Cursor<'a>, key: &[u8]) -> Result<Option<&'a [u8]>, Refusal>
    ensures { map_ok (λ found. (option_map (λ c. c.now) found, map.new)) result
        ≡ pair_from key.now map.old }
{
    let text = text_key(map)?;
    let content = read_content(map)?;
    if is_wanted(text, key) {
        Ok(Some(bytes_left(content)))
    } else {
        Ok(None)
    }
}

// The content of the first of the next `count` pairs with this key.
fn find<'a>(mut map: Cursor<'a>, count: u64, key: &[u8]) -> Result<Option<&'a [u8]>, Refusal>
    ensures { map_ok (option_map (λ c. c.now)) result ≡ found_from key.now count map.entry }
{
    for _ in 0..count {
        if let Some(content) = pair(&mut map, key)? {
            return Ok(Some(content));
        }
    }
    Ok(None)
}

/// Reads the head of a map, which may be tagged. Returns the number of its pairs, and a cursor over
/// them.
#[tactic(auto, unfolding(crate::specs::PayloadReading::counted_from))]
pub(crate) fn counted(mut item: Cursor<'_>) -> Result<(u64, Cursor<'_>), Refusal>
    ensures { result ≡ counted_from item.entry }
{
    let head = read_head(&mut item)?;
    match head.kind {
        HeadKind::Tag => {
            let inner = read_head(&mut item)?;
            Ok((inner.value, item))
        }
        _ => Ok((head.value, item)),
    }
}

fn payload_in<'a>(whole: &'a [u8], key: &[u8]) -> Result<Option<&'a [u8]>, Refusal>
    ensures { map_ok (option_map (λ c. c.now)) result ≡ payload_from key.now whole.now }
{
    let (count, map) = counted(Cursor::new(whole, 0))?;
    find(map, count, key)
}

fn look_up<'a>(envelope: &Envelope<'a>, key: &str) -> Option<&'a [u8]>
    ensures { (payloads : List (List ℕ × List ℕ)) → HasPayloads envelope.now.whole.now payloads
        → option_map (λ c. c.now) result ≡ payload_under payloads key.now }
{
    match payload_in(envelope.whole, key.as_bytes()) {
        Ok(found) => found,
        Err(_) => None,
    }
}

/// The content of the integrated payload with this key, or `None` if the envelope has no such key
/// (draft-ietf-suit-manifest-25, section 8.2). Allocates nothing.
///
/// The payload is looked up in `whole`. Nothing is promised if `whole` does not spell an envelope.
pub fn payload<'a>(envelope: &Envelope<'a>, key: &str) -> Option<&'a [u8]>
    ensures found { IfSome result
        (λ content. (payloads : List (List ℕ × List ℕ))
        → HasPayloads envelope.now.whole.now payloads
        → Contains payloads (key.now, content.now)) }
    ensures every_payload { (payloads : List (List ℕ × List ℕ)) (content : List ℕ)
        → HasPayloads envelope.now.whole.now payloads
        → Contains payloads (key.now, content) → option_map (λ c. c.now) result ≡ Some content }
    ensures answers { (payloads : List (List ℕ × List ℕ))
        → HasPayloads envelope.now.whole.now payloads
        → option_map (λ c. c.now) result ≡ payload_under payloads key.now }
{
    look_up(envelope, key)
}
