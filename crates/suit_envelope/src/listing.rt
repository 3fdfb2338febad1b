//! The integrated payloads of an envelope, in their order.

ghost use Rattle.std.specs.Prelude.{◌≡◌, ◌++◌, [], ℕ, List, map, IfOk, OnOk, option_map};
ghost use Rattle.det_cbor.specs.HeadReading.{map_ok};
ghost use Rattle.suit_envelope.specs.Payloads.{HasPayloads};
ghost use Rattle.suit_envelope.specs.PayloadListing.{said_payload, keyed, listed_pair, listed_then, listed_from, listed_payloads};

use crate::Envelope;
use crate::payloads::{counted, text_key};
use det_cbor::{Cursor, as_text};
use std::alloc::{AllocError, Global};
use suit_params::{Refusal, bytes_left, read_content};

/// An integrated payload (draft-ietf-suit-manifest-25, section 8.2): its key, and the content of
/// its byte string.
#[derive(Clone, Copy, Debug)]
pub struct KeyedPayload<'a> {
    pub key: &'a str,
    pub content: &'a [u8],
}

// The payload with this key, if the key is a text.
fn keyed<'a>(key: Option<&'a [u8]>, content: &'a [u8]) -> Option<KeyedPayload<'a>>
    ensures { option_map said_payload result
        ≡ keyed (option_map (λ k. k.now) key.entry) content.now }
{
    match key {
        Some(bytes) => match as_text(bytes) {
            Some(key) => Some(KeyedPayload { key, content }),
            None => None,
        },
        None => None,
    }
}

// Reads a pair, which is a payload if its key is a text.
fn pair<'a>(map: &mut Cursor<'a>) -> Result<Option<KeyedPayload<'a>>, Refusal>
    ensures { map_ok (λ found. (option_map said_payload found, map.new)) result
        ≡ listed_pair map.old }
{
    let text = text_key(map)?;
    let content = read_content(map)?;
    Ok(keyed(text, bytes_left(content)))
}

fn add<'a>(
    list: &mut Vec<KeyedPayload<'a>>,
    payload: Option<KeyedPayload<'a>>,
) -> Result<(), AllocError>
    ensures { (more : List (List ℕ × List ℕ)) → OnOk result
        (map said_payload list.new.items ++ more
        ≡ map said_payload list.old.items
        ++ listed_then (option_map said_payload payload.entry) more) }
{
    match payload {
        Some(payload) => Ok(list.push(payload)?),
        None => Ok(()),
    }
}

// Lists the payloads among the next `count` pairs.
fn listed<'a>(
    alloc: Global,
    mut pairs: Cursor<'a>,
    count: u64,
) -> Result<Vec<KeyedPayload<'a>>, AllocError>
    ensures { IfOk result (λ list. map said_payload list.items ≡ listed_from count pairs.entry) }
{
    let mut list = Vec::new(alloc);
    for _ in 0..count {
        let found = match pair(&mut pairs) {
            Ok(found) => found,
            Err(_) => return Ok(list),
        };
        add(&mut list, found)?;
    }
    Ok(list)
}

fn listed_in(alloc: Global, whole: &[u8]) -> Result<Vec<KeyedPayload<'_>>, AllocError>
    ensures { IfOk result (λ list. map said_payload list.items ≡ listed_payloads whole.now) }
{
    match counted(Cursor::new(whole, 0)) {
        Ok((count, pairs)) => listed(alloc, pairs, count),
        Err(_) => Ok(Vec::new(alloc)),
    }
}

/// Lists all integrated payloads of an envelope, in their order: shorter keys come first, and keys
/// of the same length are in bytewise order. Keys and contents borrow from `whole`, which is read
/// once. Nothing is promised if `whole` does not spell an envelope.
pub fn all_payloads<'a>(
    alloc: Global,
    envelope: &Envelope<'a>,
) -> Result<Vec<KeyedPayload<'a>>, AllocError>
    ensures { IfOk result
        (λ list. (payloads : List (List ℕ × List ℕ))
        → HasPayloads envelope.now.whole.now payloads
        → map said_payload list.items ≡ payloads) }
{
    listed_in(alloc, envelope.whole)
}
