//! The pairs of an envelope's map, read in one pass.

ghost use Rattle.std.specs.Prelude.{◌≡◌, ℕ, Some, IfOk};
ghost use Rattle.det_cbor.specs.HeadReading.{map_ok};
ghost use Rattle.suit_envelope.specs.Envelopes.{put};
ghost use Rattle.suit_envelope.specs.EnvelopeReading.{first_refusal, wrapper_held, content_judged, value_from, pair_more, pair_turn, no_pairs, pairs_from};
ghost use Rattle.suit_envelope.specs.Said.{said_by, pairs_say};

use crate::Envelope;
use crate::key::{Key, Seen, known, read_key, see};
use crate::wrapper::wrapper_of;
use det_cbor::Cursor;
use suit_params::{
    Refusal, Why, bytes_left, only_item, read_content, read_item, refused, same_place,
};

// Judges the content of the wrapper's byte string.
fn wrapper_held(content: Cursor<'_>) -> Result<(), Refusal>
    ensures { result ≡ wrapper_held content.entry }
{
    let item = only_item(content)?;
    wrapper_of(item)?;
    Ok(())
}

// The first of two refusals, if there is one.
fn first_refusal(judged: Result<(), Refusal>, next: Result<(), Refusal>) -> Result<(), Refusal>
    ensures { result ≡ first_refusal judged next }
{
    judged?;
    next
}

// The first refusal once this content is judged. Only the wrapper's content is.
fn judge(judged: Result<(), Refusal>, key: Key, content: Cursor<'_>) -> Result<(), Refusal>
    ensures { result ≡ content_judged judged key content.entry }
{
    match key {
        Key::Wrapper => first_refusal(judged, wrapper_held(content)),
        _ => judged,
    }
}

// Puts the content of a value into the envelope, by its key.
fn put<'a>(envelope: &mut Envelope<'a>, key: Key, content: Cursor<'a>)
    ensures says { said_by envelope.new
        ≡ put (said_by envelope.old) key content.entry.left content.entry.place }
    ensures whole { envelope.new.whole.now ≡ envelope.old.whole.now }
{
    let place = content.place();
    let bytes = bytes_left(content);
    match key {
        Key::Wrapper => {
            envelope.wrapper = bytes;
            envelope.wrapper_place = place;
        }
        Key::Manifest => {
            envelope.manifest = bytes;
            envelope.manifest_place = place;
        }
        Key::PayloadFetch => {
            envelope.payload_fetch = Some(bytes);
            envelope.payload_fetch_place = place;
        }
        Key::Install => {
            envelope.install = Some(bytes);
            envelope.install_place = place;
        }
        Key::Text => envelope.text = Some(bytes),
        Key::Payload | Key::Unknown => {}
    }
}

/// What the pairs read so far say.
#[derive(Clone, Copy, Debug)]
pub(crate) struct Found<'a> {
    pub(crate) seen: Seen,
    pub(crate) envelope: Envelope<'a>,
    /// The first refusal of a value, if there was one.
    pub(crate) judged: Result<(), Refusal>,
}

// Reads the next value, and returns its content if it is a byte string. The item was judged before.
fn read_value<'a>(map: &mut Cursor<'a>) -> Result<Option<Cursor<'a>>, Refusal>
    ensures { map_ok (λ value. (value, map.new)) result ≡ value_from map.old }
{
    let mut ahead = same_place(map);
    match read_content(&mut ahead) {
        Ok(content) => {
            *map = ahead;
            Ok(Some(content))
        }
        Err(_) => {
            read_item(map)?;
            Ok(None)
        }
    }
}

// Takes a key and the content of its value.
fn take_content<'a>(found: &mut Found<'a>, key: Key, mut content: Cursor<'a>)
    ensures says { (place : ℕ)
        → pairs_say found.new ≡ pair_more (pairs_say found.old) key place (Some content.entry) }
    ensures whole { found.new.envelope.whole.now ≡ found.old.envelope.whole.now }
{
    found.seen = see(found.seen, key);
    found.judged = judge(found.judged, key, same_place(&mut content));
    put(&mut found.envelope, key, content);
}

// Takes a key and its value, whose place is `place`. Payloads come first, since there may be many;
// nothing is kept of them.
fn take<'a>(found: &mut Found<'a>, key: Key, place: u64, value: Option<Cursor<'a>>)
    ensures says { pairs_say found.new ≡ pair_more (pairs_say found.old) key place value.entry }
    ensures whole { found.new.envelope.whole.now ≡ found.old.envelope.whole.now }
{
    match value {
        Some(content) => match key {
            Key::Payload => {}
            _ => take_content(found, key, content),
        },
        None => {
            found.seen = see(found.seen, key);
            found.judged = first_refusal(found.judged, refused(place, Why::Shape));
        }
    }
}

// Reads a pair, and refuses an unknown key.
fn pair_turn<'a>(map: &mut Cursor<'a>, found: &mut Found<'a>) -> Result<(), Refusal>
    ensures says { map_ok (λ _. (pairs_say found.new, map.new)) result
        ≡ pair_turn map.old (pairs_say found.old) }
    ensures whole { found.new.envelope.whole.now ≡ found.old.envelope.whole.now }
{
    let place = map.place();
    let key = read_key(map)?;
    known(place, key)?;
    let place = map.place();
    let value = read_value(map)?;
    take(found, key, place, value);
    Ok(())
}

/// Reads the next `count` pairs of a map that was judged as CBOR before, or else returns the
/// refusal of the first unknown key.
pub(crate) fn pairs<'a>(
    mut map: Cursor<'a>,
    count: u64,
    envelope: Envelope<'a>,
) -> Result<Found<'a>, Refusal>
    ensures says { map_ok pairs_say result
        ≡ pairs_from count map.entry (no_pairs (said_by envelope.entry)) }
    ensures whole { IfOk result (λ f. f.envelope.whole.now ≡ envelope.entry.whole.now) }
{
    let seen = Seen {
        wrapper: false,
        manifest: false,
    };
    let mut found = Found {
        seen,
        envelope,
        judged: Ok(()),
    };
    for _ in 0..count {
        pair_turn(&mut map, &mut found)?;
    }
    Ok(found)
}
