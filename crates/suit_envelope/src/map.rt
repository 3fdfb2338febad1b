//! The map of an envelope.

ghost use Rattle.std.specs.Prelude.{◌≡◌, IfOk};
ghost use Rattle.det_cbor.specs.HeadReading.{map_ok};
ghost use Rattle.suit_envelope.specs.Envelopes.{says_nothing};
ghost use Rattle.suit_envelope.specs.EnvelopeReading.{map_from, behind_tag, envelope_at};
ghost use Rattle.suit_envelope.specs.Said.{said_by};

use crate::Envelope;
use crate::key::require;
use crate::pairs::pairs;
use det_cbor::{Cursor, HeadKind};
use suit_params::{Refusal, Why, read_head, read_kind, refused};

// An envelope over these bytes, without any parts yet.
fn nothing(whole: &[u8], tagged: bool) -> Envelope<'_>
    ensures says { said_by result ≡ says_nothing tagged }
    ensures whole { result.whole.now ≡ whole.now }
{
    Envelope {
        whole,
        tagged,
        wrapper: &[],
        wrapper_place: 0,
        manifest: &[],
        manifest_place: 0,
        payload_fetch: None,
        install: None,
        text: None,
        payload_fetch_place: 0,
        install_place: 0,
    }
}

// Reads a map of `count` pairs whose place is `place`. Unknown keys are refused first, then a
// missing key, and then the first bad value.
fn map<'a>(
    map: Cursor<'a>,
    count: u64,
    place: u64,
    start: Envelope<'a>,
) -> Result<Envelope<'a>, Refusal>
    ensures says { map_ok said_by result ≡ map_from count place map.entry (said_by start.entry) }
    ensures whole { IfOk result (λ e. e.whole.now ≡ start.entry.whole.now) }
{
    let found = pairs(map, count, start)?;
    require(place, found.seen)?;
    found.judged?;
    Ok(found.envelope)
}

// Reads the content of tag 107 as an envelope.
#[tactic(auto, unfolding(crate::specs::EnvelopeReading::behind_tag))]
fn behind_tag<'a>(mut item: Cursor<'a>, whole: &'a [u8]) -> Result<Envelope<'a>, Refusal>
    ensures says { map_ok said_by result ≡ behind_tag item.entry }
    ensures whole { IfOk result (λ e. e.whole.now ≡ whole.now) }
{
    let place = item.place();
    let count = read_kind(&mut item, HeadKind::Map, Why::Shape)?;
    map(item, count, place, nothing(whole, true))
}

/// Reads a whole item that was judged before as an envelope over these bytes.
#[tactic(auto, unfolding(crate::specs::EnvelopeReading::envelope_at))]
pub(crate) fn envelope_of<'a>(
    mut item: Cursor<'a>,
    whole: &'a [u8],
) -> Result<Envelope<'a>, Refusal>
    ensures says { map_ok said_by result ≡ envelope_at item.entry }
    ensures whole { IfOk result (λ e. e.whole.now ≡ whole.now) }
{
    let place = item.place();
    let head = read_head(&mut item)?;
    match head.kind {
        HeadKind::Map => map(item, head.value, place, nothing(whole, false)),
        HeadKind::Tag if head.value == 107 => behind_tag(item, whole),
        _ => refused(place, Why::Shape),
    }
}
