//! The keys of an envelope's map.

ghost use Rattle.std.specs.Prelude.{◌≡◌};
ghost use Rattle.det_cbor.specs.HeadReading.{map_ok};
ghost use Rattle.suit_envelope.specs.Envelopes.{numbered_key};
ghost use Rattle.suit_envelope.specs.EnvelopeReading.{key_from, see, all_seen};
ghost use Rattle.suit_envelope.specs.Judging.{known_key};

use det_cbor::{Cursor, HeadKind};
use suit_params::{Refusal, Why, read_bytes, read_head, refused};

/// The member that a key of an envelope's map stands for.
#[derive(Clone, Copy, Debug, PartialEq, Eq)]
pub(crate) enum Key {
    Wrapper,
    Manifest,
    PayloadFetch,
    Install,
    Text,
    Payload,
    Unknown,
}

/// Which of the required keys a map has.
#[derive(Clone, Copy, Debug, PartialEq, Eq)]
pub(crate) struct Seen {
    pub(crate) wrapper: bool,
    pub(crate) manifest: bool,
}

fn numbered(number: u64) -> Key
    ensures { result ≡ numbered_key number }
{
    match number {
        2 => Key::Wrapper,
        3 => Key::Manifest,
        16 => Key::PayloadFetch,
        20 => Key::Install,
        23 => Key::Text,
        _ => Key::Unknown,
    }
}

/// Reads the next key. The bytes of a text are skipped; of an unknown key, only the head is read.
/// The item was judged before.
#[tactic(auto, unfolding(crate::specs::EnvelopeReading::key_from))]
pub(crate) fn read_key(map: &mut Cursor<'_>) -> Result<Key, Refusal>
    ensures { map_ok (λ key. (key, map.new)) result ≡ key_from map.old }
{
    let head = read_head(map)?;
    match head.kind {
        HeadKind::Unsigned => Ok(numbered(head.value)),
        HeadKind::Text => {
            read_bytes(map, head.value)?;
            Ok(Key::Payload)
        }
        _ => Ok(Key::Unknown),
    }
}

/// Refuses an unknown key. `place` is that of the key.
pub(crate) fn known(place: u64, key: Key) -> Result<(), Refusal>
    ensures { result ≡ known_key place key }
{
    match key {
        Key::Unknown => refused(place, Why::UnknownKey),
        _ => Ok(()),
    }
}

/// Adds a key to those that were seen.
pub(crate) fn see(seen: Seen, key: Key) -> Seen
    ensures { result ≡ see seen key }
{
    match key {
        Key::Wrapper => Seen {
            wrapper: true,
            ..seen
        },
        Key::Manifest => Seen {
            manifest: true,
            ..seen
        },
        _ => seen,
    }
}

/// Refuses a map that lacks a required key. `place` is that of the map.
pub(crate) fn require(place: u64, seen: Seen) -> Result<(), Refusal>
    ensures { result ≡ all_seen place seen }
{
    if !seen.wrapper {
        return refused(place, Why::Missing(2));
    }
    if !seen.manifest {
        return refused(place, Why::Missing(3));
    }
    Ok(())
}
