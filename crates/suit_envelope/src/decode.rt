//! Decoding an envelope.

ghost use Rattle.std.specs.Prelude.{◌≡◌, ◌<◌, ◌^◌, length, Ok, Err, IfOk, IfErr};
ghost use Rattle.det_cbor.specs.HeadReading.{map_ok};
ghost use Rattle.suit_params.specs.declared.refusal.Refusal.{Refusal};
ghost use Rattle.suit_envelope.specs.Envelopes.{EnvelopeSays};
ghost use Rattle.suit_envelope.specs.EnvelopeReading.{envelope_from};
ghost use Rattle.suit_envelope.specs.Places.{PartsEndBelow};
ghost use Rattle.suit_envelope.specs.WrapperParts.{HasWrapper};
ghost use Rattle.suit_envelope.specs.Said.{said_by, EnvelopeOf, RefusesBytes};

use crate::Envelope;
use crate::map::envelope_of;
use det_cbor::Cursor;
use suit_params::{Refusal, only_item};

fn read_envelope(bytes: &[u8]) -> Result<Envelope<'_>, Refusal>
    ensures says { map_ok said_by result ≡ envelope_from bytes.now }
    ensures whole { IfOk result (λ e. e.whole.now ≡ bytes.now) }
    ensures long { length bytes.now < 2 ^ 64 }
{
    let item = only_item(Cursor::new(bytes, 0))?;
    envelope_of(item, bytes)
}

/// Decodes an envelope, tagged or not (draft-ietf-suit-manifest-25, section 8.2).
///
/// The bytes are judged as one CBOR item first, and then the envelope's map: unknown keys, missing
/// keys, and the values in their order. The wrapper and its digest are judged with the values, but
/// no block, manifest or member is entered. Allocates nothing.
pub fn decode_envelope(bytes: &[u8]) -> Result<Envelope<'_>, Refusal>
    ensures ok { IfOk result (λ e. EnvelopeOf bytes.now (said_by e)) }
    ensures whole { IfOk result (λ e. e.whole.now ≡ bytes.now) }
    ensures places { IfOk result (λ e. PartsEndBelow (2 ^ 64) (said_by e)) }
    ensures wrapper { IfOk result (λ e. HasWrapper e.wrapper.now) }
    ensures refused { IfErr result (RefusesBytes bytes.now) }
    ensures every_envelope { (said : EnvelopeSays) → EnvelopeOf bytes.now said
        → map_ok said_by result ≡ Ok said }
    ensures every_refusal { (r : Refusal) → RefusesBytes bytes.now r → result ≡ Err r }
{
    read_envelope(bytes)
}
