//! Payloads of the envelope.

ghost use Rattle.path_model.specs.Settings.{found_under};
ghost use Rattle.std.specs.Prelude.{◌≡◌, ◌<◌, ℕ, IsTrue, List, option_map};
ghost use Rattle.step_machine.specs.Fetching.{ArePayloads, FetchCounts, TakesIn};
ghost use Rattle.step_machine.specs.Replacing.{IsEmptyOrWholeAt};
ghost use Rattle.step_machine.specs.Spots.{IsPlaced, IsRamBut, OutsideSpot, content_of};
ghost use Rattle.suit_edge.specs.Flash.{Grows, Keeps, Passes};
ghost use Rattle.suit_envelope.specs.Payloads.{HasPayloads};

use crate::Standing;
use crate::filling::{empty, fill};
use det_cbor::as_text;
use flash_layout::FlashFault;
use flash_slots::Ram;
use path_model::Cause;
use suit_edge::Disk;
use suit_envelope::{Envelope, payload};

// The envelope's payload whose key has these bytes. Bytes that are not text are no key.
fn payload_with<'a>(envelope: &Envelope<'a>, key: &[u8]) -> Option<&'a [u8]>
    ensures { (payloads : List (List ℕ × List ℕ)) → HasPayloads envelope.now.whole.now payloads
        → option_map (λ content. content.now) result ≡ found_under payloads key.now }
{
    let text = as_text(key)?;
    payload(envelope, text)
}

// The payload with this key, if there is an envelope to fetch from.
pub(crate) fn payload_of<'a>(envelope: Option<&Envelope<'a>>, key: &[u8]) -> Option<&'a [u8]>
    ensures { (payloads : List (List ℕ × List ℕ)) → ArePayloads envelope.entry payloads
        → option_map (λ content. content.now) result ≡ found_under payloads key.now }
{
    match envelope {
        Some(envelope) => payload_with(envelope, key),
        None => None,
    }
}

// Replaces the content with the payload. One that is too large leaves the content empty.
pub(crate) fn fill_with<D: Disk>(
    disk: &mut D,
    ram: &mut Ram,
    standing: &Standing,
    payload: &[u8],
) -> Result<(), Cause>
    requires placed { IsPlaced (D.extent disk.old) ram.old standing.now }
    ensures ram { IsRamBut standing.now.spot ram.old ram.new }
    ensures takes { IsTrue D.told → TakesIn result standing.now.capacity payload.now
        (content_of standing.now.spot ram.new (D.flash disk.new).reads) }
    ensures any_moment { IsTrue D.told → Passes (D.flash disk.old) (D.flash disk.new)
        (IsEmptyOrWholeAt standing.now.spot payload.now (D.flash disk.old)) }
    ensures keeps { IsTrue D.told
        → Keeps (OutsideSpot standing.now.spot) (D.flash disk.old) (D.flash disk.new) }
    ensures size { D.extent disk.new ≡ D.extent disk.old }
    ensures counts { (host : ℕ)
        → FetchCounts result host host (D.faults disk.old) (D.faults disk.new) }
    ensures grows { IsTrue D.told → Grows (D.flash disk.old) (D.flash disk.new) }
{
    if standing.capacity < payload.len() as u64 {
        return match empty(disk, ram, standing.spot) {
            Ok(()) => Err(Cause::TooLarge),
            Err(FlashFault) => Err(Cause::FlashFault),
        };
    }
    match fill(disk, ram, standing.spot, payload) {
        Ok(()) => Ok(()),
        Err(FlashFault) => Err(Cause::FlashFault),
    }
}
