//! Fetch, at one component.

ghost use Rattle.path_model.specs.declared.cause.Cause.TheVariants as causes;
ghost use Rattle.path_model.specs.Settings.{found_under};
ghost use Rattle.std.specs.Prelude.{[], ◌≡◌, ◌≢◌, ◌⊎◌, ◌<◌, ◌≤◌, ◌+◌, ◌==◌, ℕ, Err, IsTrue, List, Some, get_or, length};
ghost use Rattle.std.specs.Option.{option_and_then};
ghost use Rattle.step_machine.specs.Fetching.{ArePayloads, AreRequests, AsksAtMost, FetchCounts, FetchesAs, Request, TakesNamed, TakesOf, asked_at, fetch_of, file_by, file_named};
ghost use Rattle.step_machine.specs.Replacing.{IsReplaced};
ghost use Rattle.step_machine.specs.Spots.{IsPlaced, IsRamBut, IsSpot, OutsideSpot, content_of, room_at};
ghost use Rattle.suit_edge.specs.Flash.{Grows, Keeps};

use crate::outside::{Pulls, Steps};
use crate::params_in_force::bytes;
use crate::payloads::{fill_with, payload_of};
use crate::taking::take_into;
use crate::uris::name_of;
use crate::{Sources, Standing, Uris};
use flash_slots::Ram;
use path_model::Cause;
use suit_cursor::SliceParams;
use suit_edge::{Disk, Host, Started};
use suit_envelope::Envelope;
use suit_params::ParamKey;

// Whether a URI is the key of a payload.
fn is_key(uri: &[u8]) -> bool
    ensures { result ≡ (get_or uri.now 0 0 == 35) }
{
    match uri.first() {
        Some(first) => *first == b'#',
        None => false,
    }
}

// Replaces the content with the payload that has this key.
fn fetch_payload<D: Disk>(
    disk: &mut D,
    ram: &mut Ram,
    envelope: Option<&Envelope<'_>>,
    standing: &Standing,
    key: &[u8],
) -> Result<(), Cause>
    requires placed { IsPlaced (D.extent disk.old) ram.old standing.now }
    ensures size { D.extent disk.new ≡ D.extent disk.old }
    ensures counts { (host : ℕ)
        → FetchCounts result host host (D.faults disk.old) (D.faults disk.new) }
    ensures ram { IsRamBut standing.now.spot ram.old ram.new }
    ensures takes { IsTrue D.told → (payloads : List (List ℕ × List ℕ))
        → ArePayloads envelope.entry payloads
        → TakesNamed result standing.now.capacity (found_under payloads key.now)
        (content_of standing.now.spot ram.old (D.flash disk.old).reads)
        (content_of standing.now.spot ram.new (D.flash disk.new).reads) }
    ensures replaced { IsTrue D.told → IsReplaced standing.now.spot
        (λ file. (payloads : List (List ℕ × List ℕ)) → ArePayloads envelope.entry payloads
        → file ≡ found_under payloads key.now)
        (D.flash disk.old) (D.flash disk.new) }
    ensures keeps { IsTrue D.told
        → Keeps (OutsideSpot standing.now.spot) (D.flash disk.old) (D.flash disk.new) }
    ensures grows { IsTrue D.told → Grows (D.flash disk.old) (D.flash disk.new) }
{
    match payload_of(envelope, key) {
        Some(payload) => fill_with(disk, ram, standing, payload),
        None => Err(Cause::Absent),
    }
}

// Replaces the content with the file of this name. The file is started first, so that nothing changes if there is none.
fn fetch_named<H: Host, D: Disk>(
    host: &mut H,
    name: &str,
    disk: &mut D,
    ram: &mut Ram,
    standing: &Standing,
    room: &mut [u8],
) -> Result<(), Cause>
    requires room { 0 < length room.old }
    requires placed { IsPlaced (D.extent disk.old) ram.old standing.now }
    ensures ram { IsRamBut standing.now.spot ram.old ram.new }
    ensures takes { IsTrue D.told → (requests : List Request)
        × ((words : List (List ℕ × List ℕ)) → words ≢ []
        → AreRequests H.told words (H.file host.old) (H.asked host.old) (H.asked host.new) requests)
        × TakesOf (Some name.now) requests result standing.now.capacity
        (content_of standing.now.spot ram.old (D.flash disk.old).reads)
        (content_of standing.now.spot ram.new (D.flash disk.new).reads) }
    ensures replaced { IsTrue D.told → IsReplaced standing.now.spot
        (λ file. IsTrue H.told → file ≡ H.file host.old name.now)
        (D.flash disk.old) (D.flash disk.new) }
    ensures keeps { IsTrue D.told
        → Keeps (OutsideSpot standing.now.spot) (D.flash disk.old) (D.flash disk.new) }
    ensures goes { ⟦<D as Steps>⟧.goes_on
        (FetchCounts result (H.faults host.old) (H.faults host.new)) disk.old disk.new }
    ensures pulls { ⟦<H as Pulls>⟧.pulls standing.now.capacity host.old host.new }
    ensures asked { IsTrue H.told
        → AsksAtMost (Some name.now) (standing.now.capacity + 1)
        (asked_at (H.asked host.old) (H.pulled host.old))
        (asked_at (H.asked host.new) (H.pulled host.new)) }
{
    match host.start(name) {
        Started::Done => take_into(host, disk, ram, standing, room),
        Started::Absent => Err(Cause::Absent),
        Started::Failed => Err(Cause::HostFault),
    }
}

// Replaces the content with the file that answers the URI.
fn fetch_file<H: Host, D: Disk>(
    host: &mut H,
    disk: &mut D,
    ram: &mut Ram,
    uris: &Uris,
    standing: &Standing,
    uri: &[u8],
    room: &mut [u8],
) -> Result<(), Cause>
    requires placed { IsPlaced (D.extent disk.old) ram.old standing.now }
    requires room { 0 < length room.old }
    ensures unasked { uris.now ≡ [] → host.new ≡ host.old }
    ensures goes { ⟦<D as Steps>⟧.goes_on
        (FetchCounts result (H.faults host.old) (H.faults host.new)) disk.old disk.new }
    ensures pulls { ⟦<H as Pulls>⟧.pulls standing.now.capacity host.old host.new }
    ensures ram { IsRamBut standing.now.spot ram.old ram.new }
    ensures takes { IsTrue D.told → (requests : List Request)
        × AreRequests H.told uris.now (H.file host.old) (H.asked host.old) (H.asked host.new)
        requests
        × TakesOf (found_under uris.now uri.now) requests result standing.now.capacity
        (content_of standing.now.spot ram.old (D.flash disk.old).reads)
        (content_of standing.now.spot ram.new (D.flash disk.new).reads) }
    ensures replaced { IsTrue D.told → IsReplaced standing.now.spot
        (λ file. IsTrue H.told ⊎ (uris.now ≡ [])
        → file ≡ option_and_then (H.file host.old) (found_under uris.now uri.now))
        (D.flash disk.old) (D.flash disk.new) }
    ensures asked { IsTrue H.told
        → AsksAtMost (found_under uris.now uri.now) (standing.now.capacity + 1)
        (asked_at (H.asked host.old) (H.pulled host.old))
        (asked_at (H.asked host.new) (H.pulled host.new)) }
    ensures named { result ≡ Err causes.HostFault
        → (name : List ℕ) × (found_under uris.now uri.now ≡ Some name) }
    ensures keeps { IsTrue D.told
        → Keeps (OutsideSpot standing.now.spot) (D.flash disk.old) (D.flash disk.new) }
{
    match name_of(uris, uri) {
        Some(name) => fetch_named(host, name, disk, ram, standing, room),
        None => Err(Cause::Absent),
    }
}

/// Fetch: replaces the content of a component with what the URI in force names (draft-ietf-suit-manifest-25, section
/// 8.4.10). A URI that begins with `#` names a payload of the envelope; without an envelope there are none. Any other
/// URI names the file that answers it.
///
/// If there is no such payload or file, nothing changes. One that is too large leaves the content empty, a fault of the
/// host leaves the old content or none, and a fault of the flash leaves any. A power loss on the way leaves the slot
/// empty, or its bytes as they were, or the whole file.
///
/// The host is asked for the file once, unless it fails before, and for nothing if the URI begins with `#`. At most one
/// byte more is pulled than there is room for. A host that does not tell what it holds gives some file or none. If no
/// URI has the name of a file, the host is not called.
pub fn fetch<H: Host, D: Disk>(
    host: &mut H,
    disk: &mut D,
    ram: &mut Ram,
    sources: &Sources<'_>,
    standing: &Standing,
    params: &SliceParams<'_>,
    room: &mut [u8],
) -> Result<(), Cause>
    requires component { standing.now.component < 8 }
    requires spot { IsSpot (D.extent disk.old) ram.old standing.now.spot }
    requires capacity { room_at standing.now.spot ram.old ≡ standing.now.capacity }
    requires room { 0 < length room.old }
    ensures size { D.extent disk.new ≡ D.extent disk.old }
    ensures counts { FetchCounts result (H.faults host.old) (H.faults host.new) (D.faults disk.old)
        (D.faults disk.new) }
    ensures files { IsTrue H.told → H.file host.new ≡ H.file host.old }
    ensures unasked { sources.now.uris.now ≡ [] → host.new ≡ host.old }
    ensures asked { IsTrue H.told
        → AsksAtMost (file_named standing.now.component params.now sources.now.uris.now)
        (standing.now.capacity + 1) (asked_at (H.asked host.old) (H.pulled host.old))
        (asked_at (H.asked host.new) (H.pulled host.new)) }
    ensures pulled { IsTrue H.told
        → H.pulled host.new ≤ H.pulled host.old + (standing.now.capacity + 1) }
    ensures ram { IsRamBut standing.now.spot ram.old ram.new }
    ensures fetches { IsTrue D.told → (requests : List Request)
        × AreRequests H.told sources.now.uris.now (H.file host.old) (H.asked host.old)
        (H.asked host.new) requests
        × ((payloads : List (List ℕ × List ℕ)) → ArePayloads sources.now.envelope payloads
        → FetchesAs (fetch_of standing.now.component standing.now.capacity params.now payloads
        sources.now.uris.now) requests
        (content_of standing.now.spot ram.old (D.flash disk.old).reads)
        (content_of standing.now.spot ram.new (D.flash disk.new).reads) result) }
    ensures replaced { IsTrue D.told → IsReplaced standing.now.spot
        (λ file. IsTrue H.told ⊎ (sources.now.uris.now ≡ []) → (payloads : List (List ℕ × List ℕ))
        → ArePayloads sources.now.envelope payloads
        → file ≡ file_by standing.now.component params.now payloads sources.now.uris.now
        (H.file host.old))
        (D.flash disk.old) (D.flash disk.new) }
    ensures keeps { IsTrue D.told
        → Keeps (OutsideSpot standing.now.spot) (D.flash disk.old) (D.flash disk.new) }
    ensures grows { IsTrue D.told → Grows (D.flash disk.old) (D.flash disk.new) }
{
    match bytes(params.get(standing.component, ParamKey::Uri)) {
        None => Err(Cause::Missing),
        Some(uri) => {
            if is_key(uri) {
                return fetch_payload(disk, ram, sources.envelope, standing, uri);
            }
            fetch_file(host, disk, ram, sources.uris, standing, uri, room)
        }
    }
}
