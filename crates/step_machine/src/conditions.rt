//! Conditions, at one component.

ghost use Rattle.flash_slots.specs.Contents.{ResultCounts};
ghost use Rattle.path_model.specs.DevicePlays.{fits_size, is_image, same_identifier, same_number};
ghost use Rattle.std.specs.Prelude.{◌≡◌, ◌<◌, ℕ, IfErr, IfOk, IsTrue, List, Some, length};
ghost use Rattle.std.specs.Str.{bytes_eq};
ghost use Rattle.step_machine.specs.Conditions.{CutsPlay, PassesAs};
ghost use Rattle.step_machine.specs.Holding.{Looks, holds};
ghost use Rattle.step_machine.specs.Spots.{IsSpot, content_of};
ghost use Rattle.suit_edge.specs.Flash.{Grows, IsSame};
ghost use Rattle.suit_params.specs.DigestBytes.{digest_bytes};

use crate::contents::{digest_at, length_at, same_at};
use crate::outside::Steps;
use crate::params_in_force::{bytes, digest, identifier, number};
use crate::{Spot, Standing};
use flash_layout::FlashFault;
use flash_slots::Ram;
use suit_commands::TestKind;
use suit_cursor::SliceParams;
use suit_edge::Disk;
use suit_params::{Digest, ParamKey};

fn is_same_id(wanted: Option<[u8; 16]>, own: Option<[u8; 16]>) -> bool
    ensures { result ≡ same_identifier wanted own }
{
    match wanted {
        Some(wanted) => match own {
            Some(own) => own == wanted,
            None => false,
        },
        None => false,
    }
}

fn is_slot(wanted: Option<u64>, own: u64) -> bool
    ensures { result ≡ same_number wanted (Some own) }
{
    match wanted {
        Some(wanted) => own == wanted,
        None => false,
    }
}

fn is_digest(found: &Digest, digest: &Digest) -> bool
    ensures { result ≡ bytes_eq (digest_bytes found.now) (digest_bytes digest.now) }
{
    found.bytes() == digest.bytes()
}

// Whether a content of `count` bytes has the size, if there is one.
fn has_size(count: u64, size: Option<u64>) -> bool
    ensures { (content : List ℕ) → count ≡ length content → result ≡ fits_size size content }
{
    match size {
        None => true,
        Some(size) => count == size,
    }
}

// Whether the content has the size, if there is one, and the digest. A content of another size is not read.
fn has_image<D: Disk>(
    disk: &mut D,
    ram: &Ram,
    spot: Spot,
    digest: Digest,
    size: Option<u64>,
    room: &mut [u8],
) -> Result<bool, FlashFault>
    requires spot { IsSpot (D.extent disk.old) ram.now spot }
    requires room { 0 < length room.old }
    ensures read { ⟦<D as Steps>⟧.only_reads (ResultCounts result) disk.old disk.new }
    ensures exact { IsTrue D.told
        → IfOk result
        (λ has. has ≡ is_image digest size (content_of spot ram.now (D.flash disk.old).reads)) }
{
    let count = length_at(disk, ram, spot)?;
    if !has_size(count, size) {
        return Ok(false);
    }
    let found = digest_at(disk, ram, spot, count, digest.kind(), room)?;
    Ok(is_digest(&found, &digest))
}

// Whether the condition holds. Reads the content through the room, if it has to.
fn holds_at<D: Disk>(
    disk: &mut D,
    ram: &Ram,
    kind: TestKind,
    standing: &Standing,
    params: &SliceParams<'_>,
    room: &mut [u8],
) -> Result<bool, FlashFault>
    requires room { 0 < length room.old }
    requires spot { IsSpot (D.extent disk.old) ram.now standing.now.spot }
    requires component { standing.now.component < 8 }
    ensures read { ⟦<D as Steps>⟧.only_reads (ResultCounts result) disk.old disk.new }
    ensures exact { IsTrue D.told → IfOk result (λ passed. passed
        ≡ holds kind standing.now.component params.now standing.now.identity
        (content_of standing.now.spot ram.now (D.flash disk.old).reads)) }
    ensures looks { IfErr result (λ fault. Looks kind standing.now.component params.now) }
{
    let component = standing.component;
    let own = standing.identity;
    match kind {
        TestKind::Vendor => Ok(is_same_id(
            identifier(params.get(component, ParamKey::Vendor)),
            own.vendor,
        )),
        TestKind::Class => Ok(is_same_id(
            identifier(params.get(component, ParamKey::Class)),
            own.class,
        )),
        TestKind::Device => Ok(is_same_id(
            identifier(params.get(component, ParamKey::Device)),
            own.device,
        )),
        TestKind::Slot => Ok(is_slot(number(params.get(component, ParamKey::Slot)), own.slot)),
        TestKind::ImageMatch => match digest(params.get(component, ParamKey::Digest)) {
            None => Ok(false),
            Some(digest) => {
                let size = number(params.get(component, ParamKey::Size));
                has_image(disk, ram, standing.spot, digest, size, room)
            }
        },
        TestKind::CheckContent => match bytes(params.get(component, ParamKey::Content)) {
            None => Ok(false),
            Some(wanted) => same_at(disk, ram, standing.spot, wanted, room),
        },
        TestKind::Abort => Ok(false),
    }
}

/// Returns whether a condition passes for a component, under the parameters in force (draft-ietf-suit-manifest-25,
/// section 8.4.9).
///
/// Reads the content through `room` if it has to, and changes nothing. Returns an error only if the content had to be
/// read.
pub fn passes<D: Disk>(
    disk: &mut D,
    ram: &Ram,
    standing: &Standing,
    params: &SliceParams<'_>,
    kind: TestKind,
    room: &mut [u8],
) -> Result<bool, FlashFault>
    requires component { standing.now.component < 8 }
    requires spot { IsSpot (D.extent disk.old) ram.now standing.now.spot }
    requires room { 0 < length room.old }
    ensures size { D.extent disk.new ≡ D.extent disk.old }
    ensures counts { ResultCounts result (D.faults disk.old) (D.faults disk.new) }
    ensures exact { IsTrue D.told
        → IfOk result (PassesAs kind standing.now.component params.now standing.now.identity
        (content_of standing.now.spot ram.now (D.flash disk.old).reads)) }
    ensures cuts { IfErr result (λ fault. CutsPlay kind standing.now.component params.now) }
    ensures same { IsTrue D.told → IsSame (D.flash disk.old) (D.flash disk.new) }
    ensures grows { IsTrue D.told → Grows (D.flash disk.old) (D.flash disk.new) }
{
    holds_at(disk, ram, kind, standing, params, room)
}
