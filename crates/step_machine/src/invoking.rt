//! Invoke, at one component.

ghost use Rattle.flash_layout.specs.Slots.{extent_of, slot_content};
ghost use Rattle.flash_slots.specs.Contents.{ResultCounts};
ghost use Rattle.std.specs.Option.{option_copied};
ghost use Rattle.std.specs.Prelude.{◌≡◌, ◌<◌, ◌≤◌, ◌+◌, IfOk, IfSome, IsTrue, option_map};
ghost use Rattle.step_machine.specs.Invoking.{InvokeCounts, InvokesAs, IsImageOf, result_of};
ghost use Rattle.step_machine.specs.Spots.{IsSpot, content_of};
ghost use Rattle.suit_edge.specs.Flash.{Grows, IsSame};
ghost use Rattle.suit_edge.specs.Launch.{LiesWithin};
ghost use Rattle.suit_params.specs.DigestBytes.{IsLong, digest_bytes};
ghost use Rattle.suit_params.specs.InForce.{bytes_of, digest_in, in_force, size_in};
ghost use Rattle.suit_params.specs.declared.param.ParamKey.TheVariants as keys;

use crate::outside::Steps;
use crate::params_in_force::{bytes, digest, number};
use crate::{Spot, Standing};
use flash_layout::{FlashFault, LENGTH_SIZE, Slot};
use flash_slots::{Ram, length};
use path_model::Cause;
use suit_cursor::SliceParams;
use suit_edge::{Disk, Image, Label, Launched, Launcher};
use suit_params::{Digest, ParamKey};

// ---- the image

// A slot's content as an image that can be launched.
fn image_in<'a, D: Disk>(disk: &mut D, slot: Slot) -> Result<Image<'a>, FlashFault>
    requires slot { slot.start + extent_of slot ≤ D.extent disk.old }
    ensures read { ⟦<D as Steps>⟧.only_reads (ResultCounts result) disk.old disk.new }
    ensures within { IfOk result (LiesWithin (D.extent disk.new)) }
    ensures image { IsTrue D.told
        → IfOk result
        (IsImageOf (D.flash disk.old).reads (slot_content slot (D.flash disk.old).reads)) }
{
    // Each place of the slot fits a u64, since the flash's size does.
    let _size = disk.size();
    let length = length(disk, slot)?;
    Ok(Image::Flash {
        place: slot.start + LENGTH_SIZE,
        length,
    })
}

// A content as an image that can be launched.
fn image_at<'a, D: Disk>(disk: &mut D, ram: &'a Ram, spot: Spot) -> Result<Image<'a>, FlashFault>
    requires spot { IsSpot (D.extent disk.old) ram.now spot }
    ensures read { ⟦<D as Steps>⟧.only_reads (ResultCounts result) disk.old disk.new }
    ensures within { IfOk result (LiesWithin (D.extent disk.new)) }
    ensures image { IsTrue D.told
        → IfOk result
        (IsImageOf (D.flash disk.old).reads
        (content_of spot ram.now (D.flash disk.old).reads)) }
{
    match spot {
        Spot::Flash(slot) => image_in(disk, slot),
        Spot::Ram(component) => Ok(Image::Ram(ram.content(component))),
    }
}

// ---- the parameters of a launch

fn digest_for(params: &SliceParams<'_>, component: u32) -> Option<Digest>
    requires { component < 8 }
    ensures { result ≡ digest_in params.now component }
{
    digest(params.get(component, ParamKey::Digest))
}

fn digest_bytes(digest: &Option<Digest>) -> Option<&[u8]>
    ensures is { option_copied result ≡ option_map digest_bytes digest.now }
    ensures long { IfSome digest.now IsLong }
{
    match digest {
        Some(digest) => Some(digest.bytes()),
        None => None,
    }
}

fn size_for(params: &SliceParams<'_>, component: u32) -> Option<u64>
    requires { component < 8 }
    ensures { result ≡ size_in params.now component }
{
    number(params.get(component, ParamKey::Size))
}

fn args_for<'a>(params: &SliceParams<'a>, component: u32) -> Option<&'a [u8]>
    requires { component < 8 }
    ensures { option_copied result ≡ bytes_of (in_force params.now component keys.Args) }
{
    bytes(params.get(component, ParamKey::Args))
}

// ---- the launch

fn outcome_of(launched: Launched) -> Result<(), Cause>
    ensures { result ≡ result_of launched }
{
    match launched {
        Launched::Done => Ok(()),
        Launched::DiskFailed => Err(Cause::FlashFault),
        Launched::Failed => Err(Cause::LaunchFault),
    }
}

/// Invoke: hands the content to the launcher, with the digest, the size and the arguments in force
/// (draft-ietf-suit-manifest-25, section 8.4.10). If it fails, nothing was launched.
pub fn invoke<D: Disk, L: Launcher>(
    disk: &mut D,
    launcher: &mut L,
    ram: &Ram,
    standing: &Standing,
    params: &SliceParams<'_>,
) -> Result<(), Cause>
    requires component { standing.now.component < 8 }
    requires spot { IsSpot (D.extent disk.old) ram.now standing.now.spot }
    ensures size { D.extent disk.new ≡ D.extent disk.old }
    ensures counts { InvokeCounts result (L.faults launcher.old) (L.faults launcher.new)
        (D.faults disk.old) (D.faults disk.new) }
    ensures invokes { IsTrue D.told → IsTrue L.told → InvokesAs standing.now.component params.now
        (content_of standing.now.spot ram.now (D.flash disk.old).reads) (L.launches launcher.old)
        (L.launches launcher.new) result }
    ensures same { IsTrue D.told → IsSame (D.flash disk.old) (D.flash disk.new) }
    ensures grows { IsTrue D.told → Grows (D.flash disk.old) (D.flash disk.new) }
{
    let image = match image_at(disk, ram, standing.spot) {
        Ok(image) => image,
        Err(FlashFault) => return Err(Cause::FlashFault),
    };
    let component = standing.component;
    let in_force = digest_for(params, component);
    let digest = digest_bytes(&in_force);
    let size = size_for(params, component);
    let args = args_for(params, component);
    let label = Label {
        component,
        digest,
        size,
        args,
    };
    let launched = launcher.launch(disk, image, label);
    outcome_of(launched)
}
