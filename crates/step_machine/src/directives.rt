//! Directives that act on contents, at one component.

ghost use Rattle.std.specs.Prelude.{◌≡◌, ◌<◌, ℕ, IsTrue, List, Some};
ghost use Rattle.step_machine.specs.Directives.{CauseCounts, WritesAs};
ghost use Rattle.step_machine.specs.Replacing.{IsEmptyOrWholeAt};
ghost use Rattle.step_machine.specs.Spots.{IsRamBut, IsSpot, OutsideSpot, content_of, room_at};
ghost use Rattle.suit_commands.specs.declared.kinds.ActKind.TheVariants as acts;
ghost use Rattle.suit_edge.specs.Flash.{Grows, Keeps, Passes};
ghost use Rattle.suit_params.specs.InForce.{bytes_of, in_force};
ghost use Rattle.suit_params.specs.declared.param.ParamKey.TheVariants as keys;

use crate::Standing;
use crate::filling::fill;
use crate::params_in_force::bytes;
use flash_layout::FlashFault;
use flash_slots::Ram;
use path_model::Cause;
use suit_cursor::SliceParams;
use suit_edge::Disk;
use suit_params::ParamKey;

/// Write: replaces the content of a component with the parameter in force (draft-ietf-suit-manifest-25, section
/// 8.4.10).
///
/// If the write is refused, nothing changes. After a fault of the flash the component may have any content. A power
/// loss on the way leaves the slot empty, or its bytes as they were, or the whole new content.
pub fn write<D: Disk>(
    disk: &mut D,
    ram: &mut Ram,
    standing: &Standing,
    params: &SliceParams<'_>,
) -> Result<(), Cause>
    requires component { standing.now.component < 8 }
    requires spot { IsSpot (D.extent disk.old) ram.old standing.now.spot }
    requires room { room_at standing.now.spot ram.old ≡ standing.now.capacity }
    ensures size { D.extent disk.new ≡ D.extent disk.old }
    ensures counts { CauseCounts result (D.faults disk.old) (D.faults disk.new) }
    ensures ram { IsRamBut standing.now.spot ram.old ram.new }
    ensures keeps { IsTrue D.told
        → Keeps (OutsideSpot standing.now.spot) (D.flash disk.old) (D.flash disk.new) }
    ensures grows { IsTrue D.told → Grows (D.flash disk.old) (D.flash disk.new) }
    ensures any_moment { IsTrue D.told → (content : List ℕ)
        → bytes_of (in_force params.now standing.now.component keys.Content) ≡ Some content
        → Passes (D.flash disk.old) (D.flash disk.new)
        (IsEmptyOrWholeAt standing.now.spot content (D.flash disk.old)) }
    ensures writes { IsTrue D.told
        → WritesAs acts.Write standing.now.component standing.now.capacity params.now
        (content_of standing.now.spot ram.old (D.flash disk.old).reads)
        (content_of standing.now.spot ram.new (D.flash disk.new).reads) result }
{
    match bytes(params.get(standing.component, ParamKey::Content)) {
        None => Err(Cause::Missing),
        Some(content) => {
            if standing.capacity < content.len() as u64 {
                return Err(Cause::TooLarge);
            }
            match fill(disk, ram, standing.spot, content) {
                Ok(()) => Ok(()),
                Err(FlashFault) => Err(Cause::FlashFault),
            }
        }
    }
}
