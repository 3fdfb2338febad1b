//! The components of a manifest in their active slots.

ghost use Rattle.flash_layout.specs.Layouts.{IsLayout};
ghost use Rattle.flash_layout.specs.Placement.{ArePlaces};
ghost use Rattle.flash_slots.specs.RamContents.{empty_ram};
ghost use Rattle.invoke_proc.specs.Booting.{StandActive};
ghost use Rattle.std.specs.Prelude.{◌≡◌, ℕ, None, length};
ghost use Rattle.step_machine.specs.Worlds.{AreDistinct, AreStandings};

use admission::Start;
use flash_layout::{Frame, Layout, Record};
use flash_slots::Ram;
use step_machine::{SlotChoice, Uris, World, slots_in_use};

/// The world of the invocation procedure: each component of the manifest in its active slot, empty working memory, and
/// no payloads.
pub(crate) fn world_in<'a>(
    layout: &Layout,
    frame: Frame,
    installed: &Record,
    ram: Ram,
    uris: &'a Uris,
    startable: &Start<'_>,
) -> World<'a>
    requires layout { (size : ℕ) × IsLayout frame size layout.now }
    requires placed { ArePlaces layout.now startable.now.manifest.components startable.now.places }
    requires distinct { AreDistinct layout.now startable.now.places }
    requires ram { ram ≡ empty_ram layout.now }
    ensures stand { StandActive layout.now startable.now.manifest.components installed.now.active
        result.standings.items }
    ensures count { length result.standings.items ≡ length startable.now.manifest.components }
    ensures ram { result.ram ≡ empty_ram layout.now }
    ensures uris { result.uris.now ≡ uris.now }
    ensures envelope { result.envelope ≡ None }
    ensures fit { (size : ℕ) → IsLayout frame size layout.now
        → AreStandings size result.ram result.standings.items }
{
    let slots = SlotChoice {
        number: slots_in_use(layout, &installed.active),
    };
    let payloads = None;
    World::with_ram(
        ram,
        layout,
        frame,
        &startable.places,
        &slots,
        uris,
        payloads,
    )
}
