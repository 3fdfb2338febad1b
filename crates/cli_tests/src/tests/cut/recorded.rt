//! The first update, before the second one or a migration.

ghost use Rattle.std.specs.Prelude.{◌≡◌, ◌≤◌};

use crate::session::{BEGUN, goes_after};
use std::alloc::{AllocError, Global};
use suit_edge::{Disk, Host, MemoryLauncher};

/// The second update.
pub(crate) const UPDATE: &str = "run update 2.suit img=abd.img";

/// A migration.
pub(crate) const MIGRATION: &str = "run migrate 65536";

/// Two sessions, one after the other.
pub(crate) type Sessions = (&'static str, &'static str);

/// The second envelope is made, and the first is installed.
const FIRST: &str = "make 2.json k 2.suit
0
made 175

run update 1.suit img=abc.img
0
installed 1";

/// A device of one slot is formatted, and the first envelope is made.
const ONE_SLOT: &str = "run init one k
0
ready

make 1.json k 1.suit
0
made 175";

/// The first update on a device of two slots.
pub(crate) const ON_TWO: Sessions = (BEGUN, FIRST);

/// The same on a device of one slot.
pub(crate) const ON_ONE: Sessions = (ONE_SLOT, FIRST);

/// The first on two slots, where the second one is started by its own install.
pub(crate) const AT_ONCE: Sessions = (
    BEGUN,
    "make 2-at-once.json k 2.suit
0
made 179

run update 1.suit img=abc.img
0
installed 1",
);

/// Whether the sessions go so and launch nothing.
pub(crate) fn goes_unlaunched<H: Host, D: Disk>(
    alloc: Global,
    host: &mut H,
    sessions: Sessions,
    flash: &mut D,
) -> Result<bool, AllocError>
    requires { 49152 ≤ D.extent flash.old }
    ensures { D.extent flash.new ≡ D.extent flash.old }
{
    let mut launcher = MemoryLauncher::new(alloc, &[])?;
    let goes = goes_after(alloc, host, flash, &mut launcher, sessions)?;
    Ok(goes && launcher.launches().is_empty())
}
