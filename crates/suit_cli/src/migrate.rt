//! The command `run migrate`: gives a flash of layout version 1 the layout of version 2.

ghost use Rattle.std.specs.Prelude.{◌≡◌, IsTrue};
ghost use Rattle.suit_edge.specs.Flash.{ImageOn, Passes};
ghost use Rattle.rollback_record.specs.Migrating.{OutsideMigration};
ghost use Rattle.suit_cli.specs.Coming.{KeepsSound};
ghost use Rattle.suit_cli.specs.Migrating.{IsToldAs, KeepsTold, migrates};
ghost use Rattle.suit_cli.specs.Outside.{Outside, with_flash};
ghost use Rattle.suit_cli.specs.Settling.{StaysSettled};
ghost use Rattle.suit_cli.specs.Stages.{ending_of};

use crate::device::fault_line;
use crate::outside::SeenDisk;
use crate::reply::{Object, Outcome, Reply, Stop, declined, refused_by};
use flash_layout::LayoutFault;
use rollback_record::{Migrated, migrate, migration_laws, sound_laws};
use std::alloc::Global;
use suit_edge::Disk;

// The answer to a migration, with this reply where it is done.
fn told(alloc: Global, migrated: Migrated, done: Reply) -> Result<Reply, Stop>
    ensures { IsToldAs migrated done result }
{
    match migrated {
        Migrated::Done(_) => Ok(done),
        Migrated::Blank => Err(declined(Reply::fixed(alloc, Outcome::Unconfigured, "blank\n"))),
        Migrated::BadConfig => Err(declined(Reply::fixed(
            alloc,
            Outcome::Unconfigured,
            "bad config\n",
        ))),
        Migrated::Already => Err(declined(Reply::fixed(
            alloc,
            Outcome::SecondLayout,
            "already layout 2\n",
        ))),
        Migrated::BaseOutside => Err(refused_by(fault_line(alloc, LayoutFault::BaseOutside))),
        Migrated::BaseOverlap(component) => {
            Err(refused_by(fault_line(alloc, LayoutFault::BaseOverlap(component))))
        }
        Migrated::FlashFault => Err(Stop::Fault(Object::Flash)),
        Migrated::NoMemory => Err(Stop::NoMemory),
    }
}

/// The reply to `run migrate BASE`. It is made before the first write, so memory cannot run out later.
pub(crate) fn run_migrate<D: Disk>(alloc: Global, base: u64, flash: &mut D) -> Result<Reply, Stop>
    ensures answer { (here : Outside) → migrates base
        (with_flash here (⟦<D as SeenDisk>⟧.seen flash.old))
        (with_flash here (⟦<D as SeenDisk>⟧.seen flash.new)) (ending_of result) }
    ensures extent { D.extent flash.new ≡ D.extent flash.old }
    ensures any_moment { IsTrue D.told → Passes (D.flash flash.old) (D.flash flash.new)
        (ImageOn (OutsideMigration base) (D.flash flash.old)) }
    ensures sound { IsTrue D.told → KeepsSound (D.flash flash.old) (D.flash flash.new) }
    ensures settled { IsTrue D.told → StaysSettled (D.flash flash.old) (D.flash flash.new)
        (D.faults flash.old) (D.faults flash.new) }
    ensures keeps { IsTrue D.told → KeepsTold (⟦<D as SeenDisk>⟧.seen flash.old)
        (ending_of result) (D.flash flash.old) (D.flash flash.new) }
{
    sound_laws();
    migration_laws();
    let done = Reply::fixed(alloc, Outcome::Done, "migrated\n")?;
    let migrated = migrate(alloc, flash, base);
    told(alloc, migrated, done)
}
