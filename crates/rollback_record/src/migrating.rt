//! Migration from layout version 1 to version 2.

ghost use Rattle.std.specs.Prelude.{◌≡◌, ◌⊎◌, IfOk, IsTrue};
ghost use Rattle.suit_edge.specs.Edge.{IfDone};
ghost use Rattle.suit_edge.specs.Faults.{EdgeCounts};
ghost use Rattle.suit_edge.specs.Flash.{Grows, IsSame, IsSettled, Keeps, Passes};
ghost use Rattle.flash_layout.specs.declared.key.Key.{Key};
ghost use Rattle.flash_layout.specs.Configs.{ConfigOf, Configured, IsAllowed};
ghost use Rattle.flash_layout.specs.Frames.{IsFrame, head_of};
ghost use Rattle.flash_layout.specs.Layouts.{IsLayout};
ghost use Rattle.rollback_record.specs.Migrating.{HasFirst, IfLeft, IfMigrated, IsMigrated, IsReady, MigrateCounts, MigratesExactly, OutsideMigration, IsSameInstallation};
ghost use Rattle.rollback_record.specs.Moved.{HasRoom, IsHeldRead, IsMovedTo, IsMoving, IsRootShut, IsRooted, IsRooting, OutsideMoved, OutsideRoot, StopCounts};

use crate::load::load_record_by;
use crate::moved::{Installed, Stop, fill, read_installed};
use flash_layout::{
    BaseFault, FlashFault, Frame, Key, Layout, Loaded, ROOT_GATE, VERSION_1, config_laws,
    load_config, moved, root_page,
};
use std::alloc::Global;
use suit_edge::{Disk, Edge, open_written};

/// How a migration ended.
#[derive(Clone, Copy, Debug, PartialEq, Eq)]
pub enum Migrated {
    /// The flash has layout version 2 with this frame, and holds the same as before.
    Done(Frame),
    /// The flash has no configuration.
    Blank,
    /// The configuration of the flash is wrong.
    BadConfig,
    /// The flash already has layout version 2.
    Already,
    /// The base is within the first 49,152 bytes, or what belongs there does not fit into the flash.
    BaseOutside,
    /// A slot of this component shares a byte with what belongs at the base. It is the first such component.
    BaseOverlap(u32),
    /// The flash failed. Its count of faults rose.
    FlashFault,
    /// Memory ran out before anything was written.
    NoMemory,
}

// Reads what is installed on a flash with this frame and layout, if anything is.
fn installed_on<D: Disk>(
    alloc: Global,
    disk: &mut D,
    frame: Frame,
    layout: &Layout,
) -> Result<Option<Installed>, Stop>
    requires frame { IsFrame (D.extent disk.old) frame }
    requires config { IsTrue D.told → (key : Key)
        × ConfigOf (D.extent disk.old) (D.flash disk.old).reads
        (Configured layout.now key frame) }
    ensures size { D.extent disk.new ≡ D.extent disk.old }
    ensures counts { StopCounts result (D.faults disk.old) (D.faults disk.new) }
    ensures read { IsTrue D.told
        → IfOk result (IsHeldRead frame (head_of frame (D.flash disk.old).reads)) }
    ensures room { IfOk result (HasRoom frame) }
    ensures same { IsTrue D.told → IsSame (D.flash disk.old) (D.flash disk.new) }
    ensures grows { IsTrue D.told → Grows (D.flash disk.old) (D.flash disk.new) }
{
    match load_record_by(disk, frame, layout) {
        Err(FlashFault) => Err(Stop::FlashFault),
        Ok(None) => Ok(None),
        Ok(Some(held)) => match read_installed(alloc, disk, frame, held) {
            Err(stop) => Err(stop),
            Ok(installed) => Ok(Some(installed)),
        },
    }
}

// Syncs all that was written, and then opens the root that points to it.
fn open_root<D: Disk>(disk: &mut D, frame: Frame) -> Edge
    requires frame { IsFrame (D.extent disk.old) frame }
    requires version { frame.version ≡ 2 }
    ensures size { D.extent disk.new ≡ D.extent disk.old }
    ensures counts { EdgeCounts result (D.faults disk.old) (D.faults disk.new) }
    ensures rooted { IsTrue D.told
        → IfDone result (IsRooted frame (D.flash disk.old).reads (D.flash disk.new).reads) }
    ensures settled { IsTrue D.told → IfDone result (IsSettled (D.flash disk.new)) }
    ensures any_moment { IsTrue D.told → IsRootShut (D.flash disk.old)
        → Passes (D.flash disk.old) (D.flash disk.new) (IsRooting frame (D.flash disk.old)) }
    ensures keeps { IsTrue D.told
        → Keeps OutsideRoot (D.flash disk.old) (D.flash disk.new) }
    ensures grows { IsTrue D.told → Grows (D.flash disk.old) (D.flash disk.new) }
{
    match disk.sync() {
        Edge::Failed => return Edge::Failed,
        Edge::Done => {}
    }
    let root = root_page(frame);
    match open_written(disk, ROOT_GATE, ROOT_GATE + 1, root.behind_gate()) {
        Edge::Failed => Edge::Failed,
        Edge::Done => Edge::Done,
    }
}

// Moves what the flash holds to a base that has room for it.
fn move_to<D: Disk>(
    disk: &mut D,
    layout: &Layout,
    key: &Key,
    frame: Frame,
    installed: &Option<Installed>,
) -> Edge
    requires frame { IsFrame (D.extent disk.old) frame }
    requires version { frame.version ≡ 2 }
    requires layout { IsLayout frame (D.extent disk.old) layout.now }
    requires room { HasRoom frame installed.now }
    ensures size { D.extent disk.new ≡ D.extent disk.old }
    ensures counts { EdgeCounts result (D.faults disk.old) (D.faults disk.new) }
    ensures moved { IsTrue D.told
        → IfDone result
        (IsMovedTo frame layout.now key.now installed.now (D.flash disk.new).reads) }
    ensures settled { IsTrue D.told → IfDone result (IsSettled (D.flash disk.new)) }
    ensures any_moment { IsTrue D.told → IsRootShut (D.flash disk.old)
        → Passes (D.flash disk.old) (D.flash disk.new)
        (IsMoving frame layout.now key.now installed.now (D.flash disk.old)) }
    ensures keeps { IsTrue D.told
        → Keeps (OutsideMoved frame) (D.flash disk.old) (D.flash disk.new) }
    ensures grows { IsTrue D.told → Grows (D.flash disk.old) (D.flash disk.new) }
{
    match fill(disk, layout, key, frame, installed) {
        Edge::Failed => return Edge::Failed,
        Edge::Done => {}
    }
    match open_root(disk, frame) {
        Edge::Failed => Edge::Failed,
        Edge::Done => Edge::Done,
    }
}

// Migrates a flash of layout version 1 that has this layout and key.
fn migrate_first<D: Disk>(
    alloc: Global,
    disk: &mut D,
    layout: &Layout,
    key: &Key,
    base: u64,
) -> Migrated
    requires allowed { IsAllowed VERSION_1 (D.extent disk.old) layout.now key.now }
    requires config { IsTrue D.told
        → ConfigOf (D.extent disk.old) (D.flash disk.old).reads
        (Configured layout.now key.now VERSION_1) }
    ensures size { D.extent disk.new ≡ D.extent disk.old }
    ensures counts { MigrateCounts result (D.faults disk.old) (D.faults disk.new) }
    ensures exact { IsTrue D.told
        → MigratesExactly base (D.extent disk.old) (D.flash disk.old).reads result }
    ensures left { IsTrue D.told → IfLeft result (IsSame (D.flash disk.old) (D.flash disk.new)) }
    ensures migrated { IsTrue D.told
        → IfMigrated result
        (IsMigrated base (D.flash disk.old).reads (D.flash disk.new).reads) }
    ensures settled { IsTrue D.told → IfMigrated result (IsSettled (D.flash disk.new)) }
    ensures any_moment { IsTrue D.told → IsReady (D.flash disk.old)
        → Passes (D.flash disk.old) (D.flash disk.new) (IsSameInstallation (D.flash disk.old).reads) }
    ensures keeps { IsTrue D.told
        → Keeps (OutsideMigration base) (D.flash disk.old) (D.flash disk.new) }
    ensures grows { IsTrue D.told → Grows (D.flash disk.old) (D.flash disk.new) }
{
    let frame = match moved(layout, disk.size(), base) {
        Err(BaseFault::Outside) => return Migrated::BaseOutside,
        Err(BaseFault::Overlap(component)) => return Migrated::BaseOverlap(component),
        Ok(frame) => frame,
    };
    let installed = match installed_on(alloc, disk, VERSION_1, layout) {
        Err(Stop::FlashFault) => return Migrated::FlashFault,
        Err(Stop::NoMemory) => return Migrated::NoMemory,
        Ok(installed) => installed,
    };
    match move_to(disk, layout, key, frame, &installed) {
        Edge::Failed => Migrated::FlashFault,
        Edge::Done => Migrated::Done(frame),
    }
}

/// Migrates a flash of layout version 1 to version 2 with this base. The layout, the key, the envelope and the content
/// of each slot stay the same, and so does the record but for its bank.
///
/// The pages and banks of version 1 are left as they are, and the root says which pages are valid. All memory is taken
/// before the first write. A power loss at any moment leaves a flash of either version that holds the same.
pub fn migrate<D: Disk>(alloc: Global, disk: &mut D, base: u64) -> Migrated
    ensures size { D.extent disk.new ≡ D.extent disk.old }
    ensures counts { MigrateCounts result (D.faults disk.old) (D.faults disk.new) }
    ensures exact { IsTrue D.told
        → MigratesExactly base (D.extent disk.old) (D.flash disk.old).reads result }
    ensures first { IsTrue D.told → IsSame (D.flash disk.old) (D.flash disk.new)
        ⊎ HasFirst (D.extent disk.old) (D.flash disk.old).reads (λ layout. Unit {0}) }
    ensures left { IsTrue D.told → IfLeft result (IsSame (D.flash disk.old) (D.flash disk.new)) }
    ensures migrated { IsTrue D.told
        → IfMigrated result
        (IsMigrated base (D.flash disk.old).reads (D.flash disk.new).reads) }
    ensures settled { IsTrue D.told → IfMigrated result (IsSettled (D.flash disk.new)) }
    ensures ready { IsTrue D.told → IsReady (D.flash disk.old)
        → IfMigrated result (IsReady (D.flash disk.new)) }
    ensures any_moment { IsTrue D.told → IsReady (D.flash disk.old)
        → Passes (D.flash disk.old) (D.flash disk.new) (IsSameInstallation (D.flash disk.old).reads) }
    ensures keeps { IsTrue D.told
        → Keeps (OutsideMigration base) (D.flash disk.old) (D.flash disk.new) }
    ensures grows { IsTrue D.told → Grows (D.flash disk.old) (D.flash disk.new) }
{
    match load_config(alloc, disk) {
        Loaded::Blank => Migrated::Blank,
        Loaded::BadConfig => Migrated::BadConfig,
        Loaded::FlashFault => Migrated::FlashFault,
        Loaded::NoMemory => Migrated::NoMemory,
        Loaded::Config(layout, key, frame) => {
            if frame.version == 2 {
                return Migrated::Already;
            }
            config_laws();
            migrate_first(alloc, disk, &layout, &key, base)
        }
    }
}
