//! Laws of disks, counts of faults, hosts, sinks and launchers. Each call here does nothing: its
//! contract is the law.

ghost use Rattle.std.specs.Prelude.{IsTrue};
ghost use Rattle.suit_edge.specs.DiskLaws.{DiskLaw};
ghost use Rattle.suit_edge.specs.FaultLaws.{FaultLaws};
ghost use Rattle.suit_edge.specs.HostLaws.{HostLaws};
ghost use Rattle.suit_edge.specs.LaunchLaws.{LaunchLaws};
ghost use Rattle.suit_edge.specs.LossLaws.{LossLaw};
ghost use Rattle.suit_edge.specs.SinkLaws.{SinkLaws};

use crate::Disk;

/// What holds of every disk between two moments of its life. A completed sync leaves no write
/// pending, the clock does not go back, no image has another length, and what reads return is
/// itself a possible image. A disk whose bytes change while its clock stands still can complete no
/// sync.
pub fn disk_laws<D: Disk>(before: &D, after: &D)
    ensures { IsTrue D.told
        → DiskLaw (D.extent before.now) (D.flash before.now) (D.flash after.now) }
{}

/// The images that a power loss may leave of a disk in memory: any bytes in the ranges written
/// since the last sync, and elsewhere what reads return.
pub fn loss_laws()
    ensures { LossLaw }
{}

/// A count of faults never falls, and it rises with each failed call until it reaches the end of 64
/// bits.
pub fn fault_laws()
    ensures { FaultLaws }
{}

/// How the answers of a host's calls fit together.
pub fn host_laws()
    ensures { HostLaws }
{}

/// What a sink holds after a put that succeeded, and after one that failed.
pub fn sink_laws()
    ensures { SinkLaws }
{}

/// Which count of faults rises in a launch.
pub fn launch_laws()
    ensures { LaunchLaws }
{}
