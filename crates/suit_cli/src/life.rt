//! Laws of the whole life of a flash that only this program writes. The functions do nothing; their contracts are the
//! laws.

ghost use Rattle.suit_edge.specs.Flash.{IsSettled};
ghost use Rattle.rollback_record.specs.SoundFlash.{Settled, Sound};
ghost use Rattle.suit_cli.specs.LaunchedLaws.{LaunchedLaws};
ghost use Rattle.suit_cli.specs.LaunchedUpdateLaws.{LaunchedUpdateLaws};
ghost use Rattle.suit_cli.specs.LifeLaws.{AreZeros, LifeLaws, SoundnessLaws};

use flash_layout::config_laws;
use invoke_proc::boot_laws;
use rollback_record::{installed_laws, record_laws, sound_laws};
use suit_edge::Disk;

/// A life begins with a flash of zero bytes or with a sound one. Each next image is sound and goes on from the one before
/// it, as `run` says of each image that a power loss may leave. Then every image is sound, each goes on from all earlier
/// ones, and the recorded number never goes down.
pub fn life_laws()
    ensures { LifeLaws }
{
    config_laws();
    sound_laws();
}

/// Which images are sound: one of zero bytes, and one that was formatted; and one with a record only where the record's
/// bank holds what is installed.
pub fn soundness_laws()
    ensures { SoundnessLaws }
{
    config_laws();
    record_laws();
    sound_laws();
    installed_laws();
}

/// A flash of zero bytes with nothing pending, such as a new disk in memory, is settled: `run` may begin on it.
pub fn new_flash_laws<D: Disk>(flash: &D)
    ensures { IsSettled (D.flash flash.now) → AreZeros (D.flash flash.now).reads
        → Settled (D.flash flash.now) }
{}

/// A flash that reads a sound image and has nothing pending, such as a disk started again after a power loss, is settled:
/// `run` may go on from each image of a life.
pub fn restart_laws<D: Disk>(flash: &D)
    ensures { IsSettled (D.flash flash.now) → Sound (D.flash flash.now).reads
        → Settled (D.flash flash.now) }
{}

/// A boot of a sound flash, and so of each image of a life, launches nothing, or just what the invocation procedure of the
/// recorded manifest invokes, each with the digest that was in force, and the size where one was.
pub fn launched_laws()
    ensures { LaunchedLaws }
{
    config_laws();
    record_laws();
    boot_laws();
    life_laws();
}

/// An update launches nothing, or just what the update procedure of the accepted file invokes, each with the digest that was in
/// force, and the size where one was, whatever the flash holds and a host gives.
pub fn launched_update_laws()
    ensures { LaunchedUpdateLaws }
{
    record_laws();
}
