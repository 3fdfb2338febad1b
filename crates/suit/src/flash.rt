//! The flash of the program.

ghost use Rattle.std.specs.Prelude.{◌≡◌};
ghost use Rattle.suit.specs.Flashes.{is_second};

use nor_flash::{EitherDisk, FileNor, NorDisk};
use suit_edge::{Disk, FileDisk};

/// A disk in the file `suit.flash`, or one over NOR flash in the file `suit.nor`.
pub(crate) type Flash<'a> = EitherDisk<
    FileDisk<&'a HostRuntime>,
    NorDisk<FileNor<&'a HostRuntime>>,
>;

/// The flash: NOR flash in the file `suit.nor`, or else the file `suit.flash`. Both are of 4,194,304 bytes.
pub(crate) fn flash_of(rt: &HostRuntime, is_nor: bool) -> Flash<'_>
    ensures which { is_second result ≡ is_nor }
    ensures extent { ⟦<Flash<'static> as Disk>⟧.extent result ≡ 4194304 }
{
    if is_nor {
        EitherDisk::Second(NorDisk::new(FileNor::new(rt)))
    } else {
        EitherDisk::First(FileDisk::new(rt))
    }
}
