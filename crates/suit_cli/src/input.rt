//! The stages that read a named file.

ghost use Rattle.suit_cli.specs.Outside.{Flashed};
ghost use Rattle.suit_cli.specs.Stages.{Does};
ghost use Rattle.suit_cli.specs.Inputs.{file, key_in};

use crate::outside::SeenHost;
use crate::reply::{Object, Outcome, Reply, Stop, declined};
use det_cbor::Bytes;
use std::alloc::Global;
use suit_edge::{Host, Taken, take_all};

/// The longest file that is read, in bytes.
pub(crate) const LONGEST_FILE: u64 = 1_048_576;

/// The longest description of a device, in bytes.
pub(crate) const LONGEST_DEVICE: u64 = 65_536;

/// The longest key, in bytes.
const LONGEST_KEY: u64 = 64;

/// Reads a named file. At most one byte beyond the limit is pulled.
pub(crate) fn read<H: Host>(
    alloc: Global,
    name: &str,
    limit: u64,
    host: &mut H,
) -> Result<Bytes, Stop>
    ensures { (flash : Flashed) → Does (file limit name.now)
        (⟦<H as SeenHost>⟧.seen host.old flash) (⟦<H as SeenHost>⟧.seen host.new flash) result }
{
    match take_all(alloc, host, name, limit) {
        Taken::Got(bytes) => Ok(bytes),
        Taken::Absent => Err(declined(Reply::named(alloc, Outcome::Absent, "absent ", name))),
        Taken::TooLong(_) => Err(declined(Reply::named(
            alloc,
            Outcome::TooLong,
            "too long ",
            name,
        ))),
        Taken::HostFault => Err(Stop::Fault(Object::Host)),
        Taken::NoMemory => Err(Stop::NoMemory),
    }
}

/// Reads the key in a named file. At most 65 bytes are pulled.
pub(crate) fn read_key<H: Host>(alloc: Global, name: &str, host: &mut H) -> Result<Bytes, Stop>
    ensures { (flash : Flashed) → Does (key_in name.now)
        (⟦<H as SeenHost>⟧.seen host.old flash) (⟦<H as SeenHost>⟧.seen host.new flash) result }
{
    let key = read(alloc, name, LONGEST_KEY, host)?;
    if key.is_empty() {
        Err(declined(Reply::fixed(alloc, Outcome::Refused, "empty key\n")))
    } else {
        Ok(key)
    }
}
