//! The parts of a description, with its files.

ghost use Rattle.std.specs.Prelude.{◌≡◌, Ok, IfOk};
ghost use Rattle.author.specs.Bare.{described_bare};
ghost use Rattle.author.specs.Descriptions.{described};
ghost use Rattle.author.specs.Held.{value_of};

use crate::bare::read_bare;
use crate::fields::Described;
use crate::severing::Severed;
use crate::{Description, FileList};
use json_fields::JsonFault;
use std::alloc::{AllocError, Global};

/// The parts of a description whose files have these bytes. A file that is not listed is empty.
pub(crate) fn parts_of<'a>(
    alloc: Global,
    description: &Description,
    files: &'a FileList,
) -> Result<Described<'a>, AllocError>
    ensures { IfOk result (λ p. described files.now (value_of description.now) ≡ Ok p) }
{
    match Described::read(alloc, &description.value, files) {
        Ok(parts) => Ok(parts),
        Err(JsonFault::NoMemory) => Err(AllocError),
        Err(JsonFault::Flawed(_)) => unreachable!(),
    }
}

/// The parts of a description without the contents of these members.
pub(crate) fn bare_parts_of<'a>(
    alloc: Global,
    description: &Description,
    files: &'a FileList,
    severed: Severed,
) -> Result<Described<'a>, AllocError>
    ensures { IfOk result
        (λ p. described_bare files.now severed (value_of description.now) ≡ Ok p) }
{
    match read_bare(alloc, &description.value, files, severed) {
        Ok(parts) => Ok(parts),
        Err(JsonFault::NoMemory) => Err(AllocError),
        Err(JsonFault::Flawed(_)) => unreachable!(),
    }
}
