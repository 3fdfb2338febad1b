//! The files of a round.

ghost use Rattle.std.specs.Prelude.{◌≡◌, ◌∷◌, [], IfOk};
ghost use Rattle.conformance.specs.Rounds.{payload_got, spoiled};
ghost use Rattle.conformance.specs.Shapes.{got_name, image_name};

use author::FileList;
use det_cbor::{Bytes, Text};
use std::alloc::{AllocError, Global};

/// The file with the payload as it is described.
const IMAGE: &str = "img.bin";

/// The file with the payload as it is fetched.
const GOT: &str = "got.bin";

// Bytes that differ from the payload.
fn spoiled(alloc: Global, payload: &[u8]) -> Result<Bytes, AllocError>
    ensures { IfOk result (λ bytes. bytes ≡ spoiled payload.now) }
{
    let Some((first, rest)) = payload.split_first() else {
        return Bytes::from_slice(alloc, &[0]);
    };
    let mut bytes = Bytes::from_slice(alloc, &[*first ^ 1])?;
    bytes.extend(rest)?;
    Ok(bytes)
}

// The bytes that are fetched as the payload.
fn payload_got(alloc: Global, wrong: bool, payload: &[u8]) -> Result<Bytes, AllocError>
    ensures { IfOk result (λ bytes. bytes ≡ payload_got wrong payload.now) }
{
    if wrong {
        spoiled(alloc, payload)
    } else {
        Bytes::from_slice(alloc, payload)
    }
}

/// The two files of a payload: as it is described, and as it is fetched.
pub(crate) fn files_of(alloc: Global, wrong: bool, payload: Bytes) -> Result<FileList, AllocError>
    ensures { IfOk result (λ files. files
        ≡ (image_name, payload) ∷ (got_name, payload_got wrong payload) ∷ []) }
{
    let got = payload_got(alloc, wrong, payload.as_slice())?;
    let mut files = FileList::new(alloc);
    files.push((Text::from_str(alloc, IMAGE)?, payload))?;
    files.push((Text::from_str(alloc, GOT)?, got))?;
    Ok(files)
}
