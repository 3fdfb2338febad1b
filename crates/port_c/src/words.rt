//! The words of a command.

ghost use Rattle.port_c.specs.Words.{AreWords};
ghost use Rattle.std.specs.Prelude.{◌≡◌, ◌==◌, IfOk, map};
ghost use Rattle.std.specs.List.{slice_split};

use det_cbor::{Names, Text};
use std::alloc::{AllocError, Global};
use std::str;

// Splits a text at zeros.
fn parts(alloc: Global, text: &str) -> Result<Vec<&str>, AllocError>
    ensures { IfOk result (λ v. map (λ x. x.now) v.items ≡ slice_split (λ b. b == 0) text.now) }
{
    text.split('\0').collect(alloc)
}

/// Splits bytes into words at zeros. Bytes that are not UTF-8 become the one word `-`, which no command takes.
pub(crate) fn words_of(alloc: Global, bytes: &[u8]) -> Result<Names, AllocError>
    ensures { IfOk result (AreWords bytes.now) }
{
    let mut names = Names::new(alloc);
    let Ok(text) = str::from_utf8(bytes) else {
        names.push(Text::from_str(alloc, "-")?)?;
        return Ok(names);
    };
    let words = parts(alloc, text)?;
    for word in words.as_slice() {
        names.push(Text::from_str(alloc, word)?)?;
    }
    Ok(names)
}
