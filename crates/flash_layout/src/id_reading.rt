//! Reading an identifier from its spelling.

ghost use Rattle.std.specs.Prelude.{◌≤◌, length};
ghost use Rattle.suit_params.specs.Answering.{Gives};
ghost use Rattle.flash_layout.specs.PageReading.{identifier_at, parts_from};

use det_cbor::Cursor;
use std::alloc::Global;
use suit_params::{Fault, Identifier, copy_left, read_array, read_content};

// Reads the next `count` byte strings.
fn read_parts(alloc: Global, mut items: Cursor<'_>, count: u64) -> Result<Identifier, Fault>
    ensures { Gives (λ id. id) result (parts_from count items.entry) }
{
    let mut parts = Identifier::new(alloc);
    for _ in 0..count {
        let content = read_content(&mut items)?;
        parts.push(copy_left(alloc, content)?)?;
    }
    Ok(parts)
}

/// Reads the identifier at the front of the bytes.
#[tactic(auto, unfolding(crate::specs::PageReading::identifier_at))]
pub(crate) fn read_identifier(alloc: Global, bytes: &[u8]) -> Result<Identifier, Fault>
    requires { length bytes.now ≤ 64 }
    ensures { Gives (λ id. id) result (identifier_at bytes.now) }
{
    let mut item = Cursor::new(bytes, 0);
    let count = read_array(&mut item)?;
    read_parts(alloc, item, count)
}
