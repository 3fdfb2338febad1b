//! The authentication wrapper.

ghost use Rattle.std.specs.Prelude.{◌≡◌};
ghost use Rattle.det_cbor.specs.HeadReading.{map_ok};
ghost use Rattle.suit_envelope.specs.WrapperReading.{blocks_from, digest_held_from, wrapper_at};

use det_cbor::{Cursor, HeadKind};
use suit_params::{Digest, Refusal, Why, digest_of, only_item, read_content, read_head, refused};

// Reads the next byte string, and returns the digest that it holds.
fn digest_held(elements: &mut Cursor<'_>) -> Result<Digest, Refusal>
    ensures { map_ok (λ d. (d, elements.new)) result ≡ digest_held_from elements.old }
{
    let content = read_content(elements)?;
    let item = only_item(content)?;
    digest_of(item)
}

// Reads the next `count` byte strings, which are the blocks.
fn blocks(mut elements: Cursor<'_>, count: u64) -> Result<(), Refusal>
    ensures { result ≡ blocks_from count elements.entry }
{
    for _ in 0..count {
        read_content(&mut elements)?;
    }
    Ok(())
}

/// Reads a whole item that was judged before as a wrapper, and returns its digest.
#[tactic(auto, unfolding(crate::specs::WrapperReading::wrapper_at))]
pub(crate) fn wrapper_of(mut item: Cursor<'_>) -> Result<Digest, Refusal>
    ensures { result ≡ wrapper_at item.entry }
{
    let place = item.place();
    let head = read_head(&mut item)?;
    match head.kind {
        HeadKind::Array if head.value > 0 => {
            let digest = digest_held(&mut item)?;
            blocks(item, head.value - 1)?;
            Ok(digest)
        }
        _ => refused(place, Why::Shape),
    }
}
