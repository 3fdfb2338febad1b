//! Verifying the blocks of a wrapper together.

ghost use Rattle.std.specs.Prelude.{◌≡◌, List, ℕ, Ok, IfOk, IfErr};
ghost use Rattle.suit_envelope.specs.Macs.{BlocksSay, contents_from, kept, last_answer};

use det_cbor::Cursor;
use hmac_mac0::{MacTag, MacVerdict, verify};
use suit_params::{Refusal, bytes_left, read_content};

/// The tag of a block, and the one that was computed and differs.
#[derive(Clone, Copy, Debug)]
pub(crate) struct Difference<'a> {
    pub(crate) expected: MacTag,
    pub(crate) found: &'a [u8],
}

fn kept<'a>(first: Option<Difference<'a>>, next: Difference<'a>) -> Difference<'a>
    ensures { result ≡ kept first.entry next.entry }
{
    match first {
        Some(difference) => difference,
        None => next,
    }
}

fn last<'a>(first: Option<Difference<'a>>) -> MacVerdict<'a>
    ensures { result ≡ last_answer first.entry }
{
    match first {
        None => MacVerdict::OtherKind,
        Some(difference) => MacVerdict::Differs {
            expected: difference.expected,
            found: difference.found,
        },
    }
}

/// Verifies the next `count` blocks.
///
/// The verdict is `Verified` if one of them verifies, and `OtherKind` if none is a Mac0 block.
/// Otherwise it is how the first Mac0 block differs.
pub(crate) fn scan<'a>(
    mut elements: Cursor<'a>,
    count: u64,
    key: &[u8],
    payload: &[u8],
) -> Result<MacVerdict<'a>, Refusal>
    ensures says { IfOk result
        (λ answer. (blocks : List (List ℕ)) → contents_from count elements.entry ≡ Ok blocks
        → BlocksSay key.now payload.now blocks answer) }
    ensures read { IfErr result
        (λ _. (blocks : List (List ℕ)) → contents_from count elements.entry ≡ Ok blocks → ⊥) }
{
    let mut first: Option<Difference<'a>> = None;
    for _ in 0..count {
        let content = read_content(&mut elements)?;
        let block = bytes_left(content);
        match verify(block, key, payload) {
            MacVerdict::Verified => return Ok(MacVerdict::Verified),
            MacVerdict::OtherKind => {}
            MacVerdict::Differs { expected, found } => {
                first = Some(kept(first, Difference { expected, found }));
            }
        }
    }
    Ok(last(first))
}
