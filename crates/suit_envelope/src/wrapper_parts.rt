//! The parts of an envelope's wrapper: the digest that it states, and its blocks.

ghost use Rattle.std.specs.Prelude.{◌≡◌, ℕ, List, length, option_map};
ghost use Rattle.std.specs.List.{slice_get};
ghost use Rattle.suit_envelope.specs.WrapperParts.{WrapperSays, HasWrapper, digest_from, count_from, passed_from, block_from};

use crate::Envelope;
use crate::wrapper::wrapper_of;
use det_cbor::Cursor;
use suit_params::{Digest, Refusal, bytes_left, only_item, read_content, read_head};

fn digest_of_wrapper(wrapper: &[u8]) -> Result<Digest, Refusal>
    ensures { result ≡ digest_from wrapper.now }
{
    let item = only_item(Cursor::new(wrapper, 0))?;
    wrapper_of(item)
}

pub(crate) fn count(wrapper: &[u8]) -> u64
    ensures { result ≡ count_from wrapper.now }
{
    let mut elements = Cursor::new(wrapper, 0);
    match read_head(&mut elements) {
        Ok(head) => head.value.saturating_sub(1),
        Err(_) => 0,
    }
}

fn pass(mut elements: Cursor<'_>, number: u64) -> Result<Cursor<'_>, Refusal>
    ensures { result ≡ passed_from number elements.entry }
{
    for _ in 0..number {
        read_content(&mut elements)?;
    }
    Ok(elements)
}

fn nth(wrapper: &[u8], number: u64) -> Result<Cursor<'_>, Refusal>
    ensures { result ≡ block_from number wrapper.now }
{
    let mut elements = Cursor::new(wrapper, 0);
    read_head(&mut elements)?;
    read_content(&mut elements)?;
    let mut rest = pass(elements, number)?;
    read_content(&mut rest)
}

/// The digest that the envelope's wrapper states. It is that of the manifest's whole byte string.
pub fn stated_digest(envelope: &Envelope<'_>) -> Digest
    requires { HasWrapper envelope.now.wrapper.now }
    ensures { (digest : Digest) (blocks : List (List ℕ))
        → WrapperSays envelope.now.wrapper.now digest blocks → result ≡ digest }
{
    match digest_of_wrapper(envelope.wrapper) {
        Ok(digest) => digest,
        Err(_) => unreachable!(),
    }
}

/// The number of authentication blocks.
#[tactic(auto, using(crate::proofs::WrapperLaws::count_read))]
pub fn blocks(envelope: &Envelope<'_>) -> u64
    ensures { (digest : Digest) (blocks : List (List ℕ))
        → WrapperSays envelope.now.wrapper.now digest blocks → result ≡ length blocks }
{
    count(envelope.wrapper)
}

/// The authentication block with this number, counted from 0, or `None` past the last one.
pub fn block<'a>(envelope: &Envelope<'a>, number: u64) -> Option<&'a [u8]>
    ensures { (digest : Digest) (blocks : List (List ℕ))
        → WrapperSays envelope.now.wrapper.now digest blocks
        → option_map (λ b. b.now) result ≡ slice_get blocks number }
{
    if number >= count(envelope.wrapper) {
        return None;
    }
    match nth(envelope.wrapper, number) {
        Ok(content) => Some(bytes_left(content)),
        Err(_) => None,
    }
}
