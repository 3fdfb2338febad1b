//! Whether an envelope is authentic under a key.

ghost use Rattle.std.specs.Prelude.{◌≡◌, List, ℕ, IfOk, IfErr};
ghost use Rattle.suit_envelope.specs.Macs.{BlocksSay};
ghost use Rattle.suit_envelope.specs.Authentic.{IsAuthentic, AnswersAuthentic, TellsDifference, payload_of, first_from};
ghost use Rattle.suit_envelope.specs.declared.authenticity.Authenticity.TheVariants.{Yes};
ghost use Rattle.suit_envelope.specs.WrapperParts.{WrapperSays, HasWrapper};

use crate::Envelope;
use crate::macs::scan;
use crate::string_hash::string_like;
use crate::wrapper_parts::{count, stated_digest};
use det_cbor::Cursor;
use hmac_mac0::{MacTag, MacVerdict};
use suit_params::{Digest, Refusal, bytes_left, read_content, read_head};

/// Whether an envelope is authentic, and if not, why.
#[derive(Clone, Copy, Debug, PartialEq, Eq)]
pub enum Authenticity<'a> {
    /// The wrapper's digest is the manifest's, and one of the blocks verifies.
    Yes,
    /// The wrapper states another digest than that of the manifest's byte string.
    DigestDiffers { stated: Digest, found: Digest },
    /// No block is a Mac0 block.
    NoMac,
    /// No block verifies. These are the tag computed for the first Mac0 block, and that block's
    /// tag.
    MacDiffers { expected: MacTag, found: &'a [u8] },
}

/// Reads the first byte string of a wrapper, and returns a cursor over the blocks after it too.
pub(crate) fn first_string(wrapper: &[u8]) -> Result<(Cursor<'_>, Cursor<'_>), Refusal>
    ensures { result ≡ first_from wrapper.now }
{
    let mut elements = Cursor::new(wrapper, 0);
    read_head(&mut elements)?;
    let content = read_content(&mut elements)?;
    Ok((content, elements))
}

// Verifies the blocks, with the first byte string as their payload.
fn macs<'a>(wrapper: &'a [u8], key: &[u8]) -> Result<MacVerdict<'a>, Refusal>
    ensures says { IfOk result
        (λ answer. (digest : Digest) (blocks : List (List ℕ))
        → WrapperSays wrapper.now digest blocks
        → BlocksSay key.now (payload_of digest) blocks answer) }
    ensures read { IfErr result (λ _. HasWrapper wrapper.now → ⊥) }
{
    let (content, rest) = first_string(wrapper)?;
    scan(rest, count(wrapper), key, bytes_left(content))
}

fn answer<'a>(envelope: &Envelope<'a>, key: &[u8]) -> Authenticity<'a>
    requires { HasWrapper envelope.now.wrapper.now }
    ensures { (digest : Digest) (blocks : List (List ℕ))
        → WrapperSays envelope.now.wrapper.now digest blocks
        → AnswersAuthentic digest blocks envelope.now.manifest.now key.now result }
{
    let stated = stated_digest(envelope);
    let found = string_like(&stated, envelope.manifest);
    if stated != found {
        return Authenticity::DigestDiffers { stated, found };
    }
    match macs(envelope.wrapper, key) {
        Ok(MacVerdict::Verified) => Authenticity::Yes,
        Ok(MacVerdict::OtherKind) => Authenticity::NoMac,
        Ok(MacVerdict::Differs { expected, found }) => Authenticity::MacDiffers { expected, found },
        Err(_) => unreachable!(),
    }
}

/// Whether the envelope is authentic under a key (draft-ietf-suit-manifest-25, section 8.3).
///
/// The wrapper's digest comes first: it must be that of the manifest's whole byte string, by the
/// digest's own hash function. Then come the blocks, whose payload is the content of the wrapper's
/// first byte string. Allocates nothing.
pub fn authentic<'a>(envelope: &Envelope<'a>, key: &[u8]) -> Authenticity<'a>
    requires { HasWrapper envelope.now.wrapper.now }
    ensures yes { result ≡ Yes
        → IsAuthentic envelope.now.wrapper.now envelope.now.manifest.now key.now }
    ensures every_yes { IsAuthentic envelope.now.wrapper.now envelope.now.manifest.now key.now
        → result ≡ Yes }
    ensures answers { (digest : Digest) (blocks : List (List ℕ))
        → WrapperSays envelope.now.wrapper.now digest blocks
        → AnswersAuthentic digest blocks envelope.now.manifest.now key.now result }
    ensures differs { TellsDifference result }
{
    answer(envelope, key)
}
