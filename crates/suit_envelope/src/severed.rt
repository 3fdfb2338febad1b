//! The severed members of an envelope, checked against their digests.

ghost use Rattle.std.specs.Prelude.{◌≡◌, ◌↔◌, ℕ, List, Some, option_map};
ghost use Rattle.suit_envelope.specs.Members.{member_of, string_like, AnswersMember, IsGot};
ghost use Rattle.suit_envelope.specs.Said.{said_by};

use crate::Envelope;
use crate::string_hash::string_like;
use suit_params::Digest;

/// The members that an envelope can hold apart from the manifest.
#[derive(Clone, Copy, Debug, PartialEq, Eq)]
pub enum MemberName {
    PayloadFetch,
    Install,
    Text,
}

/// A severed member, or why it cannot be had.
#[derive(Clone, Copy, Debug, PartialEq, Eq)]
pub enum MemberBytes<'a> {
    /// The content of its byte string.
    Got(&'a [u8]),
    /// The envelope has no such member.
    Severed,
    /// The digest that was stated is not that of the member's byte string.
    Differs { stated: Digest, found: Digest },
}

fn content<'a>(envelope: &Envelope<'a>, name: MemberName) -> Option<&'a [u8]>
    ensures { option_map (λ s. s.now) result ≡ member_of (said_by envelope.now) name }
{
    match name {
        MemberName::PayloadFetch => envelope.payload_fetch,
        MemberName::Install => envelope.install,
        MemberName::Text => envelope.text,
    }
}

// The answer for a member, given the digest stated for it.
fn judged<'a>(member: Option<&'a [u8]>, stated: &Digest) -> MemberBytes<'a>
    ensures { AnswersMember (option_map (λ s. s.now) member.entry) stated.now result }
{
    match member {
        None => MemberBytes::Severed,
        Some(bytes) => {
            let found = string_like(stated, bytes);
            if found == *stated {
                MemberBytes::Got(bytes)
            } else {
                MemberBytes::Differs {
                    stated: *stated,
                    found,
                }
            }
        }
    }
}

/// The severed member, checked against the digest that the manifest states
/// (draft-ietf-suit-manifest-25, section 8.3). That digest is of the whole byte string, its head
/// and its content, by the digest's own hash function.
#[tactic(auto, using(crate::proofs::MemberAnswers::got_alone))]
pub fn member<'a>(envelope: &Envelope<'a>, name: MemberName, stated: &Digest) -> MemberBytes<'a>
    ensures answers { AnswersMember (member_of (said_by envelope.now) name) stated.now
        result }
    ensures got { (content : List ℕ) → member_of (said_by envelope.now) name ≡ Some content
        → (IsGot content result ↔ (string_like stated.now content ≡ stated.now)) }
{
    judged(content(envelope, name), stated)
}
