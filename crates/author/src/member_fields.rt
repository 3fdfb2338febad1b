//! Members of a manifest in a description.

ghost use Rattle.std.specs.Prelude.{◌≡◌};
ghost use Rattle.serde_json.specs.View.{view};
ghost use Rattle.json_fields.specs.Answers.{Gives};
ghost use Rattle.author.specs.Members.{left_out, described_member, is_one_item, text_member_of};

use crate::commands::sequence;
use crate::digest_value::digest_spelled;
use crate::scope::Scope;
use det_cbor::Cursor;
use json_fields::{Draft, FlawKind, JsonFault, flawed, hex, object, required};
use serde_json::Value;
use std::alloc::Global;
use suit_commands::MAX_LEVELS;
use suit_manifest::{Member, TextMember};
use suit_params::Digest;

/// The field of a `{"digest": HEX}` that has been read.
#[derive(Drop)]
pub(crate) struct DigestField {
    digest: Option<Digest>,
}

impl Draft for DigestField {
    ghost use Rattle.author.specs.Members.{takes_digest};

    ghost takes = { takes_digest };

    fn take(&mut self, alloc: Global, key: &str, value: &Value) -> Result<(), JsonFault> {
        if key == "digest" {
            self.digest = Some(digest_spelled(alloc, value)?);
            Ok(())
        } else {
            flawed(alloc, FlawKind::Field)
        }
    }
}

// Reads the digest of a member that is left out.
fn left_out(alloc: Global, value: &Value) -> Result<Digest, JsonFault>
    ensures { Gives (λ digest. digest) result (left_out (view value.now)) }
{
    let mut field = DigestField { digest: None };
    object(alloc, value, &mut field)?;
    required(alloc, "digest", field.digest)
}

/// Reads the commands of a member, or the digest of one that is left out.
pub(crate) fn member(alloc: Global, value: &Value, scope: &Scope<'_>) -> Result<Member, JsonFault>
    ensures { Gives (λ m. m) result (described_member scope.now (view value.now)) }
{
    if value.is_object() {
        Ok(Member::Apart(left_out(alloc, value)?))
    } else {
        Ok(Member::Here(sequence(alloc, value, scope, MAX_LEVELS)?))
    }
}

/// Whether the bytes are exactly one item of deterministic CBOR. Does not allocate.
pub fn is_one_item(bytes: &[u8]) -> bool
    ensures { result ≡ is_one_item bytes.now }
{
    let mut cursor = Cursor::new(bytes, 0);
    match cursor.skip() {
        Ok(_) => cursor.left() == 0,
        Err(_) => false,
    }
}

/// Reads a text member, or the digest of one that is left out.
pub(crate) fn text_member(alloc: Global, value: &Value) -> Result<TextMember, JsonFault>
    ensures { Gives (λ m. m) result (text_member_of (view value.now)) }
{
    if value.is_object() {
        return Ok(TextMember::Apart(left_out(alloc, value)?));
    }
    let bytes = hex(alloc, value)?;
    if is_one_item(bytes.as_slice()) {
        Ok(TextMember::Here(bytes))
    } else {
        flawed(alloc, FlawKind::Field)
    }
}
