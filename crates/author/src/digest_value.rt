//! Digests in hexadecimal digits.

ghost use Rattle.serde_json.specs.View.{view};
ghost use Rattle.json_fields.specs.Answers.{Gives};
ghost use Rattle.author.specs.DigestValues.{digest_spelled};

use json_fields::{FlawKind, JsonFault, flawed, hex};
use serde_json::Value;
use std::alloc::Global;
use suit_params::Digest;

/// Reads a digest. Its length tells the hash function.
pub(crate) fn digest_spelled(alloc: Global, value: &Value) -> Result<Digest, JsonFault>
    ensures { Gives (λ digest. digest) result (digest_spelled (view value.now)) }
{
    let bytes = hex(alloc, value)?;
    match Digest::from_bytes(bytes.as_slice()) {
        Some(digest) => Ok(digest),
        None => flawed(alloc, FlawKind::Hex),
    }
}
