//! Writing digests.

ghost use Rattle.std.specs.Prelude.{◌≡◌, ◌++◌, OnOk, OnErr};
ghost use Rattle.det_cbor.specs.DataItem.{spell};
ghost use Rattle.det_cbor.specs.Prefix.{IsPrefix};
ghost use Rattle.suit_params.specs.DigestBytes.{IsDigestBytes};
ghost use Rattle.suit_params.specs.Digests.{digest_item};

use crate::Digest;
use det_cbor::{Bytes, HeadKind, push_count, push_kind, push_string};
use std::alloc::AllocError;

/// Appends the one spelling of a digest's array (draft-ietf-suit-manifest-25, section 10). If
/// memory runs out, a part of it may have been appended.
pub fn push_digest(out: &mut Bytes, digest: &Digest) -> Result<(), AllocError>
    ensures ok { OnOk result (out.new ≡ out.old ++ spell (digest_item digest.now)) }
    ensures err { OnErr result (IsPrefix out.old out.new) }
    ensures fits { OnOk result (IsDigestBytes digest.now) }
{
    push_count(out, 2)?;
    push_kind(out, HeadKind::Negative, digest.kind().argument())?;
    push_string(out, digest.bytes())?;
    Ok(())
}
