//! The digest of a byte string, its head and its content, without allocating.

ghost use Rattle.std.specs.Prelude.{◌≡◌, ◌++◌, ◌∷◌, List, ℕ};
ghost use Rattle.det_cbor.specs.Heads.{head_bytes};
ghost use Rattle.suit_params.specs.HasherState.{HasHashed};
ghost use Rattle.suit_params.specs.declared.digest_kind.DigestKind.{DigestKind};
ghost use Rattle.suit_envelope.specs.Members.{string_digest, string_like};

use det_cbor::{HeadKind, ShortHead};
use suit_params::{Digest, DigestKind, Hasher};

// Adds a first byte and the bytes after it.
fn add_parts(hasher: &mut Hasher, first: u8, rest: &[u8])
    ensures { (kind : DigestKind) (message : List ℕ) → HasHashed hasher.old kind message
        → HasHashed hasher.new kind (message ++ first ∷ rest.now) }
{
    hasher.update(&[first]);
    hasher.update(rest);
}

// Adds the head of a byte string.
fn add_head(hasher: &mut Hasher, length: u64)
    ensures { (kind : DigestKind) (message : List ℕ) → HasHashed hasher.old kind message
        → HasHashed hasher.new kind (message ++ head_bytes 2 length) }
{
    let head = ShortHead::new(HeadKind::Bytes, length);
    let (first, behind) = head.parts();
    add_parts(hasher, first, behind);
}

/// The digest of the byte string with this content.
pub fn string_digest(kind: DigestKind, content: &[u8]) -> Digest
    ensures { result ≡ string_digest kind content.now }
{
    let mut hasher = Hasher::new(kind);
    add_head(&mut hasher, content.len() as u64);
    hasher.update(content);
    hasher.finish()
}

/// The digest of the byte string with this content, by the hash function of another digest.
pub fn string_like(digest: &Digest, content: &[u8]) -> Digest
    ensures { result ≡ string_like digest.now content.now }
{
    string_digest(digest.kind(), content)
}
