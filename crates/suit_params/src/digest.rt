//! SUIT_Digest.

ghost use Rattle.std.specs.Prelude.{◌≡◌, ◌<◌, ◌++◌, ◌-◌, ℕ, length, replicate, get_or, Ok, Err, IfOk, IfErr, OnErr};
ghost use Rattle.det_cbor.specs.HeadReading.{map_ok};
ghost use Rattle.det_cbor.specs.Position.{Position};
ghost use Rattle.suit_params.specs.declared.refusal.Refusal.{Refusal};
ghost use Rattle.suit_params.specs.Refusing.{RefusesNext, TakesNext};
ghost use Rattle.suit_params.specs.declared.digest.Digest.{Digest};
ghost use Rattle.suit_params.specs.DigestBytes.{digest_bytes, digest_kind, digest_by, as_digest, IsLong};
ghost use Rattle.suit_params.specs.DigestKinds.{size_of};
ghost use Rattle.suit_params.specs.Digests.{IsDigest, RefusesDigest};
ghost use Rattle.suit_params.specs.DigestReading.{value_at, algorithm_at, digest_at, next_digest};

use crate::digest_kind::{kind_of, kind_of_length};
use crate::refusal::refused;
use crate::{
    DigestKind, Refusal, Why, read_array, read_bytes, read_head, read_item, read_kind, same_place,
};
use det_cbor::{Cursor, HeadKind};

/// A digest, by its hash function.
#[derive(Clone, Copy, Debug, PartialEq, Eq)]
pub enum Digest {
    /// By SHA-256.
    Sha256([u8; 32]),
    /// By SHA-384.
    Sha384([u8; 48]),
    /// By SHA-512.
    Sha512([u8; 64]),
}

// Copies the bytes into an array.
fn array<const SIZE: usize>(bytes: &[u8]) -> [u8; SIZE]
    requires { length bytes.now ≡ SIZE }
    ensures { result ≡ bytes.now }
{
    let mut array = [0; SIZE];
    array.copy_from_slice(bytes);
    array
}

impl Digest {
    /// The digest with these bytes, by this hash function.
    pub fn new(kind: DigestKind, bytes: &[u8]) -> Digest
        requires { length bytes.now ≡ size_of kind }
        ensures { result ≡ digest_by kind bytes.now }
    {
        match kind {
            DigestKind::Sha256 => Digest::Sha256(array(bytes)),
            DigestKind::Sha384 => Digest::Sha384(array(bytes)),
            DigestKind::Sha512 => Digest::Sha512(array(bytes)),
        }
    }

    /// The digest with these bytes, if a hash function has digests of their length.
    pub fn from_bytes(bytes: &[u8]) -> Option<Digest>
        ensures { result ≡ as_digest bytes.now }
    {
        let kind = kind_of_length(bytes.len())?;
        Some(Digest::new(kind, bytes))
    }

    /// The hash function.
    pub fn kind(&self) -> DigestKind
        ensures { result ≡ digest_kind self.now }
    {
        match self {
            Digest::Sha256(_) => DigestKind::Sha256,
            Digest::Sha384(_) => DigestKind::Sha384,
            Digest::Sha512(_) => DigestKind::Sha512,
        }
    }

    /// The bytes of the digest.
    pub fn bytes(&self) -> &[u8]
        ensures is { result.now ≡ digest_bytes self.now }
        ensures long { IsLong self.now }
    {
        match self {
            Digest::Sha256(bytes) => bytes,
            Digest::Sha384(bytes) => bytes,
            Digest::Sha512(bytes) => bytes,
        }
    }

    /// The bytes of the digest, padded with zeros.
    pub fn padded(&self) -> [u8; 64]
        ensures { result ≡ digest_bytes self.now
            ++ replicate (64 - length (digest_bytes self.now)) 0 }
    {
        let bytes = self.bytes();
        let mut room = [0u8; 64];
        room[..bytes.len()].copy_from_slice(bytes);
        room
    }
}

// Reads the second element of a digest. `array` is the place of the digest's array.
#[tactic(auto, unfolding(crate::specs::DigestReading::value_at))]
fn value(item: &mut Cursor<'_>, array: u64, kind: DigestKind) -> Result<Digest, Refusal>
    ensures { map_ok (λ d. (d, item.new)) result ≡ value_at array kind item.old }
{
    let count = read_kind(item, HeadKind::Bytes, Why::Shape)?;
    if count != kind.size() as u64 {
        return refused(array, Why::Algorithm);
    }
    let bytes = read_bytes(item, count)?;
    Ok(Digest::new(kind, bytes))
}

// Reads the first element of a digest. `array` is the place of the digest's array.
#[tactic(auto, unfolding(crate::specs::DigestReading::algorithm_at))]
fn algorithm(item: &mut Cursor<'_>, array: u64) -> Result<DigestKind, Refusal>
    ensures { map_ok (λ kind. (kind, item.new)) result ≡ algorithm_at array item.old }
{
    let place = item.place();
    let head = read_head(item)?;
    match head.kind {
        HeadKind::Negative => match kind_of(head.value) {
            Some(kind) => Ok(kind),
            None => refused(array, Why::Algorithm),
        },
        HeadKind::Unsigned => refused(array, Why::Algorithm),
        _ => refused(place, Why::Shape),
    }
}

/// Reads `item`, one item that was judged before, as a digest.
#[tactic(auto, unfolding(crate::specs::DigestReading::digest_at))]
pub fn digest_of(mut item: Cursor<'_>) -> Result<Digest, Refusal>
    ensures { result ≡ digest_at item.entry }
{
    let array = item.place();
    let elements = read_array(&mut item)?;
    if elements == 2 {
        let kind = algorithm(&mut item, array)?;
        value(&mut item, array, kind)
    } else {
        refused(array, Why::Shape)
    }
}

fn next_digest(cursor: &mut Cursor<'_>) -> Result<Digest, Refusal>
    ensures { map_ok (λ d. (d, cursor.new)) result ≡ next_digest cursor.old }
{
    let item = read_item(cursor)?;
    digest_of(item)
}

// Reads with a second cursor, so that a refusal leaves the first one alone.
fn digest_ahead(cursor: &mut Cursor<'_>) -> Result<Digest, Refusal>
    ensures exact { map_ok (λ d. (d, cursor.new)) result ≡ next_digest cursor.old }
    ensures same { OnErr result (cursor.new ≡ cursor.old) }
    ensures bytes { (i : ℕ) → get_or cursor.old.left i 0 < 256 }
{
    let mut ahead = same_place(cursor);
    let digest = next_digest(&mut ahead)?;
    *cursor = ahead;
    Ok(digest)
}

/// Reads a SUIT_Digest (draft-ietf-suit-manifest-25, section 10). The next item is judged as CBOR
/// first, and then as a digest. After a refusal the cursor is where it was.
pub fn read_digest(cursor: &mut Cursor<'_>) -> Result<Digest, Refusal>
    ensures exact { map_ok (λ d. (d, cursor.new)) result ≡ next_digest cursor.old }
    ensures ok { IfOk result (λ d. TakesNext IsDigest cursor.old cursor.new d) }
    ensures refused { IfErr result (RefusesNext RefusesDigest cursor.old) }
    ensures same { OnErr result (cursor.new ≡ cursor.old) }
    ensures every_digest { (new : Position) (d : Digest) → TakesNext IsDigest cursor.old new d
        → result ≡ Ok d }
    ensures every_refusal { (r : Refusal) → RefusesNext RefusesDigest cursor.old r
        → result ≡ Err r }
{
    digest_ahead(cursor)
}
