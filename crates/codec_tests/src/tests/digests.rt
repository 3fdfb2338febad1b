//! Compares digests with examples from outside.

use crate::tests::rows::{bytes_of, split_field};
use lane_bytes::same;
use std::alloc::{AllocError, Global};
use suit_params::{Digest, DigestKind, Hasher};

// A piece, how often the message repeats it, and the digests of the message by SHA-384 and SHA-512: messages of one
// block and of two, and a million letters (FIPS 180-2, appendices C and D, to which FIPS 180-4 refers).
const EXAMPLES: &str = "
abc 1 cb00753f45a35e8bb5a03d699ac65007272c32ab0eded1631a8b605a43ff5bed8086072ba1e7cc2358baeca134c825a7 ddaf35a193617abacc417349ae20413112e6fa4e89a97ea20a9eeee64b55d39a2192992a274fc1a836ba3c23a3feebbd454d4423643ce80e2a9ac94fa54ca49f
abcdefghbcdefghicdefghijdefghijkefghijklfghijklmghijklmnhijklmnoijklmnopjklmnopqklmnopqrlmnopqrsmnopqrstnopqrstu 1 09330c33f71147e83d192fc782cd1b4753111b173b3b05d22fa08086e3b0f712fcc7c71a557e2db966c3e9fa91746039 8e959b75dae313da8cf4f72814fc143f8f7779c6eb9f7fa17299aeadb6889018501d289e4900f7e4331b99dec4b5433ac7d329eeb6dd26545e96e55b874be909
aaaaaaaaaa 100000 9d0e1809716474cb086e834e310a4a1ced149e9c00f248527972cec5704c2a5b07b8b3dc38ecc4ebae97ddd87f3d8985 e718483d0ce769644e2e42c7bc15b4638e1f98b13b2044285632a803afa973ebde0ff244877ea60a4cb0432ce577c31beb009c5c2c49aa2e4eadb217ad8cc09b
";

fn digest_of(kind: DigestKind, piece: &str, count: usize) -> Digest {
    let mut hasher = Hasher::new(kind);
    for _ in 0..count {
        hasher.update(piece.as_bytes());
    }
    hasher.finish()
}

fn has_digest(
    alloc: Global,
    kind: DigestKind,
    piece: &str,
    count: usize,
    digits: &str,
) -> Result<bool, AllocError> {
    let wanted = bytes_of(alloc, digits)?;
    Ok(same(digest_of(kind, piece, count).bytes(), wanted.as_slice()))
}

// Whether the message of a row has both digests.
fn has_both(alloc: Global, row: &str) -> Result<bool, AllocError> {
    let (piece, rest) = split_field(row);
    let (times, digits) = split_field(rest);
    let (by_384, by_512) = split_field(digits);
    match times.parse::<usize>() {
        Ok(count) => Ok(
            has_digest(alloc, DigestKind::Sha384, piece, count, by_384)?
                && has_digest(alloc, DigestKind::Sha512, piece, count, by_512)?,
        ),
        Err(_) => Ok(false),
    }
}

#[test]
fn the_examples_of_sha_384_and_sha_512_agree(rt: HostRuntime) -> Result<(), AllocError> {
    for row in EXAMPLES.trim().lines() {
        assert!(rt; has_both(rt.alloc(), row)?, "{row}");
    }
    Ok(())
}
