//! The key as HMAC uses it.

ghost use Rattle.std.specs.Prelude.{◌≡◌, ◌++◌, ◌-◌, ◌≤◌, length, map, bit_xor, replicate};
ghost use Rattle.sha2.specs.Sha256.{sha256};
ghost use Rattle.sha2.specs.Sha512.{sha512};
ghost use Rattle.hmac_mac0.specs.Hmac.{padded_key};

use sha2::{Digest, Sha256, Sha512};

// The length of a block of SHA-256, in bytes.
const BLOCK: usize = 64;

// The length of a block of SHA-512, in bytes.
const BLOCK_512: usize = 128;

/// The key in a block of SHA-256: padded with zeros, or hashed first if it is longer than a block.
pub(crate) fn padded(key: &[u8]) -> [u8; 64]
    ensures { result ≡ padded_key sha256 64 key.now }
{
    if key.len() <= BLOCK {
        filled(key)
    } else {
        filled(&Sha256::digest(key))
    }
}

/// The same for SHA-512.
pub(crate) fn padded512(key: &[u8]) -> [u8; 128]
    ensures { result ≡ padded_key sha512 128 key.now }
{
    if key.len() <= BLOCK_512 {
        filled(key)
    } else {
        filled(&Sha512::digest(key))
    }
}

// A key of at most a block, padded with zeros.
fn filled<const SIZE: usize>(key: &[u8]) -> [u8; SIZE]
    requires { length key.now ≤ SIZE }
    ensures { result ≡ key.now ++ replicate (SIZE - length key.now) 0 }
{
    let mut block = [0u8; SIZE];
    block[..key.len()].copy_from_slice(key);
    block
}

/// The block with each byte XORed with `with`.
pub(crate) fn xored<const SIZE: usize>(block: &[u8; SIZE], with: u8) -> [u8; SIZE]
    ensures { result ≡ map (λ b. bit_xor b with) block.now }
{
    let mut changed = *block;
    for byte in changed.iter_mut() {
        *byte ^= with;
    }
    changed
}
