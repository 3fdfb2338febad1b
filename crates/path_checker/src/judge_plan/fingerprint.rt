//! Fingerprints: equal states have equal ones, and different states mostly have different ones. A salt is mixed into
//! them.

use std::hash::Hasher;
use suit_params::Param;

/// Mixes a number into a fingerprint.
pub(crate) fn mixed(print: u64, number: u64) -> u64 {
    let product = (print ^ number).wrapping_mul(0x9e37_79b9_7f4a_7c15);
    product ^ (product >> 32)
}

/// The fingerprint of a byte slice. The salt is mixed in after each word, so that none makes up for the one before it.
pub(crate) fn of_bytes(bytes: &[u8], salt: u64) -> u64 {
    let mut print = salt;
    let mut left = bytes;
    while let Some((eight, rest)) = left.split_first_chunk::<8>() {
        print = mixed(mixed(print, u64::from_le_bytes(*eight)), salt);
        left = rest;
    }
    for byte in left {
        print = mixed(print, u64::from(*byte));
    }
    print
}

/// The fingerprint of a parameter. Contents, URIs and invoke arguments count by their length alone.
pub(crate) fn of_param(param: Option<&Param>, salt: u64) -> u64 {
    match param {
        Some(Param::Vendor(id)) => of_bytes(&id[..], salt),
        Some(Param::Class(id)) => of_bytes(&id[..], salt),
        Some(Param::Device(id)) => of_bytes(&id[..], salt),
        Some(Param::Digest(digest)) => digest.hashed().hasher().finish(),
        Some(Param::Slot(number)) => mixed(salt, *number),
        Some(Param::Size(size)) => mixed(salt, *size),
        Some(Param::Source(component)) => mixed(salt, *component as u64),
        Some(Param::Content(bytes)) => mixed(salt, bytes.len() as u64),
        Some(Param::Uri(text)) => mixed(salt, text.len() as u64),
        Some(Param::Args(bytes)) => mixed(salt, bytes.len() as u64),
        _ => 0,
    }
}
