//! Maps of parameters (draft-ietf-suit-manifest-25, section 8.4.8), made by hand. The first byte has the place 100.

use crate::tests::rows::bytes_of;
use det_cbor::{Bytes, Cursor};
use lane_bytes::same;
use std::alloc::{AllocError, Global};
use suit_params::{
    Digest, Fault, ParamList, Refusal, Why, push_digest, read_digest, read_params, write_params,
};

// A map with each parameter, by the numbers of the draft.
const EACH: &str =
    "ac015001010101010101010101010101010101025002020202020202020202020202020202035824822f5820030303030303030303030303030303030303030303030303030303030303030305050cf50df40e0312420102156423696d67160117422d7618185018181818181818181818181818181818";

const KEYS: [u8; 12] = [1, 2, 3, 5, 12, 13, 14, 18, 21, 22, 23, 24];

fn has_keys(list: &ParamList) -> bool {
    for (param, key) in list.as_slice().iter().zip(KEYS.iter()) {
        if param.key().number() != *key {
            return false;
        }
    }
    list.len() == 12
}

fn copied(alloc: Global, list: &ParamList) -> Result<ParamList, AllocError> {
    let mut copies = ParamList::new(alloc);
    for param in list.as_slice() {
        copies.push(param.copy(alloc)?)?;
    }
    Ok(copies)
}

// Whether a copy of the list is written as these bytes.
fn is_written(alloc: Global, list: &ParamList, bytes: &[u8]) -> Result<bool, AllocError> {
    let copies = copied(alloc, list)?;
    let mut written = Bytes::new(alloc);
    write_params(alloc, &copies, &mut written)?;
    Ok(same(written.as_slice(), bytes))
}

// Whether the bytes are read as a list of each parameter, and written again.
fn are_each(alloc: Global, bytes: &[u8]) -> Result<bool, AllocError> {
    let mut cursor = Cursor::new(bytes, 100);
    match read_params(alloc, &mut cursor, 2) {
        Ok(list) => Ok(has_keys(&list) && cursor.left() == 0 && is_written(alloc, &list, bytes)?),
        Err(_) => Ok(false),
    }
}

#[test]
fn each_parameter_is_read_and_written_again(rt: HostRuntime) -> Result<(), AllocError> {
    let bytes = bytes_of(rt.alloc(), EACH)?;
    assert!(rt; are_each(rt.alloc(), bytes.as_slice())?);
    Ok(())
}

fn is_refused(alloc: Global, bytes: &[u8], place: u64, why: Why) -> bool {
    let mut cursor = Cursor::new(bytes, 100);
    match read_params(alloc, &mut cursor, 2) {
        Err(Fault::Refused(found)) => found == Refusal { place, why } && cursor.place() == 100,
        _ => false,
    }
}

#[test]
fn other_maps_are_refused(rt: HostRuntime) {
    assert!(rt; is_refused(rt.alloc(), b"\x80", 100, Why::Shape));
    assert!(rt; is_refused(rt.alloc(), b"\xa1\x04\x00", 101, Why::UnknownParam));
    assert!(rt; is_refused(rt.alloc(), b"\xa1\x05\x20", 102, Why::BadParam));
    assert!(rt; is_refused(rt.alloc(), b"\xa1\x16\x02", 102, Why::BadIndex(2, 2)));
    assert!(rt; is_refused(rt.alloc(), b"\xa1\x03\x43\x82\x2e\x40", 103, Why::Algorithm));
}

// The arrays of digests by each hash function (RFC 9054, section 2), each with one more byte.
const DIGESTS: &str = "
822f5820070707070707070707070707070707070707070707070707070707070707070700
82382a583007070707070707070707070707070707070707070707070707070707070707070707070707070707070707070707070700
82382b58400707070707070707070707070707070707070707070707070707070707070707070707070707070707070707070707070707070707070707070707070707070700
";

// Digests whose length is not that of their hash function, and two numbers that are not those of a hash function.
const OTHERS: &str = "
822f5830070707070707070707070707070707070707070707070707070707070707070707070707070707070707070707070707
82382a58200707070707070707070707070707070707070707070707070707070707070707
82382b5830070707070707070707070707070707070707070707070707070707070707070707070707070707070707070707070707
82382a584007070707070707070707070707070707070707070707070707070707070707070707070707070707070707070707070707070707070707070707070707070707
82382c584007070707070707070707070707070707070707070707070707070707070707070707070707070707070707070707070707070707070707070707070707070707
82182b584007070707070707070707070707070707070707070707070707070707070707070707070707070707070707070707070707070707070707070707070707070707
";

// Whether a digest and the byte after it are written as these bytes.
fn is_written_so(alloc: Global, digest: &Digest, bytes: &[u8]) -> Result<bool, AllocError> {
    let mut out = Bytes::new(alloc);
    push_digest(&mut out, digest)?;
    out.push(0)?;
    Ok(same(out.as_slice(), bytes))
}

// Whether the digest of a row is read up to the last byte, and written again.
fn is_read(alloc: Global, row: &str) -> Result<bool, AllocError> {
    let bytes = bytes_of(alloc, row)?;
    let mut cursor = Cursor::new(bytes.as_slice(), 100);
    match read_digest(&mut cursor) {
        Ok(digest) => { Ok(cursor.left() == 1 && is_written_so(alloc, &digest, bytes.as_slice())?) }
        Err(_) => Ok(false),
    }
}

#[test]
fn digests_of_three_lengths_are_read(rt: HostRuntime) -> Result<(), AllocError> {
    for row in DIGESTS.trim().lines() {
        assert!(rt; is_read(rt.alloc(), row)?, "{row}");
    }
    Ok(())
}

// Whether the digest of a row is refused for its algorithm, at the place of its array.
fn is_of_no_algorithm(alloc: Global, row: &str) -> Result<bool, AllocError> {
    let bytes = bytes_of(alloc, row)?;
    let mut cursor = Cursor::new(bytes.as_slice(), 100);
    match read_digest(&mut cursor) {
        Err(found) => Ok(found.place == 100 && matches!(found.why, Why::Algorithm)),
        Ok(_) => Ok(false),
    }
}

#[test]
fn other_lengths_and_numbers_are_refused(rt: HostRuntime) -> Result<(), AllocError> {
    for row in OTHERS.trim().lines() {
        assert!(rt; is_of_no_algorithm(rt.alloc(), row)?, "{row}");
    }
    Ok(())
}
