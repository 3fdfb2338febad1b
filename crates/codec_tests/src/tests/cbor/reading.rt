//! Reads and writes items from outside: the examples of RFC 8949, appendix A, and encodings that are not deterministic.
//! Bytes are in hexadecimal.

use crate::tests::rows::{bytes_of, name_of};
use det_cbor::{CborFault, CborRefusal, Cursor, Item, decode, encode, valid};
use lane_bytes::same;
use std::alloc::{AllocError, Global};

/// Whether an item is valid, and these bytes spell it.
pub(crate) fn is_spelled(alloc: Global, item: &Item, bytes: &[u8]) -> Result<bool, AllocError> {
    if !valid(item) {
        return Ok(false);
    }
    let spelling = encode(alloc, item)?;
    Ok(same(spelling.as_slice(), bytes))
}

// Whether bytes are decoded as one item, which is encoded as the same bytes.
fn is_decoded(alloc: Global, bytes: &[u8]) -> Result<bool, AllocError> {
    match decode(alloc, bytes) {
        Ok((item, used)) => Ok(used == bytes.len() && is_spelled(alloc, &item, bytes)?),
        Err(_) => Ok(false),
    }
}

fn is_skipped(bytes: &[u8]) -> bool {
    let mut cursor = Cursor::new(bytes, 100);
    cursor.skip() == Ok(bytes)
}

fn is_read(alloc: Global, bytes: &[u8]) -> Result<bool, AllocError> {
    Ok(is_skipped(bytes) && is_decoded(alloc, bytes)?)
}

fn reads(alloc: Global, row: &str) -> Result<bool, AllocError> {
    let bytes = bytes_of(alloc, row)?;
    is_read(alloc, bytes.as_slice())
}

fn is_not_decoded(alloc: Global, bytes: &[u8], at: u64, why: &str) -> bool {
    match decode(alloc, bytes) {
        Err(CborFault::Refused { place, reason }) => place == at && name_of(reason) == why,
        _ => false,
    }
}

// Whether skipping is refused at this place for this reason, and leaves the cursor before the bytes.
fn is_not_skipped(bytes: &[u8], at: u64, why: &str) -> bool {
    let mut cursor = Cursor::new(bytes, 100);
    match cursor.skip() {
        Err(CborRefusal { place, reason }) => {
            matches!(place.checked_sub(100), Some(found) if found == at)
                && name_of(reason) == why
                && cursor.place() == 100
        }
        Ok(_) => false,
    }
}

fn is_answered(alloc: Global, bytes: &[u8], answer: &str) -> bool {
    let (place, why) = answer.split_once(' ').unwrap_or((answer, ""));
    match place.parse::<u64>() {
        Ok(at) => is_not_skipped(bytes, at, why) && is_not_decoded(alloc, bytes, at, why),
        Err(_) => false,
    }
}

// Whether the bytes of a row are refused at the row's place, for its reason.
fn refuses(alloc: Global, row: &str) -> Result<bool, AllocError> {
    let (text, answer) = row.split_once(" -> ").unwrap_or((row, ""));
    let bytes = bytes_of(alloc, text)?;
    Ok(is_answered(alloc, bytes.as_slice(), answer))
}

// The examples of RFC 8949 that this encoding has. After them, keys in the order of their spellings, and sixteen
// levels.
const READ: &str = "
00
01
0a
17
1818
1819
1864
1903e8
1a000f4240
1b000000e8d4a51000
1bffffffffffffffff
c249010000000000000000
3bffffffffffffffff
c349010000000000000000
20
29
3863
3903e7
f4
f5
f6
c074323031332d30332d32315432303a30343a30305a
c11a514b67b0
d74401020304
d818456449455446
d82076687474703a2f2f7777772e6578616d706c652e636f6d
40
4401020304
60
6161
6449455446
62225c
80
83010203
8301820203820405
98190102030405060708090a0b0c0d0e0f101112131415161718181819
a0
a201020304
a26161016162820203
826161a161626163
a56161614161626142616361436164614461656145
62c3bc
63e6b0b4
64f0908591
a21818012001
818181818181818181818181c1a18081f6
";

// The examples of RFC 8949 with floats, other simple values and indefinite lengths. After them, what is cut short or
// not shortest, text that is not UTF-8, keys out of order, and a seventeenth level.
const REFUSED: &str = "
f90000 -> 0 kind
fb3ff199999999999a -> 0 kind
f97e00 -> 0 kind
f7 -> 0 kind
f0 -> 0 kind
f8ff -> 0 kind
c1fb41d452d9ec200000 -> 1 kind
5f42010243030405ff -> 0 indefinite
83018202039f0405ff -> 5 indefinite
bf61610161629f0203ffff -> 0 indefinite
18 -> 1 truncated
1817 -> 0 not-shortest
9b00000000ffffffff -> 0 not-shortest
62ff -> 2 truncated
61c3 -> 0 bad-text
a203010201 -> 3 order
a203010301 -> 3 repeated
a262616101616201 -> 5 order
8181818181818181818181818181818180 -> 16 too-deep
";

#[test]
fn items_are_read_and_written_again(rt: HostRuntime) -> Result<(), AllocError> {
    for row in READ.trim().lines() {
        assert!(rt; reads(rt.alloc(), row)?, "{row}");
    }
    for row in REFUSED.trim().lines() {
        assert!(rt; refuses(rt.alloc(), row)?, "{row}");
    }
    Ok(())
}
