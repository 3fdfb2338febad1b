//! Items and their notations: the examples of RFC 8949, appendix A, and more. The two columns are the bytes in
//! hexadecimal and the notation.

use crate::tests::cbor::reading::is_spelled;
use crate::tests::rows::bytes_of;
use cbor_diag::{NotationFault, notation, read_notation};
use det_cbor::{Item, decode};
use std::alloc::{AllocError, Global};

const NOTED: &str = r#"
00 -> 0
1818 -> 24
1bffffffffffffffff -> 18446744073709551615
3bffffffffffffffff -> -18446744073709551616
3bfffffffffffffffe -> -18446744073709551615
20 -> -1
3863 -> -100
f4 -> false
f5 -> true
f6 -> null
c249010000000000000000 -> 2(h'010000000000000000')
c11a514b67b0 -> 1(1363896240)
d818456449455446 -> 24(h'6449455446')
dbffffffffffffffff00 -> 18446744073709551615(0)
40 -> h''
4400ff0a9f -> h'00ff0a9f'
60 -> ""
6449455446 -> "IETF"
62225c -> "\"\\"
6400091f7f -> "\u0000\u0009\u001f\u007f"
6320217e -> " !~"
645c753030 -> "\\u00"
80 -> []
8180 -> [[]]
8301820203820405 -> [1, [2, 3], [4, 5]]
82f53818 -> [true, -25]
a0 -> {}
a202010301 -> {2: 1, 3: 1}
a26161016162820203 -> {"a": 1, "b": [2, 3]}
826161a161626163 -> ["a", {"b": "c"}]
a1c10081a0 -> {1(0): [{}]}
"#;

const OTHER_LETTERS: &str = "
62c3bc -> \"\u{fc}\"
63e6b0b4 -> \"\u{6c34}\"
64f09f9880 -> \"\u{1f600}\"
66c280e2808b7f -> \"\u{80}\u{200b}\\u007f\"
";

// Whether a text is read as the item that these bytes spell.
fn is_read(alloc: Global, text: &str, bytes: &[u8]) -> Result<bool, AllocError> {
    match read_notation(alloc, text) {
        Ok(item) => is_spelled(alloc, &item, bytes),
        Err(NotationFault::NoMemory) => Err(AllocError),
        Err(NotationFault::NoNotation) => Ok(false),
    }
}

fn is_noted(alloc: Global, bytes: &[u8], text: &str) -> Result<bool, AllocError> {
    match decode(alloc, bytes) {
        Ok((item, _)) => {
            let noted = notation(alloc, &item)?;
            Ok(noted.as_str() == text && is_read(alloc, text, bytes)?)
        }
        Err(_) => Ok(false),
    }
}

fn holds(alloc: Global, row: &str) -> Result<bool, AllocError> {
    let (digits, text) = row.split_once(" -> ").unwrap_or((row, ""));
    let bytes = bytes_of(alloc, digits)?;
    is_noted(alloc, bytes.as_slice(), text)
}

#[test]
fn notations(rt: HostRuntime) -> Result<(), AllocError> {
    for row in NOTED.trim().lines() {
        assert!(rt; holds(rt.alloc(), row)?, "{row}");
    }
    for row in OTHER_LETTERS.trim().lines() {
        assert!(rt; holds(rt.alloc(), row)?, "{row}");
    }
    Ok(())
}
