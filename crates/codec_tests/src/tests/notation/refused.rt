//! Texts that are not the notation of a valid item.

use cbor_diag::{NotationFault, read_notation};
use std::alloc::{AllocError, Global};

// The texts, each between two bars.
const REFUSED: &str = r#"
||
| |
| 1|
|1 |
|01|
|+1|
|-0|
|-|
|1.5|
|18446744073709551616|
|-18446744073709551617|
|100000000000000000000000000000000000000000000000000|
|True|
|true false|
|undefined|
|[true,-25]|
|[true,  -25]|
|[1, ]|
|[, 1]|
|[1|
|[1 2]|
|[]]|
|{1:2}|
|{1: 2,3: 4}|
|{1, 2}|
|{1: 2, }|
|{3: 1, 2: 1}|
|{1: 1, 1: 2}|
|{10: 1, -1: 2, 100: 3}|
|1 (2)|
|1()|
|1(2|
|1(2, 3)|
|-1(2)|
|h'0'|
|h'0A'|
|h'0g'|
|h'00|
|h '00'|
|H'00'|
|"|
|"a|
|"a"b"|
|"\a"|
|"\u0041"|
|"\u000A"|
|"\u0022"|
|"\n"|
|'a'|
|[[[[[[[[[[[[[[[[[1]]]]]]]]]]]]]]]]]|
"#;

// Texts with a control character that is not escaped.
const UNESCAPED: &str = "|\"\t\"|\n|\"\u{7f}\"|";

/// Whether a text is the notation of an item.
pub(crate) fn is_notation(alloc: Global, text: &str) -> Result<bool, AllocError> {
    match read_notation(alloc, text) {
        Ok(_) => Ok(true),
        Err(NotationFault::NoMemory) => Err(AllocError),
        Err(NotationFault::NoNotation) => Ok(false),
    }
}

fn is_refused(alloc: Global, row: &str) -> Result<bool, AllocError> {
    let text = row.trim_start_matches('|').trim_end_matches('|');
    Ok(!is_notation(alloc, text)?)
}

#[test]
fn refusals(rt: HostRuntime) -> Result<(), AllocError> {
    for row in REFUSED.trim_matches('\n').split('\n') {
        assert!(rt; is_refused(rt.alloc(), row)?, "{row}");
    }
    for row in UNESCAPED.split('\n') {
        assert!(rt; is_refused(rt.alloc(), row)?, "{row}");
    }
    // One level fewer than in the last row.
    assert!(rt; is_notation(rt.alloc(), "[[[[[[[[[[[[[[[[1]]]]]]]]]]]]]]]]")?);
    Ok(())
}
