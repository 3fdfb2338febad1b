//! Sessions of `diag`. Another program wrote the notations.

use crate::tests::goes::both_go;
use std::alloc::AllocError;

/// Items, one of them an envelope.
const NOTATIONS: &str = r#"file array
82f53818

diag array
0
[true, -25]

file map
a202010301

diag map
0
{2: 1, 3: 1}

file strings
8344000fa0ff4066225c0a7fc3a9

diag strings
0
[h'000fa0ff', h'', "\"\\\u000a\u007fé"]

file e.suit
d86ba2025827815824822f5820 00*32 035847a501010201035835a2028181410004582c8214a2035824822f5820ba7816bf8f01cfea414140de5dae2223b00361a396177a9cb410ff61f20015ad0e03074382030f094382170f

diag e.suit
0
107({2: h'815824822f58200000000000000000000000000000000000000000000000000000000000000000', 3: h'a501010201035835a2028181410004582c8214a2035824822f5820ba7816bf8f01cfea414140de5dae2223b00361a396177a9cb410ff61f20015ad0e03074382030f094382170f'})"#;

/// Files that are not one item of deterministic CBOR, or are not there or too long.
const NO_ITEMS: &str = "diag empty.img
3
refused at 0: truncated

file number
1817

diag number
3
refused at 0: not shortest

file behind
82f5381800

diag behind
3
refused at 4: trailing

file long
00*1048576

diag long
3
refused at 1: trailing

file longer
00*1048577

diag longer
21
too long longer

diag absent
20
absent absent";

#[test]
fn items_are_printed(rt: HostRuntime) -> Result<(), AllocError> {
    assert!(rt; both_go(rt.alloc(), (NOTATIONS, NO_ITEMS))?);
    Ok(())
}
