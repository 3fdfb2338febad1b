//! The reason told of an update that may be refused for two: the one that comes first. Each input has both.
//!
//! Envelopes that `make` does not make were written by another program; four have a Mac0 block under the key of the device, and
//! one under another key. Seventeen zeros are selected before the try in an update that is too wide, and eighteen in an
//! invocation.

use crate::tests::goes::{both_go, launches};
use std::alloc::AllocError;

const BEFORE_THE_FLASH: &str = "run update nofile img
2
USAGE";

const BEFORE_THE_ENVELOPE: &str = "run update nofile
13
blank";

// The grammar, the length, authenticity, the manifest, the components.
const OF_THE_ENVELOPE: &str = r#"file longer.suit
d86ba2025827815824822f5820 00*32 03594001 00*16386

run update longer.suit
3
refused at 16434: trailing

file long.suit
d86ba2025827815824822f5820 00*32 03594001 00*16385

run update long.suit
21
too long envelope

file digest.suit
d86ba2025827815824822f5820 00*32 0341a0

run update digest.suit
4
not authentic: digest differs

file no-mac.suit
d86ba2025827815824822f5820ba59ea8f4f88a2fcd9aaf9a83d236bb75f1f528637b999a25866124a877ffb150341a0

run update no-mac.suit
4
not authentic: no mac

file mac.suit
d86ba2025853825824822f5820ba59ea8f4f88a2fcd9aaf9a83d236bb75f1f528637b999a25866124a877ffb15582ad18443a10105a0f658204a6c8e110ebf0a0ef493905919ab7d44babc5efd5aea1a193d0ddfce88c1d47e0341a0

run update mac.suit
4
not authentic: mac differs

file refused-unknown.suit
d86ba2025853825824822f58206bf88c23ff22dc66c9e6bea245a64f61383a8cef577fa53538a12cc892cc4b4d582ad18443a10105a0f658208667894ecdf61ef4a48129472bfc76108a5c0cf1ce56aaa3597c60abac003b3c034ea201010349a10282814100814101

run update refused-unknown.suit
3
refused at 91: missing 2

text unknown-severed.json
{"sequence":1,"components":[["00"],["01"]],"install":{"digest":"0000000000000000000000000000000000000000000000000000000000000000"}}

make unknown-severed.json k u.suit
0
made 145

run update u.suit
18
unknown component 1"#;

const OF_MEMBERS: &str = r#"file severed-differs.suit
d86ba3025853825824822f582014a53e24e4ca886d172a53fbed43ac2dca0d71622e8dabdc1915629562453043582ad18443a10105a0f65820911d0bd1a293621e9cf49e2e07ead11524a828a25681abb13373b12671fa2c7a035857a5010102010346a1028181410010822f5820ba7816bf8f01cfea414140de5dae2223b00361a396177a9cb410ff61f20015ad14822f5820ba7816bf8f01cfea414140de5dae2223b00361a396177a9cb410ff61f20015ad1443820e00

run update severed-differs.suit
16
severed payload-fetch

text severed-wide.json
{"sequence":1,"components":[["00"]],"install":{"digest":"0000000000000000000000000000000000000000000000000000000000000000"},"invoke":[["index",[0,0,0,0,0,0,0,0,0,0,0,0,0,0,0,0,0]],["try",[[["vendor",15]],null]]]}

make severed-wide.json k u.suit
0
made 172

run update u.suit
16
severed install

file differs-wide.suit
d86ba3025853825824822f582092a1584259983cbeeb9994715017bfac6491dd112cee1c967300e363465aee6c582ad18443a10105a0f65820c2e719227bcb90843cc0c909dc4528e84812e542fbe214449647b0b734404616035850a5010102010346a1028181410009581b840c91 00*17 0f824382010ff614822f5820ba7816bf8f01cfea414140de5dae2223b00361a396177a9cb410ff61f20015ad1443820e00

run update differs-wide.suit
17
member install differs

file refused-wide.suit
d86ba3025853825824822f58202bd63176c82866ae9bb827734341f887ea648b923fc5ed3ae9ed99aa14f4a02b582ad18443a10105a0f6582040bd7aa9ceb7c3fbba6a9e1a628ea31677397ac959cb9322d255b0dcb8d51550035850a5010102010346a1028181410009581b840c91 00*17 0f824382010ff614822f5820b5203a05a125fd68270fc0e4b2b67f96042495f2b2eba4c7a0af7dde457c167f1443820e10

run update refused-wide.suit
3
refused at 176: bad argument"#;

// The widths and the paths, and then what is recorded.
const OF_PROCEDURES: &str = r#"run update 1.suit img=abc.img
0
installed 1

text wide-both.json
{"sequence":1,"components":[["00"]],"install":[["index",[0,0,0,0,0,0,0,0,0,0,0,0,0,0,0,0,0]],["try",[[["vendor",15]],null]]],"invoke":[["index",[0,0,0,0,0,0,0,0,0,0,0,0,0,0,0,0,0,0]],["try",[[["vendor",15]],null]]]}

make wide-both.json k u.suit
0
made 166

run update u.suit
12
too wide: 4587520

text unsafe-wide.json
{"sequence":1,"components":[["00"]],"install":[["invoke",15]],"invoke":[["index",[0,0,0,0,0,0,0,0,0,0,0,0,0,0,0,0,0,0]],["try",[[["vendor",15]],null]]]}

make unsafe-wide.json k u.suit
0
made 141

run update u.suit
12
too wide: 9699328

text unsafe-both.json
{"sequence":1,"components":[["00"]],"install":[["invoke",15]],"invoke":[["invoke",15]]}

make unsafe-both.json k u.suit
0
made 114

run update u.suit
1
update unsafe
identity 0 vendor none class none device none slot 0
invoked 0 none none

text 0-unsafe.json
{"sequence":0,"components":[["00"]],"invoke":[["invoke",15]]}

make 0-unsafe.json k u.suit
0
made 109

run update u.suit
1
update safe
invocation unsafe
identity 0 vendor none class none device none slot 0
invoked 0 none none"#;

#[test]
fn the_first_reason_is_told(rt: HostRuntime) -> Result<(), AllocError> {
    assert!(rt; both_go(rt.alloc(), (BEFORE_THE_FLASH, BEFORE_THE_ENVELOPE))?);
    assert!(rt; launches(rt.alloc(), OF_THE_ENVELOPE, &[])?);
    assert!(rt; launches(rt.alloc(), OF_MEMBERS, &[])?);
    assert!(rt; launches(rt.alloc(), OF_PROCEDURES, &[])?);
    Ok(())
}
