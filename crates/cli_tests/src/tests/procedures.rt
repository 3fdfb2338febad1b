//! Sessions of what a procedure does to contents on flash and in working memory.

use crate::fails::{Fails, Object};
use crate::tests::goes::{both_go, both_launch};
use std::alloc::AllocError;

/// A device of two components with two slots, the first with an identity, and one in working memory.
const FORMATTED: &str = r#"text mixed
{"components":[{"capacity":1024,"class":"00112233-4455-6677-8899-aabbccddeeff","device":"00112233-4455-6677-8899-aabbccddeeff","id":["00"],"kind":"flash","slots":[49152,50184],"vendor":"00112233-4455-6677-8899-aabbccddeeff"},{"capacity":1024,"id":["01"],"kind":"flash","slots":[51216,52248]},{"capacity":16,"id":["02"],"kind":"ram"}]}

run init mixed k
0
ready"#;

/// Each directive and each condition, of which all pass but one that is tried.
const EACH: &str = r#"text each.json
{"components":[["00"],["01"],["02"]],"install":[["index",[0,1]],["set",{"content":"616263"}],["write",15],["content",15],["index",1],["set",{"content":"646566"}],["write",15],["index",2],["set",{"source":1}],["copy",15],["index",0],["set",{"source":1}],["swap",15],["set",{"content":"646566"}],["content",15],["index",1],["set",{"content":"616263"}],["content",15],["index",2],["set",{"content":"646566"}],["content",15],["index",0],["set",{"class":"00112233-4455-6677-8899-aabbccddeeff","device":"00112233-4455-6677-8899-aabbccddeeff","slot":1,"vendor":"00112233-4455-6677-8899-aabbccddeeff"}],["vendor",15],["class",15],["device",15],["slot",15],["try",[[["abort",15]],[["run",[["set",{"content":"616263"}],["write",15]]]]]]],"invoke":[["index",0],["set",{"digest":{"file":"abc.img"},"size":{"file":"abc.img"}}],["match",15],["invoke",15]],"sequence":1}

make each.json k each
0
made 334

run update each
0
installed 1

run status
0
sequence 1
generation 1
bank 0
digest f1778fd74d076bb9a4d0159e6af4daa34232f6860ed6b655926d3479ac920f8b
component 0 slot 1 length 3
component 1 slot 1 length 3
component 2 ram

run boot
0
ended"#;

/// Conditions that fail, and contents that are too large.
const STOPPED: &str = r#"text vendor.json
{"components":[["00"],["01"],["02"]],"install":[["set",{"vendor":"00112234-4455-6677-8899-aabbccddeeff"}],["vendor",15]],"invoke":[["index",0],["set",{"digest":{"file":"abc.img"},"size":{"file":"abc.img"}}],["match",15],["invoke",15]],"sequence":1}

make vendor.json k vendor
0
made 189

run update vendor
6
stopped at 187: condition failed

text class.json
{"components":[["00"],["01"],["02"]],"install":[["index",1],["set",{"class":"00112233-4455-6677-8899-aabbccddeeff"}],["class",15]],"invoke":[["index",0],["set",{"digest":{"file":"abc.img"},"size":{"file":"abc.img"}}],["match",15],["invoke",15]],"sequence":1}

make class.json k class
0
made 192

run update class
6
stopped at 190: condition failed

text device.json
{"components":[["00"],["01"],["02"]],"install":[["set",{"device":"00112233-4455-6677-8899-aabbccddeefe"}],["device",15]],"invoke":[["index",0],["set",{"digest":{"file":"abc.img"},"size":{"file":"abc.img"}}],["match",15],["invoke",15]],"sequence":1}

make device.json k device
0
made 192

run update device
6
stopped at 189: condition failed

text slot.json
{"components":[["00"],["01"],["02"]],"install":[["set",{"slot":2}],["slot",15]],"invoke":[["index",0],["set",{"digest":{"file":"abc.img"},"size":{"file":"abc.img"}}],["match",15],["invoke",15]],"sequence":1}

make slot.json k slot
0
made 173

run update slot
6
stopped at 171: condition failed

text content.json
{"components":[["00"],["01"],["02"]],"install":[["set",{"content":"616264"}],["write",15],["set",{"content":"616263"}],["content",15]],"invoke":[["index",0],["set",{"digest":{"file":"abc.img"},"size":{"file":"abc.img"}}],["match",15],["invoke",15]],"sequence":1}

make content.json k content
0
made 185

run update content
6
stopped at 183: condition failed

text abort.json
{"components":[["00"],["01"],["02"]],"install":[["abort",15]],"invoke":[["index",0],["set",{"digest":{"file":"abc.img"},"size":{"file":"abc.img"}}],["match",15],["invoke",15]],"sequence":1}

make abort.json k abort
0
made 169

run update abort
6
stopped at 167: condition failed

text match.json
{"components":[["00"],["01"],["02"]],"install":[["set",{"content":"616263"}],["write",15],["set",{"digest":{"file":"abd.img"},"size":3}],["match",15]],"invoke":[["index",0],["set",{"digest":{"file":"abc.img"},"size":{"file":"abc.img"}}],["match",15],["invoke",15]],"sequence":1}

make match.json k match
0
made 222

run update match
6
stopped at 220: condition failed

text write.json
{"components":[["00"],["01"],["02"]],"install":[["index",2],["set",{"content":"0000000000000000000000000000000000"}],["write",15]],"invoke":[["index",0],["set",{"digest":{"file":"abc.img"},"size":{"file":"abc.img"}}],["match",15],["invoke",15]],"sequence":1}

make write.json k write
0
made 193

run update write
6
stopped at 191: too large

text copy.json
{"components":[["00"],["01"],["02"]],"install":[["set",{"content":"0000000000000000000000000000000000"}],["write",15],["index",2],["set",{"source":0}],["copy",15]],"invoke":[["index",0],["set",{"digest":{"file":"abc.img"},"size":{"file":"abc.img"}}],["match",15],["invoke",15]],"sequence":1}

make copy.json k copy
0
made 199

run update copy
6
stopped at 197: too large

text swap.json
{"components":[["00"],["01"],["02"]],"install":[["index",0],["set",{"content":"0000000000000000000000000000000000"}],["write",15],["index",2],["set",{"source":0}],["swap",15]],"invoke":[["index",0],["set",{"digest":{"file":"abc.img"},"size":{"file":"abc.img"}}],["match",15],["invoke",15]],"sequence":1}

make swap.json k swap
0
made 202

run update swap
6
stopped at 199: too large

run status
15
nothing installed"#;

#[test]
fn each_command_is_done(rt: HostRuntime) -> Result<(), AllocError> {
    let none = Fails::of(Object::Host, &[]);
    assert!(rt; both_launch(rt.alloc(), (FORMATTED, EACH), none, &[b"abc"])?);
    assert!(rt; both_go(rt.alloc(), (FORMATTED, STOPPED))?);
    Ok(())
}
