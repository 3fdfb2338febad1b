//! Sessions of `show`. The digests and the tags were computed by another program.

use crate::tests::goes::both_go;
use std::alloc::AllocError;

/// Blocks, members and authenticity, and keys of each length.
const UNDER_A_KEY: &str = "file own
01*32

file apart
d86ba402585d835824822f5820d20f700f9bd3379dc3b7fad9bd61a590edbecbc9ab954f2c625ab24083fe064049d28443a10126a0f640582ad18443a10105a0f658208f14288850e78f244f655dddfe3953a83cb225cbfd33c2a0687eb9c8e286ef2e0358b6a801010201035835a2028181410004582c8214a2035824822f5820ba7816bf8f01cfea414140de5dae2223b00361a396177a9cb410ff61f20015ad0e03084382030f094382170f10822f58208cec887aebc30d8879f0a5cdf13265bec7d50e98670afe09827264786de8923314822f58208cec887aebc30d8879f0a5cdf13265bec7d50e98670afe09827264786de8923317822f5820ba59ea8f4f88a2fcd9aaf9a83d236bb75f1f528637b999a25866124a877ffb15104a8414a11563696d67150f144a8414a11563696d67150e

show apart own
0
tagged yes
block 0 other
block 1 mac0
member shared here
member validate none
member load here
member invoke here
member payload-fetch apart
member install differs
member text severed
authentic

file e.suit
d86ba202585d835824822f58201a9560565e58d0ad019dae827e1def7755aad759c564dcc11446bb8629c035b149d28443a10126a0f640582ad18443a10105a0f65820055b27ca6b099fbac7a8048515e284d999febbededb58ca886b84e78e424d271035847a501010201035835a2028181410004582c8214a2035824822f5820ba7816bf8f01cfea414140de5dae2223b00361a396177a9cb410ff61f20015ad0e03074382030f094382170f

show e.suit own
0
tagged yes
block 0 other
block 1 mac0
member shared here
member validate here
member load none
member invoke here
member payload-fetch none
member install none
member text none
authentic

change by-sha-512 e.suit
65 34 584037412384195abe0bd28a768877944f99d0f16dd5c90be4ef463285394b5e8f8334064e734b26172c0f259d20091a9b82cba7582977cd1ec9ebc19728035c9e4e
62 1 07
55 2 584a
5 1 7d

show by-sha-512 own
0
tagged yes
block 0 other
block 1 mac0
member shared here
member validate here
member load none
member invoke here
member payload-fetch none
member install none
member text none
authentic

change cut by-sha-512
99 32
65 2 5820
55 2 582a
5 1 5d

show cut own
4
tagged yes
block 0 other
block 1 mac0
member shared here
member validate here
member load none
member invoke here
member payload-fetch none
member install none
member text none
not authentic: mac differs

change by-the-other cut
67 32 a160cb4f414dbffab4be3f00f1d2c96d5c8946833801b6b2273cbf196438171d

show by-the-other own
4
tagged yes
block 0 other
block 1 mac0
member shared here
member validate here
member load none
member invoke here
member payload-fetch none
member install none
member text none
not authentic: mac differs

change no-tag e.suit
0 2

show no-tag own
0
tagged no
block 0 other
block 1 mac0
member shared here
member validate here
member load none
member invoke here
member payload-fetch none
member install none
member text none
authentic

change other-tag e.suit
96 1 70

show other-tag own
4
tagged yes
block 0 other
block 1 mac0
member shared here
member validate here
member load none
member invoke here
member payload-fetch none
member install none
member text none
not authentic: mac differs

file shorter
01*31

show e.suit shorter
4
tagged yes
block 0 other
block 1 mac0
member shared here
member validate here
member load none
member invoke here
member payload-fetch none
member install none
member text none
not authentic: mac differs

change no-mac e.suit
55 44
5 2 3182

show no-mac own
4
tagged yes
block 0 other
member shared here
member validate here
member load none
member invoke here
member payload-fetch none
member install none
member text none
not authentic: no mac

change other-digest e.suit
13 1 1b

show other-digest own
4
tagged yes
block 0 other
block 1 mac0
member shared here
member validate here
member load none
member invoke here
member payload-fetch none
member install none
member text none
not authentic: digest differs

file longest
02*64

change under-longest e.suit
67 32 20001ee9cb22db25998abbe9471a37c15c0c3a1cd9f52371604d8dfcc6923456
45 10
5 2 5382

show under-longest longest
0
tagged yes
block 0 mac0
member shared here
member validate here
member load none
member invoke here
member payload-fetch none
member install none
member text none
authentic

file longer
02*65

show e.suit longer
21
too long longer

text empty

show e.suit empty
3
empty key

show e.suit absent
20
absent absent

show absent also
20
absent absent

file broken
d86b

show broken empty
3
refused at 2: truncated";

/// Envelopes as descriptions. Of three members whose digests are stated, one is there.
const DESCRIBED: &str = r#"file e.suit
d86ba202585d835824822f58201a9560565e58d0ad019dae827e1def7755aad759c564dcc11446bb8629c035b149d28443a10126a0f640582ad18443a10105a0f65820055b27ca6b099fbac7a8048515e284d999febbededb58ca886b84e78e424d271035847a501010201035835a2028181410004582c8214a2035824822f5820ba7816bf8f01cfea414140de5dae2223b00361a396177a9cb410ff61f20015ad0e03074382030f094382170f

show e.suit
0
{"components":[["00"]],"invoke":[["invoke",15]],"sequence":1,"shared":[["set",{"digest":"ba7816bf8f01cfea414140de5dae2223b00361a396177a9cb410ff61f20015ad","size":3}]],"validate":[["match",15]]}

file apart
d86ba402585d835824822f5820d20f700f9bd3379dc3b7fad9bd61a590edbecbc9ab954f2c625ab24083fe064049d28443a10126a0f640582ad18443a10105a0f658208f14288850e78f244f655dddfe3953a83cb225cbfd33c2a0687eb9c8e286ef2e0358b6a801010201035835a2028181410004582c8214a2035824822f5820ba7816bf8f01cfea414140de5dae2223b00361a396177a9cb410ff61f20015ad0e03084382030f094382170f10822f58208cec887aebc30d8879f0a5cdf13265bec7d50e98670afe09827264786de8923314822f58208cec887aebc30d8879f0a5cdf13265bec7d50e98670afe09827264786de8923317822f5820ba59ea8f4f88a2fcd9aaf9a83d236bb75f1f528637b999a25866124a877ffb15104a8414a11563696d67150f144a8414a11563696d67150e

change held apart
296 12
2 1 a3

show held
0
{"components":[["00"]],"install":{"digest":"8cec887aebc30d8879f0a5cdf13265bec7d50e98670afe09827264786de89233"},"invoke":[["invoke",15]],"load":[["match",15]],"payload-fetch":[["set",{"uri":"img"}],["fetch",15]],"sequence":1,"sever":["payload-fetch"],"shared":[["set",{"digest":"ba7816bf8f01cfea414140de5dae2223b00361a396177a9cb410ff61f20015ad","size":3}]],"text":{"digest":"ba59ea8f4f88a2fcd9aaf9a83d236bb75f1f528637b999a25866124a877ffb15"}}

change other-text held
296 0 17426162
2 1 a4

show other-text
17
member text differs"#;

#[test]
fn envelopes_are_shown(rt: HostRuntime) -> Result<(), AllocError> {
    assert!(rt; both_go(rt.alloc(), (UNDER_A_KEY, DESCRIBED))?);
    Ok(())
}
