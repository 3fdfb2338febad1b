//! Sessions of `check`, and words that are no command. Another program wrote the envelopes and computed their digests; what is
//! said of each was worked out from the format.

use crate::session::BEGUN;
use crate::tests::goes::both_go;
use std::alloc::AllocError;

/// The stored envelope, and others that come close to a fault.
const ACCEPTED: &str = "file e.suit
d86ba2025827815824822f5820 00*32 035847a501010201035835a2028181410004582c8214a2035824822f5820ba7816bf8f01cfea414140de5dae2223b00361a396177a9cb410ff61f20015ad0e03074382030f094382170f

check e.suit
0
update safe
invocation safe

change no-tag e.suit
0 2

check no-tag
0
update safe
invocation safe

change two-slots-image-each e.suit
119 0 144382150f
109 0 15616158358614a10501050f14a3035824822f5820a52d159f262b2c6ddb724a61840befc36eb30c88877a4030b65cbe86298449c90e03156162
64 4 9b8814a20150fa6b4a53d5ad5fdfbe9de663e4d41ffe02501492af1425695e48bf429b2d51f2ab45010f020f0f8258358614a10500050f14a3
55 1 a4
47 2 bba6

check two-slots-image-each
0
update safe
invocation safe

change two-components-matched e.suit
115 2 45840cf5
110 2 47840c820001
62 4 81410104582e840cf5
55 4 3aa20282
47 1 52

check two-components-matched
0
update safe
invocation safe

change match-whose-failure-not-passed-over e.suit
110 2 4b821820478414a10df4
47 1 4f

check match-whose-failure-not-passed-over
0
update safe
invocation safe

change install-apart e.suit
119 0 14822f58208cec887aebc30d8879f0a5cdf13265bec7d50e98670afe09827264786de89233144a8414a11563696d67150f
47 2 6ca6
2 1 a3

check install-apart
0
update safe
invocation safe

change abort-place-invoke e.suit
117 1 0e

check abort-place-invoke
0
update safe
invocation safe

change block-no-cbor-passed-over e.suit
52 67 000344a1028180
45 4 41ff034ba3
5 2 2982

check block-no-cbor-passed-over
0
update safe
invocation safe

change install-both-envelope-no-cbor e.suit
52 67 000344a10281801443820e001441ff
46 3 50a4
2 1 a3

check install-both-envelope-no-cbor
0
update safe
invocation safe

change text-changed e.suit
75 44 00*32 1741ff
52 19 000344a102818017
47 2 30a4
2 1 a3

check text-changed
0
update safe
invocation safe

change identifier-64-bytes e.suit
60 59 583d 00*61
52 5 00035843a1
47 2 4ba3

check identifier-64-bytes
0
update safe
invocation safe

change branch-null e.suit
52 67 000344a10281800748820f8243820e00f6
46 3 55a4

check branch-null
0
update safe
invocation safe

change sequence-at-level-8 e.suit
52 67 000344a1028180075820821820581b82182057821820538218204f8218204b8218204782182043820e00
47 2 2ea4

check sequence-at-level-8
0
update safe
invocation safe

change override-no-parameters e.suit
112 7 14a0
52 57 000344a1028180
46 3 50a4

check override-no-parameters
0
update safe
invocation safe";

/// Procedures that are not safe, by their whole paths.
const UNSAFE: &str = "file e.suit
d86ba2025827815824822f5820 00*32 035847a501010201035835a2028181410004582c8214a2035824822f5820ba7816bf8f01cfea414140de5dae2223b00361a396177a9cb410ff61f20015ad0e03074382030f094382170f

check e.suit
0
update safe
invocation safe

change no-validate e.suit
109 5
47 2 42a4

check no-validate
1
update safe
invocation unsafe
identity 0 vendor none class none device none slot 0
set 0 3
set 0 14
set 0 3
set 0 14
set 0 3
set 0 14
invoked 0 ba7816bf8f01cfea414140de5dae2223b00361a396177a9cb410ff61f20015ad 3

change update-invokes e.suit
109 6 14
47 2 42a4

check update-invokes
1
update unsafe
identity 0 vendor none class none device none slot 0
set 0 3
set 0 14
set 0 3
set 0 14
invoked 0 ba7816bf8f01cfea414140de5dae2223b00361a396177a9cb410ff61f20015ad 3

change write-branch-fails e.suit
115 2 4c840f824584120f0e0ff6
109 0 1243616263
64 4 318214a3
55 1 3a
47 1 55

check write-branch-fails
1
update safe
invocation unsafe
identity 0 vendor none class none device none slot 0
set 0 3
set 0 14
set 0 18
matched 0 ba7816bf8f01cfea414140de5dae2223b00361a396177a9cb410ff61f20015ad 3
set 0 3
set 0 14
set 0 18
set 0 3
set 0 14
set 0 18
wrote 0
tried 0 14 fail
failed 128
invoked 0 ba7816bf8f01cfea414140de5dae2223b00361a396177a9cb410ff61f20015ad 3

change match-may-be-left-out e.suit
114 0 f6
110 0 48820f82
47 1 4c

check match-may-be-left-out
1
update safe
invocation unsafe
identity 0 vendor none class none device none slot 0
set 0 3
set 0 14
missed 0
failed 116
set 0 3
set 0 14
set 0 3
set 0 14
invoked 0 ba7816bf8f01cfea414140de5dae2223b00361a396177a9cb410ff61f20015ad 3

change match-whose-failure-passed-over e.suit
110 2 4b821820478414a10df5
47 1 4f

check match-whose-failure-passed-over
1
update safe
invocation unsafe
identity 0 vendor none class none device none slot 0
set 0 3
set 0 14
set 0 13
missed 0
failed 120
set 0 3
set 0 14
set 0 3
set 0 14
invoked 0 ba7816bf8f01cfea414140de5dae2223b00361a396177a9cb410ff61f20015ad 3

change another-digest-invoked e.suit
115 4 582c8414a1035824822f5820 00*32 170f
47 1 71

check another-digest-invoked
1
update safe
invocation unsafe
identity 0 vendor none class none device none slot 0
set 0 3
set 0 14
matched 0 ba7816bf8f01cfea414140de5dae2223b00361a396177a9cb410ff61f20015ad 3
set 0 3
set 0 14
set 0 3
set 0 14
set 0 3
invoked 0 0000000000000000000000000000000000000000000000000000000000000000 3

change one-of-two-components-matched e.suit
115 2 45840cf5
110 2 46840c8100
62 4 81410104582e840cf5
55 4 3aa20282
47 1 51

check one-of-two-components-matched
1
update safe
invocation unsafe
identity 0 vendor none class none device none slot 0
identity 1 vendor none class none device none slot 0
set 0 3
set 0 14
set 1 3
set 1 14
matched 0 ba7816bf8f01cfea414140de5dae2223b00361a396177a9cb410ff61f20015ad 3
set 0 3
set 0 14
set 1 3
set 1 14
set 0 3
set 0 14
set 1 3
set 1 14
invoked 0 ba7816bf8f01cfea414140de5dae2223b00361a396177a9cb410ff61f20015ad 3
invoked 1 ba7816bf8f01cfea414140de5dae2223b00361a396177a9cb410ff61f20015ad 3";

/// A rule broken, of the envelope, the manifest, its commands or parameters.
const REFUSED: &str = "file e.suit
d86ba2025827815824822f5820 00*32 035847a501010201035835a2028181410004582c8214a2035824822f5820ba7816bf8f01cfea414140de5dae2223b00361a396177a9cb410ff61f20015ad0e03074382030f094382170f

check e.suit
0
update safe
invocation safe

change tag-two-more-bytes e.suit
0 1 d9

check tag-two-more-bytes
3
refused at 4: trailing

change tag-106 e.suit
1 1 6a

check tag-106
3
refused at 0: shape

change third-pair-not-there e.suit
2 1 a3

check third-pair-not-there
3
refused at 119: truncated

change four-pairs-stated-five-there e.suit
48 1 a4

check four-pairs-stated-five-there
3
refused at 114: trailing

change unknown-key e.suit
119 0 0400
2 1 a3

check unknown-key
3
refused at 119: unknown key

file neither
d86ba0

check neither
3
refused at 2: missing 2

change another-algorithm-envelope-digest e.suit
5 6 2881582582382b

check another-algorithm-envelope-digest
3
refused at 9: algorithm

change version-2 e.suit
50 1 02

check version-2
3
refused at 50: version 2

change reporting-policy-16 e.suit
118 1 10

check reporting-policy-16
3
refused at 118: bad argument

change long-head e.suit
117 1 18

check long-head
3
refused at 117: not shortest

change byte-behind e.suit
119 0 00

check byte-behind
3
refused at 119: trailing

change version-2-no-common e.suit
46 73 45a201020200

check version-2-no-common
3
refused at 47: missing 3

change nine-components-first-them-number e.suit
52 67 00034ca10289008080808080808080
46 3 53a3

check nine-components-first-them-number
3
refused at 56: 9 components

change identifier-65-bytes e.suit
60 59 583e 00*62
52 5 00035844a1
47 2 4ca3

check identifier-65-bytes
3
refused at 59: long identifier

change two-pairs-components-alike e.suit
62 57 81410080
52 7 00034ba1028480
46 3 52a3

check two-pairs-components-alike
3
refused at 61: components 1 and 2 are alike

change invoke-shared-sequence e.suit
118 1 10
59 56 8004
52 4 000349
46 3 50a3

check invoke-shared-sequence
3
refused at 61: unsupported

change highest-source e.suit
52 67 000344a1028180074d8214a1161bffffffffffffffff
47 2 1aa4

check highest-source
3
refused at 65: index 18446744073709551615 of 1

change null-branch e.suit
52 67 000344a10281800748820f82f643820e00
46 3 55a4

check null-branch
3
refused at 63: bad argument

change sequence-at-level-9-no-cbor e.suit
52 67 000344a1028180075822821820581d821820581882182054821820508218204c821820488218204482182040
47 2 30a4

check sequence-at-level-9-no-cbor
3
refused at 95: nested

change parameter-240-arguments-fetch e.suit
52 67 000344a102818007468214a118f040
46 3 53a4

check parameter-240-arguments-fetch
3
refused at 63: unknown parameter

change vendor-15-bytes e.suit
52 67 000344a102818007548214a1014f 00*15
47 2 21a4

check vendor-15-bytes
3
refused at 65: bad parameter

change byte-after-parameter-digest e.suit
75 44 00*33
52 19 000344a102818007582b8214a1035825
47 2 39a4

check byte-after-parameter-digest
3
refused at 104: trailing";

/// Members before widths, widths before paths, and the update before the invocation.
const IN_TURN: &str = "file e.suit
d86ba2025827815824822f5820 00*32 035847a501010201035835a2028181410004582c8214a2035824822f5820ba7816bf8f01cfea414140de5dae2223b00361a396177a9cb410ff61f20015ad0e03074382030f094382170f

check e.suit
0
update safe
invocation safe

change install-severed e.suit
119 0 14822f58208cec887aebc30d8879f0a5cdf13265bec7d50e98670afe09827264786de89233
47 2 6ca6

check install-severed
16
severed install

change install-changed e.suit
119 0 14822f58208cec887aebc30d8879f0a5cdf13265bec7d50e98670afe09827264786de89233144a8414a11563696d67150e
47 2 6ca6
2 1 a3

check install-changed
17
member install differs

change install-no-sequence e.suit
119 0 14822f5820341b437fbac7e1af5299f4010409ff661a621f332125ad6c134ea3c7fec8c4ab14428115
47 2 6ca6
2 1 a3

check install-no-sequence
3
refused at 158: shape

change payload-fetch-changed-install-severed e.suit
119 0 10822f58208cec887aebc30d8879f0a5cdf13265bec7d50e98670afe09827264786de8923314822f58208cec887aebc30d8879f0a5cdf13265bec7d50e98670afe09827264786de89233104a8414a11563696d67150e
47 2 91a7
2 1 a3

check payload-fetch-changed-install-severed
17
member payload-fetch differs

change version-2-install-severed e.suit
75 44 00*32
47 24 30a4010202000344a102818014

check version-2-install-severed
3
refused at 50: version 2

change update-invokes-invocation-too-wide e.suit
62 53 0958799822 0f824382010ff6*17 14
54 3 46a1
47 1 8e

check update-invokes-invocation-too-wide
12
too wide: 4456448

change install-severed-invocation-too-wide e.suit
107 12
62 9 0958799822 0f824382010ff6*17 14
54 3 46a1
47 1 ae

check install-severed-invocation-too-wide
16
severed install

file seventeen-optional-conditions
d86ba2025827815824822f5820 00*32 035889a4010102010346a102818141000958799822 0f824382010ff6*17 

check seventeen-optional-conditions
12
too wide: 4456448

file widest
d86ba2025827815824822f5820 00*32 03591020a4010102010346a102818141000959100f840c9907ff 00*2047 1820590806840c9907ff 00*2047 14a0

check widest
0
update safe
invocation safe

file wider
d86ba2025827815824822f5820 00*32 03591022a4010102010346a1028181410009591011860c000c9907ff 00*2047 1820590806840c9907ff 00*2047 14a0

check wider
12
too wide: 4194305";

/// Items that are no deterministic CBOR (RFC 8949, section 4.2.1): the first in each byte string that holds items.
const ITEMS: &str = "file truncated-in-wrapper
d86ba2024181034ba3010102000344a1028180

check truncated-in-wrapper
3
refused at 6: truncated

file truncated-in-manifest
d86ba2025827815824822f5820 00*32 034181

check truncated-in-manifest
3
refused at 48: truncated

file truncated-in-common
d86ba2025827815824822f5820 00*32 0348a301010200034181

check truncated-in-common
3
refused at 55: truncated

file truncated-in-validate
d86ba2025827815824822f5820 00*32 034ea4010102000344a1028180074181

check truncated-in-validate
3
refused at 61: truncated

file truncated-in-digest
d86ba2025827815824822f5820 00*32 0353a4010102000344a102818007468214a1034181

check truncated-in-digest
3
refused at 66: truncated

file indefinite
1f

check indefinite
3
refused at 0: indefinite

file float
fb

check float
3
refused at 0: kind

file number
1817

check number
3
refused at 0: not shortest

file text
61ff

check text
3
refused at 0: bad text

file keys
a203010201

check keys
3
refused at 3: order

file twice
a203010301

check twice
3
refused at 3: repeated

file deepest
81*15 80

check deepest
3
refused at 0: shape

file deeper
81*16 80

check deeper
3
refused at 16: too deep";

/// Files and manifests at their longest, and one byte beyond.
const LIMITS: &str = "file manifest.suit
d86ba2025827815824822f5820 00*32 0359ffcf 00*65487

check manifest.suit
3
refused at 50: trailing

file long.suit
d86ba2025827815824822f5820 00*32 0359ffd0 00*65488

check long.suit
21
too long envelope

change longer.suit long.suit
65537 0 00

check longer.suit
3
refused at 65537: trailing

file long
00*1048576

check long
3
refused at 1: trailing

file longer
00*1048577

check longer
21
too long longer

check absent
20
absent absent";

/// No command.
const OTHER_WORDS: &str = "check
2
USAGE

check e.suit e.suit
2
USAGE

check -v
2
USAGE

help
2
USAGE

run stat
2
USAGE

run update f x
2
USAGE

show
2
USAGE

drill 01
2
USAGE

diag
2
USAGE

diag e.suit k
2
USAGE";

#[test]
fn envelopes_are_judged(rt: HostRuntime) -> Result<(), AllocError> {
    assert!(rt; both_go(rt.alloc(), (ACCEPTED, UNSAFE))?);
    assert!(rt; both_go(rt.alloc(), (REFUSED, IN_TURN))?);
    assert!(rt; both_go(rt.alloc(), (ITEMS, LIMITS))?);
    assert!(rt; both_go(rt.alloc(), (BEGUN, OTHER_WORDS))?);
    Ok(())
}
