//! Sessions on a device: a flash is formatted, told and booted. Its pages were laid out by hand.

use crate::fails::{Fails, Object};
use crate::session::BEGUN;
use crate::tests::goes::{both_go, both_launch};
use std::alloc::AllocError;

/// Descriptions and keys that are refused leave the flash blank, and it is formatted once.
const FORMATTED: &str = r#"run status
13
blank

run boot
13
blank

text r.json
{"components":[{"capacity":1024,"id":["00"],"kind":"flash","slots":[49152,50183]}]}

run init r.json k
3
slots of 0 and 0 overlap

text r.json
{"components":[{"capacity":1024,"id":["00"],"kind":"flash","slots":[49152,64505]}]}

run init r.json k
3
slot of 0 is outside

text r.json
{"components":[

run init r.json k
3
bad json

text r.json
{"components":[]}

run init r.json k
3
bad field /components

text r.json
{"components":[{"capacity":16,"id":["0"],"kind":"ram"}]}

run init r.json k
3
bad hex /components/0/id/0

text r.json
{"components":[{"capacity":16,"id":["00"],"kind":"ram","vendor":"x"}]}

run init r.json k
3
bad uuid /components/0/vendor

text r.json
{"components":[{"capacity":16,"id":["00"],"kind":"ram"},{"capacity":8,"id":["00"],"kind":"ram"}]}

run init r.json k
3
components 0 and 1 are alike

text r.json
{"components":[{"capacity":1,"id":["00"],"kind":"ram"},{"capacity":1,"id":["01"],"kind":"ram"},{"capacity":1,"id":["02"],"kind":"ram"},{"capacity":1,"id":["03"],"kind":"ram"},{"capacity":1,"id":["04"],"kind":"ram"},{"capacity":1,"id":["05"],"kind":"ram"},{"capacity":1,"id":["06"],"kind":"ram"},{"capacity":1,"id":["07"],"kind":"ram"},{"capacity":1,"id":["08"],"kind":"ram"}]}

run init r.json k
3
9 components

text empty

run init d empty
3
empty key

file longer
01*65

run init d longer
21
too long longer

change longer.json d
83 0 20*65454

run init longer.json k
21
too long longer.json

change long.json d
83 0 20*65453

run init long.json k
0
ready

run init d k
14
not blank

run status
15
nothing installed

run boot
15
nothing installed"#;

/// A record page of generation 7 and sequence number 5, and the length of the content of slot 1.
const TOLD: &str = r#"text two.json
{"components":[{"capacity":1024,"id":["00"],"kind":"flash","slots":[49152,64504]},{"capacity":16,"id":["01"],"kind":"ram"}]}

file longest
01*64

run init two.json longest
0
ready

flash 4096
a50000000000000007000000000000000501000000000000005d20 11*32 00*32 0100000000000000

flash 64504
0000000000000003

run status
0
sequence 5
generation 7
bank 1
digest 1111111111111111111111111111111111111111111111111111111111111111
component 0 slot 1 length 3
component 1 ram"#;

/// The gate is open over a configuration of another version.
const DAMAGED: &str = "flash 1
02

run status
13
bad config

run boot
13
bad config

run init d k
14
not blank";

/// A configuration page, field by field: gate, version, the length of the key and the count of components; the key; of each
/// component memory and slots, identifier, vendor, class, device, capacity and starts.
const STORED_PAGE: &str = r#"text stored.json
{"components":[{"capacity":1024,"class":"22222222-2222-2222-2222-222222222222","device":"33333333-3333-3333-3333-333333333333","id":["00"],"kind":"flash","slots":[49152,50184],"vendor":"11111111-1111-1111-1111-111111111111"},{"capacity":1048576,"device":"44444444-4444-4444-4444-444444444444","id":["01"],"kind":"ram"}]}

text ab
ab

run init stored.json ab
0
ready

stands 0
a5010202 6162 00*62 0002 038141 00*62 01 11*16 01 22*16 01 33*16 0000000000000400 000000000000c000000000000000c408 0101 03814101 00*61 00*17 00*17 01 44*16 0000000000100000 00*16 00*3744"#;

/// The same page, written by hand.
const LOADED_PAGE: &str = "flash 0
a5010202 6162 00*62 0002 038141 00*62 01 11*16 01 22*16 01 33*16 0000000000000400 000000000000c000000000000000c408 0101 03814101 00*61 00*17 00*17 01 44*16 0000000000100000 00*16";

/// A record page: gate, generation, sequence number, bank, the length of the envelope, digest, and the slots in use.
const RECORD_PAGE: &str = "flash 4096
a5 0000000000000001 0102030405060708 01 000000000000012c 20 a0a1a2a3a4a5a6a7a8a9aaabacadaeafb0b1b2b3b4b5b6b7b8b9babbbcbdbebf 00*32 0100000000000000

run status
0
sequence 72623859790382856
generation 1
bank 1
digest a0a1a2a3a4a5a6a7a8a9aaabacadaeafb0b1b2b3b4b5b6b7b8b9babbbcbdbebf
component 0 slot 1 length 0
component 1 ram";

/// What the first update leaves: a record page, and a slot.
const WRITTEN_RECORD: &str = "run update 1.suit img=abc.img
0
installed 1

stands 4096
a5 0000000000000001 0000000000000001 00 00000000000000af 20 2ede1de95a655c3dae8ceff0cb6a7dab3112f7110678df0ef8653bf63c795c99 00*32 0100000000000000 00*8

stands 50184
0000000000000003616263";

/// A record of no envelope, which no flash has that this program alone wrote; then one of an authentic envelope.
const INSTALLED: &str = "file key
01*32

run init d key
0
ready

flash 4096
a50000000000000001000000000000000100000000000000000020 11*32 00*40

run boot
3
refused at 0: truncated

flash 4096
a5000000000000000100000000000000010000000000000000ad20 11*32 00*32 0100000000000000

flash 12288
d86ba202585d835824822f58201a9560565e58d0ad019dae827e1def7755aad759c564dcc11446bb8629c035b149d28443a10126a0f640582ad18443a10105a0f65820055b27ca6b099fbac7a8048515e284d999febbededb58ca886b84e78e424d271035847a501010201035835a2028181410004582c8214a2035824822f5820ba7816bf8f01cfea414140de5dae2223b00361a396177a9cb410ff61f20015ad0e03074382030f094382170f";

/// A content in slot 1 that does not match, and one that does.
const BOOTED: &str = "flash 50184
0000000000000003616264

run boot
6
stopped at 166: condition failed

flash 50184
0000000000000003616263

run boot
0
ended";

#[test]
fn a_flash_is_formatted_and_told(rt: HostRuntime) -> Result<(), AllocError> {
    assert!(rt; both_go(rt.alloc(), (FORMATTED, DAMAGED))?);
    assert!(rt; both_go(rt.alloc(), (TOLD, DAMAGED))?);
    assert!(rt; both_go(rt.alloc(), (STORED_PAGE, RECORD_PAGE))?);
    assert!(rt; both_go(rt.alloc(), (LOADED_PAGE, RECORD_PAGE))?);
    assert!(rt; both_go(rt.alloc(), (BEGUN, WRITTEN_RECORD))?);
    Ok(())
}

#[test]
fn what_is_installed_is_launched(rt: HostRuntime) -> Result<(), AllocError> {
    let none = Fails::of(Object::Host, &[]);
    assert!(rt; both_launch(rt.alloc(), (INSTALLED, BOOTED), none, &[b"abc"])?);
    Ok(())
}
