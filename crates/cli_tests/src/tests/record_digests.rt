//! Record pages with a digest by each hash function.

use crate::fails::{Fails, Object};
use crate::session::BEGUN;
use crate::tests::goes::{both_go, both_launch};
use std::alloc::AllocError;

/// A flash of layout version 1 with a digest by SHA-256, byte for byte: the configuration, the record, its envelope, and the
/// content of slot 1.
const STORED: &str = "flash 0
a5010501 61206b6579 00*59 0002 038141 00*62 00*17 00*17 00*17 0000000000000400 000000000000c000 000000000000c408 00*994

flash 4096
a5 0000000000000001 0000000000000001 00 00000000000000af 20 2ede1de95a655c3dae8ceff0cb6a7dab3112f7110678df0ef8653bf63c795c99 00*32 0100000000000000

flash 12288
d86ba2025853825824822f58202ede1de95a655c3dae8ceff0cb6a7dab3112f7110678df0ef8653bf63c795c99582ad18443a10105a0f65820d61ad9e6db25dd017bbe1bc0ba9782130afeb079f7008365ac690ce678887d42035853a601010201035835a2028181410004582c8214a2035824822f5820ba7816bf8f01cfea414140de5dae2223b00361a396177a9cb410ff61f20015ad0e03074382030f094382170f144a8414a11563696d67150f

flash 50184
0000000000000003616263

run status
0
FIRST UPDATE

run boot
0
ended";

/// The next update has a digest by SHA-512: its record stands on the other page, and the first one stays.
const NEXT: &str = r#"text next.json
{"sequence":2,"components":[["00"]],"shared":[["set",{"digest":{"file":"abd.img"},"size":{"file":"abd.img"}}]],"validate":[["match",15]],"invoke":[["invoke",15]],"install":[["set",{"uri":"img"}],["fetch",15]],"algorithm":"sha512"}

make next.json k next.suit
0
made 208

run update next.suit img=abd.img
0
installed 2

stands 4096
a5 0000000000000001 0000000000000001 00 00000000000000af 20 2ede1de95a655c3dae8ceff0cb6a7dab3112f7110678df0ef8653bf63c795c99 00*32 0100000000000000 00*8

stands 8192
a5 0000000000000002 0000000000000002 01 00000000000000d0 40 114e64f7e9f5c5d03e8ba6bb6c309acc399f08ef767d843c6c18fba9a7d952c3f768a59ff64c6bdba20174950c4a480f7ca619427975c015b465b834f1a05b75 00*8 00*8

run status
0
sequence 2
generation 2
bank 1
digest 114e64f7e9f5c5d03e8ba6bb6c309acc399f08ef767d843c6c18fba9a7d952c3f768a59ff64c6bdba20174950c4a480f7ca619427975c015b465b834f1a05b75
component 0 slot 0 length 3

run boot
0
ended"#;

/// Digests of 48 and of 64 bytes.
const LONGER: &str = "flash 4096
a5 0000000000000007 0000000000000005 00 00000000000000af 30 11*48 00*16 0100000000000000

run status
0
sequence 5
generation 7
bank 0
digest 111111111111111111111111111111111111111111111111111111111111111111111111111111111111111111111111
component 0 slot 1 length 0

flash 8192
a5 0000000000000008 0000000000000006 01 00000000000000af 40 22*64 00*8

run status
0
sequence 6
generation 8
bank 1
digest 22222222222222222222222222222222222222222222222222222222222222222222222222222222222222222222222222222222222222222222222222222222
component 0 slot 0 length 0";

/// Pages that do not count: a length that no digest has, and bytes behind a digest.
const OTHERS: &str = "flash 4096
a5 0000000000000001 0000000000000001 00 00000000000000af 21 11*33 00*31 00*8

run status
15
nothing installed

flash 4096
a5 0000000000000001 0000000000000001 00 00000000000000af 00 00*64 00*8

run status
15
nothing installed

flash 4096
a5 0000000000000001 0000000000000001 00 00000000000000af 20 11*33 00*31 00*8

run status
15
nothing installed

flash 4096
a5 0000000000000001 0000000000000001 00 00000000000000af 30 11*49 00*15 00*8

run status
15
nothing installed";

#[test]
fn a_stored_flash_is_told_launched_and_updated(rt: HostRuntime) -> Result<(), AllocError> {
    let none = Fails::of(Object::Host, &[]);
    assert!(rt; both_launch(rt.alloc(), (STORED, NEXT), none, &[b"abc", b"abd"])?);
    Ok(())
}

#[test]
fn a_record_page_has_a_digest_of_its_length(rt: HostRuntime) -> Result<(), AllocError> {
    assert!(rt; both_go(rt.alloc(), (BEGUN, LONGER))?);
    assert!(rt; both_go(rt.alloc(), (BEGUN, OTHERS))?);
    Ok(())
}
