//! Sessions on a flash whose layout has a base: version 2.

use crate::tests::goes::both_launch_on_large;
use std::alloc::AllocError;

/// Bases that are refused leave the flash blank: too low and too high by one, over a slot, and no number.
const REFUSED: &str = r#"text r.json
{"base":49151,"components":[{"capacity":1024,"id":["00"],"kind":"flash","slots":[49152,50184]}]}

run init r.json k
3
base is outside

text r.json
{"base":102401,"components":[{"capacity":1024,"id":["00"],"kind":"flash","slots":[49152,50184]}]}

run init r.json k
3
base is outside

text r.json
{"base":50000,"components":[{"capacity":1024,"id":["00"],"kind":"flash","slots":[49152,50184]}]}

run init r.json k
3
base overlaps slot of 0

text r.json
{"base":"65536","components":[{"capacity":1024,"id":["00"],"kind":"flash","slots":[49152,50184]}]}

run init r.json k
3
bad field /base

run status
13
blank"#;

/// As many components as there may be, with the highest base; one more is refused. Then a base that lies between two slots,
/// and the lowest one, before both: nothing is left between them.
const TAKEN: &str = r#"text 33.json
{"base":102400,"components":[
{"capacity":1,"id":["10"],"kind":"ram"},{"capacity":1,"id":["11"],"kind":"ram"},{"capacity":1,"id":["12"],"kind":"ram"},
{"capacity":1,"id":["13"],"kind":"ram"},{"capacity":1,"id":["14"],"kind":"ram"},{"capacity":1,"id":["15"],"kind":"ram"},
{"capacity":1,"id":["16"],"kind":"ram"},{"capacity":1,"id":["17"],"kind":"ram"},{"capacity":1,"id":["18"],"kind":"ram"},
{"capacity":1,"id":["19"],"kind":"ram"},{"capacity":1,"id":["20"],"kind":"ram"},{"capacity":1,"id":["21"],"kind":"ram"},
{"capacity":1,"id":["22"],"kind":"ram"},{"capacity":1,"id":["23"],"kind":"ram"},{"capacity":1,"id":["24"],"kind":"ram"},
{"capacity":1,"id":["25"],"kind":"ram"},{"capacity":1,"id":["26"],"kind":"ram"},{"capacity":1,"id":["27"],"kind":"ram"},
{"capacity":1,"id":["28"],"kind":"ram"},{"capacity":1,"id":["29"],"kind":"ram"},{"capacity":1,"id":["30"],"kind":"ram"},
{"capacity":1,"id":["31"],"kind":"ram"},{"capacity":1,"id":["32"],"kind":"ram"},{"capacity":1,"id":["33"],"kind":"ram"},
{"capacity":1,"id":["34"],"kind":"ram"},{"capacity":1,"id":["35"],"kind":"ram"},{"capacity":1,"id":["36"],"kind":"ram"},
{"capacity":1,"id":["37"],"kind":"ram"},{"capacity":1,"id":["38"],"kind":"ram"},{"capacity":1,"id":["39"],"kind":"ram"},
{"capacity":1,"id":["40"],"kind":"ram"},{"capacity":1,"id":["41"],"kind":"ram"},{"capacity":1,"id":["42"],"kind":"ram"}
]}

change 32.json 33.json
30 40 20

run init 33.json k
3
33 components

run init 32.json k
0
ready

stands 45056
a502 0000000000019000

run status
15
nothing installed

flash 45056
00

text r.json
{"base":50184,"components":[{"capacity":1024,"id":["00"],"kind":"flash","slots":[49152,275464]}]}

run init r.json k
0
ready

flash 45056
00

text r.json
{"base":49152,"components":[{"capacity":1024,"id":["00"],"kind":"flash","slots":[274432,275464]}]}

run init r.json k
0
ready"#;

/// The root, and the configuration page at the base: gate, version, the length of the key and the count of components; the
/// key; the component, and zeros. Byte 0 stays closed.
const FORMATTED: &str = r#"text based.json
{"base":65536,"components":[{"capacity":1024,"id":["00"],"kind":"flash","slots":[49152,50184]}]}

run init based.json k
0
ready

stands 0
00

stands 45056
a502 0000000000010000 00

stands 65536
a5020501 61206b6579 00*59 0002 038141 00*62 00*51 0000000000000400 000000000000c000000000000000c408 00*4402

run init based.json k
14
not blank

run init d k
14
not blank

run status
15
nothing installed

run boot
15
nothing installed"#;

/// An open root is judged whatever byte 0 is: of another version, or with a base that is outside, it is bad, never blank.
const DAMAGED: &str = "flash 0
a5

run status
15
nothing installed

flash 45057
03

run status
13
bad config

flash 45057
02 00000000000190 01

run boot
13
bad config

flash 0
00

run init d k
14
not blank

flash 45056
00

run status
13
blank

run init d k
0
ready";

/// A flash is formatted with a base, and an update is installed and started: a record page, the bank's first bytes, and
/// what is told. Where version 1 has its records nothing stands.
const INSTALLED: &str = r#"text based.json
{"base":65536,"components":[{"capacity":1024,"id":["00"],"kind":"flash","slots":[49152,50184]}]}

run init based.json k
0
ready

make 1.json k 1.suit
0
made 175

run update 1.suit img=abc.img
0
installed 1

stands 73728
a5 0000000000000001 0000000000000001 00 00000000000000af 20 2ede1de95a655c3dae8ceff0cb6a7dab3112f7110678df0ef8653bf63c795c99 00*32 01 00*31

stands 77824
00

stands 81920
d86ba2025853825824822f58202ede1de95a655c3dae8ceff0cb6a7dab3112f7110678df0ef8653bf63c795c99

stands 0
00*45056

run status
0
FIRST UPDATE

run boot
0
ended"#;

/// An envelope that no bank of version 1 holds, behind a reference of 20,000 bytes, is installed, and an older one no more.
const LONG: &str = r#"change long.json 2.json
208 0 2c227265666572656e6365223a22 6f*20000 22

make long.json k long.suit
0
made 20180

run update long.suit img=abd.img
0
installed 2

stands 77824
a5 0000000000000002 0000000000000002 01 0000000000004ed4 20 e181552569c65d00c35f59e06c347f249195a5ff3fdec59b15a0d850b3714922 00*32 00*32

run update 1.suit img=abc.img
5
rollback: recorded 2, offered 1

run status
0
sequence 2
generation 2
bank 1
digest e181552569c65d00c35f59e06c347f249195a5ff3fdec59b15a0d850b3714922
component 0 slot 0 length 3

run boot
0
ended"#;

/// Without a base it is too long.
const TOO_LONG: &str = "run init d k
0
ready

change long.json 2.json
208 0 2c227265666572656e6365223a22 6f*20000 22

make long.json k long.suit
0
made 20180

run update long.suit img=abd.img
21
too long envelope";

/// Nothing is started.
const NOTHING: &str = "run boot
15
nothing installed";

#[test]
fn a_flash_is_formatted_with_a_base(rt: HostRuntime) -> Result<(), AllocError> {
    assert!(rt; both_launch_on_large(rt.alloc(), (REFUSED, TAKEN), &[])?);
    assert!(rt; both_launch_on_large(rt.alloc(), (FORMATTED, DAMAGED), &[])?);
    Ok(())
}

#[test]
fn what_is_installed_behind_a_base_is_started(rt: HostRuntime) -> Result<(), AllocError> {
    assert!(rt; both_launch_on_large(rt.alloc(), (INSTALLED, LONG), &[b"abc", b"abd"])?);
    assert!(rt; both_launch_on_large(rt.alloc(), (TOO_LONG, NOTHING), &[])?);
    Ok(())
}
