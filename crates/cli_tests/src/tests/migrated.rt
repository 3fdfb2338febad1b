//! Sessions of `run migrate`.

use crate::session::BEGUN;
use crate::tests::goes::both_launch_on_large;
use std::alloc::AllocError;

/// A device of two slots is formatted, and two envelopes are made.
const BLANK: &str = "run migrate 65536
13
blank

run init d k
0
ready

make 1.json k 1.suit
0
made 175

make 2.json k 2.suit
0
made 175";

/// The first image is installed. Bases that are refused, too low and too high by one, over a slot, and no number, leave all as
/// it was. Then the root and the configuration page are at the base, with what is installed, and what comes after it.
const INSTALLED: &str = "run update 1.suit img=abc.img
0
installed 1

run migrate 49151
3
base is outside

run migrate 102401
3
base is outside

run migrate 18446744073709551615
3
base is outside

run migrate 50000
3
base overlaps slot of 0

run migrate 065536
2
USAGE

run migrate
2
USAGE

stands 45056
00*10

run status
0
FIRST UPDATE

run migrate 65536
0
migrated

stands 45056
a502 0000000000010000 00

stands 65536
a5020501 61206b6579 00*59 0002 038141 00*62 00*51 0000000000000400 000000000000c000 000000000000c408 00*4402

run status
0
FIRST UPDATE

run boot
0
ended

run migrate 65536
22
already layout 2

run migrate 1
22
already layout 2

run init d k
14
not blank

run update 2.suit img=abd.img
0
installed 2

run boot
0
ended";

/// What is recorded in bank 1 moves to bank 0, and the highest base is taken.
const SECOND: &str = "run update 1.suit img=abc.img
0
installed 1

run update 2.suit img=abd.img
0
installed 2

run status
0
sequence 2
generation 2
bank 1
digest eeab3f8504e90aacff92da31a9bde940362ad2bdd4cfaa1a92b50f1c5cf37a73
component 0 slot 0 length 3

run migrate 102400
0
migrated

run status
0
sequence 2
generation 2
bank 0
digest eeab3f8504e90aacff92da31a9bde940362ad2bdd4cfaa1a92b50f1c5cf37a73
component 0 slot 0 length 3

run boot
0
ended";

/// Where nothing is installed, nothing is.
const EMPTY: &str = "run migrate 65536
0
migrated

run status
15
nothing installed

run update 1.suit img=abc.img
0
installed 1

run status
0
FIRST UPDATE";

/// A configuration that is bad.
const BAD: &str = "flash 1
03

run migrate 65536
13
bad config";

#[test]
fn what_is_installed_moves(rt: HostRuntime) -> Result<(), AllocError> {
    assert!(rt; both_launch_on_large(rt.alloc(), (BLANK, INSTALLED), &[b"abc", b"abd"])?);
    assert!(rt; both_launch_on_large(rt.alloc(), (BLANK, SECOND), &[b"abd"])?);
    assert!(rt; both_launch_on_large(rt.alloc(), (BLANK, EMPTY), &[])?);
    assert!(rt; both_launch_on_large(rt.alloc(), (BEGUN, BAD), &[])?);
    Ok(())
}
