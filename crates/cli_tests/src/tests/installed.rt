//! Updates that are installed, and what is started then.

use crate::tests::goes::launches;
use std::alloc::AllocError;

const STARTED: &str = "run update 1.suit img=abc.img
0
installed 1

run status
0
FIRST UPDATE

run init d k
14
not blank

run boot
0
ended";

// The sizes are the least and the greatest that a slot takes, and one more.
const SIZES: &str = "make 1-empty.json k 1.suit
0
made 175

make 2-full.json k 2.suit
0
made 177

make 3-large.json k 3.suit
0
made 177

run update 1.suit img=empty.img
0
installed 1

run boot
0
ended

run update 2.suit img=full.img
0
installed 2

run boot
0
ended

run update 3.suit img=large.img
6
stopped at 175: too large

run boot
0
ended";

const LAST_NUMBER: &str = "make last.json k u.suit
0
made 183

run update u.suit img=abc.img
0
installed 18446744073709551615

run update u.suit img=abc.img
0
installed 18446744073709551615

run boot
0
ended";

const TRIMMED: &str = "make 1-severed.json k u.suit
0
made 212

run update u.suit img=abc.img
0
installed 1

run boot
0
ended";

// The line of the update is not put, and it is installed all the same.
const UNTOLD: &str = "run update 1.suit img=abc.img
9

run status
0
FIRST UPDATE

run boot
0
ended";

#[test]
fn what_is_installed_is_started(rt: HostRuntime) -> Result<(), AllocError> {
    assert!(rt; launches(rt.alloc(), STARTED, &[b"abc"])?);
    let full = [b'f'; 1024];
    assert!(rt; launches(rt.alloc(), SIZES, &[b"", &full, &full])?);
    assert!(rt; launches(rt.alloc(), LAST_NUMBER, &[b"abc"])?);
    assert!(rt; launches(rt.alloc(), TRIMMED, &[b"abc"])?);
    assert!(rt; launches(rt.alloc(), UNTOLD, &[b"abc"])?);
    Ok(())
}
