//! Which updates are accepted beside what is recorded.

use crate::fails::{Fails, Object};
use crate::tests::goes::{both_launch, launches};
use std::alloc::AllocError;

const BESIDE_A_RECORD: &str = "run update 1.suit img=abc.img
0
installed 1

run update 1.suit img=abc.img
0
installed 1

make 0.json k 0.suit
0
made 175

run update 0.suit img=abc.img
5
rollback: recorded 1, offered 0

make 1-other.json k other.suit
0
made 182

run update other.suit img=abc.img
5
rollback: number 1 has another manifest

make 1-sha512.json k sha512.suit
0
made 208

run update sha512.suit img=abc.img
5
rollback: number 1 has another manifest

run status
0
sequence 1
generation 2
bank 0
digest 2ede1de95a655c3dae8ceff0cb6a7dab3112f7110678df0ef8653bf63c795c99
component 0 slot 0 length 3

run update 1.suit img=abc.img
0
installed 1

run status
0
sequence 1
generation 3
bank 0
digest 2ede1de95a655c3dae8ceff0cb6a7dab3112f7110678df0ef8653bf63c795c99
component 0 slot 1 length 3";

const BEFORE_A_FORMAT: &str = "make 1.json k 1.suit
0
made 175

run update 1.suit img=abc.img
13
blank";

const UNDER_ANOTHER_KEY: &str = "run init d other
0
ready

run update 1.suit img=abc.img
4
not authentic: mac differs";

const UNKNOWN: &str = "run update u.suit img=abc.img
20
absent u.suit

make unknown.json k u.suit
0
made 107

run update u.suit
18
unknown component 1";

// The page is of the last generation: sequence number 1, bank 0, 173 bytes, a digest, and slot 1 of component 0. No payload
// is given, so that a procedure would stop.
const WORN: &str = "flash 4096
a5 ff*8 0000000000000001 0000000000000000ad20 11*32 00*32 0100000000000000

make 0.json k 0.suit
0
made 175

run update 0.suit
5
rollback: recorded 1, offered 0

run update 1.suit
5
rollback: number 1 has another manifest

make 2-abc.json k 2.suit
0
made 175

run update 2.suit
19
record worn";

#[test]
fn an_update_is_judged_beside_the_record(rt: HostRuntime) -> Result<(), AllocError> {
    assert!(rt; launches(rt.alloc(), BESIDE_A_RECORD, &[])?);
    assert!(rt; launches(rt.alloc(), UNKNOWN, &[])?);
    assert!(rt; launches(rt.alloc(), WORN, &[])?);
    let unformatted = (BEFORE_A_FORMAT, UNDER_ANOTHER_KEY);
    assert!(rt; both_launch(rt.alloc(), unformatted, Fails::of(Object::Host, &[]), &[])?);
    Ok(())
}
