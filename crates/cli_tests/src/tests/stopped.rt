//! Updates that stop in their procedure.

use crate::fails::{Fails, Object};
use crate::tests::goes::{both_launch, launches, launches_past};
use std::alloc::{AllocError, Global};

const FAILED_MATCH: &str = "run update 1.suit img=abc.img
0
installed 1

make 2-abc.json k 2.suit
0
made 175

run update 2.suit img=abd.img
6
stopped at 156: condition failed

run status
0
FIRST UPDATE

run boot
0
ended";

const NO_PAYLOAD: &str = "run update 1.suit
6
stopped at 173: absent

make 1-large.json k large.suit
0
made 177

run update large.suit img=large.img
6
stopped at 175: too large

run update large.suit
6
stopped at 175: absent

run update large.suit img=nofile
6
stopped at 175: absent

run status
15
nothing installed";

const NOT_TO_BE_DONE: &str = "make no-uri.json k u.suit
0
made 109

run update u.suit img=abc.img
6
stopped at 107: missing

make no-content.json k u.suit
0
made 109

run update u.suit
6
stopped at 107: missing

make itself.json k u.suit
0
made 113

run update u.suit
6
stopped at 111: same component

run status
15
nothing installed";

const FAILED_READ: &str = "run update 1.suit img=abc.img
7
host fault

run update 1.suit img=abc.img
0
installed 1";

// The call of the host that pulls the envelope's first piece.
const ENVELOPE_PULL: u64 = 17;

const FAILED_WRITE: &str = "run update 1.suit img=abc.img
8
stopped at 173: flash fault

run status
15
nothing installed

run update 1.suit img=abc.img
0
installed 1";

// The first call of the flash that this fetch makes.
const FIRST_OF_FETCH: u64 = 16;

const FAILED_RECORD: &str = "run update 1.suit img=abc.img
8
flash fault

run status
15
nothing installed

run update 1.suit img=abc.img
0
installed 1";

// The last call of the flash that the record needs.
const LAST_OF_RECORD: u64 = 28;

const FAILED_LAUNCH: &str = "make 1-at-once.json k u.suit
0
made 179

run update u.suit img=abc.img
10
stopped at 177: launch fault

run status
15
nothing installed

run update u.suit img=abc.img
0
installed 1";

// The call of the host that pulls the first piece of this fetch.
const FIRST_PULL: u64 = 20;

const FAILED_FETCH: &str = "run status
15
nothing installed

run update 1.suit img=abc.img
7
stopped at 173: host fault

run update 1.suit img=abc.img
0
installed 1

run boot
0
ended";

const INSTALLED: &str = "run init d k
0
ready

make 1.json k 1.suit
0
made 175

run update 1.suit img=abc.img
0
installed 1";

const FAILED_IN_MATCH: &str = "run boot
8
stopped at 156: flash fault

run boot
0
ended";

const FAILED_IN_INVOKE: &str = "run boot
8
stopped at 161: flash fault

run boot
0
ended";

// Whether the session passes after the update if some call of the flash fails.
fn one_call_fails_so(alloc: Global, session: &str) -> Result<bool, AllocError> {
    for call in 0..100u64 {
        let calls = [call];
        let fails = Fails::of(Object::Flash, &calls);
        if both_launch(alloc, (INSTALLED, session), fails, &[b"abc"])? {
            return Ok(true);
        }
    }
    Ok(false)
}

#[test]
fn a_boot_tells_where_the_flash_fails(rt: HostRuntime) -> Result<(), AllocError> {
    assert!(rt; one_call_fails_so(rt.alloc(), FAILED_IN_MATCH)?);
    assert!(rt; one_call_fails_so(rt.alloc(), FAILED_IN_INVOKE)?);
    Ok(())
}

#[test]
fn a_procedure_stops_where_it_fails(rt: HostRuntime) -> Result<(), AllocError> {
    assert!(rt; launches(rt.alloc(), FAILED_MATCH, &[b"abc"])?);
    assert!(rt; launches(rt.alloc(), NO_PAYLOAD, &[])?);
    assert!(rt; launches(rt.alloc(), NOT_TO_BE_DONE, &[])?);
    Ok(())
}

#[test]
fn a_call_that_fails_is_told(rt: HostRuntime) -> Result<(), AllocError> {
    let alloc = rt.alloc();
    let pull = Fails::of(Object::Host, &[ENVELOPE_PULL]);
    assert!(rt; launches_past(alloc, FAILED_READ, pull, &[])?);
    let write = Fails::of(Object::Flash, &[FIRST_OF_FETCH]);
    assert!(rt; launches_past(alloc, FAILED_WRITE, write, &[])?);
    let record = Fails::of(Object::Flash, &[LAST_OF_RECORD]);
    assert!(rt; launches_past(alloc, FAILED_RECORD, record, &[])?);
    let launch = Fails::of(Object::Launcher, &[0]);
    assert!(rt; launches_past(alloc, FAILED_LAUNCH, launch, &[b"abc"])?);
    let fetch = Fails::of(Object::Host, &[FIRST_PULL]);
    assert!(rt; launches_past(alloc, FAILED_FETCH, fetch, &[b"abc"])?);
    Ok(())
}

const WIDE: &str = "run init wide k
0
ready

make 1-long.json k 1.suit
0
made 177";

const FAILED_LONG_FETCH: &str = "run update 1.suit img=long.img
7
stopped at 175: host fault

run update 1.suit img=long.img
0
installed 1

run boot
0
ended";

// The call of the host that pulls the third piece of that fetch.
const THIRD_PULL: u64 = 24;

#[test]
fn a_fetch_fails_at_a_later_piece(rt: HostRuntime) -> Result<(), AllocError> {
    let third = Fails::of(Object::Host, &[THIRD_PULL]);
    let sessions = (WIDE, FAILED_LONG_FETCH);
    assert!(rt; both_launch(rt.alloc(), sessions, third, &[&[b'l'; 10000]])?);
    Ok(())
}
