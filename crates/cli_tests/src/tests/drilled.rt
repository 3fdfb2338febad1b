//! A drill beside the draws of its rounds, which another program counted: of those of 7 that want no cut, 65 want no wrong payload
//! either and are installed and started, and 25 are stopped by one.

use crate::tests::goes::both_go;
use std::alloc::AllocError;

const DRILL: &str = "drill 7
0
drill 7: rounds 200, installed 123, stopped 59, cut 18, launches 200, wrong 0";

#[test]
fn a_drill_is_the_same_again(rt: HostRuntime) -> Result<(), AllocError> {
    assert!(rt; both_go(rt.alloc(), (DRILL, DRILL))?);
    Ok(())
}
