//! The trail that keeps nothing.

use flash_layout::{NoTrail, Trail};

// Its count is so high that no outcome is left to be kept.
#[test]
fn no_trail_tells_the_highest_count(rt: HostRuntime) {
    assert!(rt; NoTrail.kept() == u64::MAX);
}
