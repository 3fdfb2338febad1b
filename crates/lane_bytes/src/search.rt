//! The first byte that is not a given one.

ghost use Rattle.std.specs.Prelude.{◌≡◌, ◌+◌, ◌≤◌, ◌==◌, not, MatchOption, length};
ghost use Rattle.std.specs.List.{prefix_len};
ghost use Rattle.std.specs.Simd.Lanes.{chunk};
ghost use Rattle.lane_bytes.specs.Bytes.{AreAll, IsFirstOther};

use crate::LANES;
use std::simd::prelude::*;

/// How many of the 32 bytes from `from` on come before the first that is not `byte`.
fn run_in_chunk(a: &[u8], byte: u8, from: usize) -> usize
    requires { from + 32 ≤ length a.now }
    ensures { result ≡ prefix_len (λ x. not (not (x == byte))) (chunk from 32 a.now) }
{
    let others = u8x32::from_slice(&a[from..])
        .simd_ne(u8x32::splat(byte))
        .to_bitmask();
    if others == 0 {
        LANES
    } else {
        others.trailing_zeros() as usize
    }
}

/// The index of the first byte that is not `byte`, or `None` if all are.
pub fn first_other(a: &[u8], byte: u8) -> Option<usize>
    ensures { MatchOption result (AreAll byte (length a.now) a.now) (IsFirstOther a.now byte) }
{
    let mut at = 0;
    'chunks: while at + LANES <= a.len() {
        let run = run_in_chunk(a, byte, at);
        if run < LANES {
            return Some(at + run);
        }
        at += LANES;
    }
    'rest: while at < a.len() {
        if a[at] != byte {
            return Some(at);
        }
        at += 1;
    }
    None
}
