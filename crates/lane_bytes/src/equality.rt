//! Whether two slices are equal.

ghost use Rattle.std.specs.Prelude.{◌≡◌, ◌↔◌, ◌+◌, ◌≤◌, IsTrue, length};
ghost use Rattle.std.specs.Simd.Lanes.{chunk};
ghost use Rattle.std.specs.Str.{bytes_eq};

use crate::LANES;
use std::simd::prelude::*;

/// Whether the slices hold the same 32 bytes from `from` on.
fn chunk_same(a: &[u8], b: &[u8], from: usize) -> bool
    requires a_room { from + 32 ≤ length a.now }
    requires b_room { from + 32 ≤ length b.now }
    ensures { IsTrue result ↔ (chunk from 32 a.now ≡ chunk from 32 b.now) }
{
    u8x32::from_slice(&a[from..]) == u8x32::from_slice(&b[from..])
}

/// Whether the slices are equal. Their lengths may differ.
pub fn same(a: &[u8], b: &[u8]) -> bool
    ensures value { result ≡ bytes_eq a.now b.now }
    ensures same { IsTrue result ↔ (a.now ≡ b.now) }
{
    if a.len() != b.len() {
        return false;
    }
    let whole = a.len() / LANES;
    'chunks: for k in 0..whole {
        if !chunk_same(a, b, LANES * k) {
            return false;
        }
    }
    a[LANES * whole..] == b[LANES * whole..]
}
