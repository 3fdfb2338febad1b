//! The first components that have the same identifier, share a byte, lie outside the flash, or lie
//! over the base.

ghost use Rattle.std.specs.Prelude.{◌≤◌, ◌<◌, ◌↔◌, All, IsTrue, length, MatchOption};
ghost use Rattle.suit_params.specs.Alike.{TellsAlike};
ghost use Rattle.flash_layout.specs.Overlaps.{identifier_of, IsClearItself, ShareNone, SharesNone, IsFirstShared, TellsOverlap, IsFirstOutside, AreInside, IsFirstOver, AreClearOfBase};

use crate::frame::MOST_ENTRIES;
use crate::rules::{all_clear, clear, slots_of, starts_clear, starts_inside};
use crate::{Entry, Frame};
use suit_params::first_like;

/// The first two of at most 32 components with the same identifier: the second is as low as
/// possible, and then the first.
pub(crate) fn first_alike(entries: &[Entry]) -> Option<(u32, u32)>
    requires { length entries.now ≤ MOST_ENTRIES }
    ensures { TellsAlike identifier_of entries.now result }
{
    for last in 0..entries.len() {
        if let Some(first) = first_like(entries, last) {
            return Some((first as u32, last as u32));
        }
    }
    None
}

// Whether a component's slots share no byte with each other.
fn is_clear_itself(entry: &Entry) -> bool
    ensures { IsTrue result ↔ IsClearItself entry.now }
{
    if entry.slots != 2 {
        return true;
    }
    clear(
        entry.starts[0],
        entry.capacity,
        entry.starts[1],
        entry.capacity,
    )
}

// Whether two components share no byte. For one component, whether its two slots share none.
fn share_none(entries: &[Entry], i: usize, j: usize) -> bool
    requires first { i < length entries.now }
    requires second { j < length entries.now }
    requires slots { All (λ e. e.slots ≤ 2) entries.now }
    ensures { IsTrue result ↔ ShareNone entries.now i j }
{
    let a = &entries[i];
    if i == j {
        return is_clear_itself(a);
    }
    let b = &entries[j];
    all_clear(slots_of(a), a.capacity, slots_of(b), b.capacity)
}

// The first component from `i` on that shares a byte with component `i`.
fn first_shared(entries: &[Entry], i: usize) -> Option<usize>
    requires inside { i < length entries.now }
    requires slots { All (λ e. e.slots ≤ 2) entries.now }
    ensures { MatchOption result (SharesNone entries.now i) (IsFirstShared entries.now i) }
{
    for j in i..entries.len() {
        if !share_none(entries, i, j) {
            return Some(j);
        }
    }
    None
}

/// The first two of at most 32 components that share a byte: the first is as low as possible, and
/// then the second, which may be the first itself.
pub(crate) fn first_overlap(entries: &[Entry]) -> Option<(u32, u32)>
    requires few { length entries.now ≤ MOST_ENTRIES }
    requires slots { All (λ e. e.slots ≤ 2) entries.now }
    ensures { TellsOverlap entries.now result }
{
    for first in 0..entries.len() {
        if let Some(second) = first_shared(entries, first) {
            return Some((first as u32, second as u32));
        }
    }
    None
}

/// The first of at most 32 components with a slot where no slot may be, on a flash of this size.
pub(crate) fn first_outside(size: u64, entries: &[Entry]) -> Option<u32>
    requires few { length entries.now ≤ MOST_ENTRIES }
    requires slots { All (λ e. e.slots ≤ 2) entries.now }
    ensures { MatchOption result (AreInside size entries.now)
        (IsFirstOutside size entries.now) }
{
    for i in 0..entries.len() {
        let entry = &entries[i];
        if !starts_inside(size, slots_of(entry), entry.capacity) {
            return Some(i as u32);
        }
    }
    None
}

/// The first of at most 32 components with a slot that shares a byte with the frame's head or work
/// area.
pub(crate) fn first_over(frame: Frame, entries: &[Entry]) -> Option<u32>
    requires few { length entries.now ≤ MOST_ENTRIES }
    requires slots { All (λ e. e.slots ≤ 2) entries.now }
    ensures { MatchOption result (AreClearOfBase frame entries.now)
        (IsFirstOver frame entries.now) }
{
    for i in 0..entries.len() {
        let entry = &entries[i];
        if !starts_clear(frame, slots_of(entry), entry.capacity) {
            return Some(i as u32);
        }
    }
    None
}
