//! Which invokes of a list of events are covered.

ghost use Rattle.std.specs.Prelude.{◌≡◌, ◌↔◌, IsTrue};
ghost use Rattle.path_model.specs.Safe.{HasMatched, IsCovered};
ghost use Rattle.path_model.specs.FirstUncovered.{IsFirstUncovered, Bears};

use crate::{Event, Events};
use suit_params::Digest;

// What an event does to a match of a component under a digest and a size.
enum Bearing {
    // It is such a match.
    Matches,
    // It is a write of the component, which ends the match.
    Ends,
    // It leaves the match as it is.
    Leaves,
}

fn bearing_of(event: &Event, component: u32, digest: &Digest, size: Option<u64>) -> Bearing
    ensures { Bears event.now component digest.now size result }
{
    match event {
        Event::Matched {
            component: matched,
            digest: matched_digest,
            size: matched_size,
        } => {
            if *matched == component && *matched_digest == *digest && *matched_size == size {
                Bearing::Matches
            } else {
                Bearing::Leaves
            }
        }
        Event::Wrote { component: written } => {
            if *written == component {
                Bearing::Ends
            } else {
                Bearing::Leaves
            }
        }
        _ => Bearing::Leaves,
    }
}

/// Whether the match of a component under a digest and a size stands after these events: the component matched, and was
/// not written since. An absent size only equals an absent one.
pub fn has_matched(events: &[Event], component: u32, digest: &Digest, size: Option<u64>) -> bool
    ensures { IsTrue result ↔ HasMatched events.now component digest.now size }
{
    let mut left = events.len();
    while left > 0 {
        match bearing_of(&events[left - 1], component, digest, size) {
            Bearing::Matches => return true,
            Bearing::Ends => return false,
            Bearing::Leaves => left -= 1,
        }
    }
    false
}

/// Whether an event that follows these is covered. An invoke is covered if the match of its component under the digest
/// and size in force stands. Any other event is.
pub fn is_covered(before: &[Event], event: &Event) -> bool
    ensures { IsTrue result ↔ IsCovered before.now event.now }
{
    match event {
        Event::Invoked {
            component,
            digest: Some(digest),
            size,
            ..
        } => has_matched(before, *component, digest, *size),
        Event::Invoked { digest: None, .. } => false,
        _ => true,
    }
}

/// Returns the index of the first uncovered invoke, or `None` if all are covered. For each invoke, it searches the
/// events before it backwards, down to the match or to a write of the component.
pub fn first_uncovered(events: &Events) -> Option<usize>
    ensures { IsFirstUncovered events.now result }
{
    let events = events.as_slice();
    let mut index = 0;
    while index < events.len() {
        if !is_covered(&events[..index], &events[index]) {
            return Some(index);
        }
        index += 1;
    }
    None
}
