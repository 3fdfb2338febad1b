//! Whether two events are the same.

use path_model::Event;
use suit_commands::TestKind;
use suit_params::{Digest, Param};

fn is_same_param(one: &Param, other: &Param) -> bool {
    match one {
        Param::Vendor(id) => matches!(other, Param::Vendor(found) if found == id),
        Param::Class(id) => matches!(other, Param::Class(found) if found == id),
        Param::Device(id) => matches!(other, Param::Device(found) if found == id),
        Param::Digest(digest) => {
            matches!(other, Param::Digest(found) if found.get() == digest.get())
        }
        Param::Slot(slot) => matches!(other, Param::Slot(found) if found == slot),
        Param::Strict(value) => matches!(other, Param::Strict(found) if found == value),
        Param::Soft(value) => matches!(other, Param::Soft(found) if found == value),
        Param::Size(size) => matches!(other, Param::Size(found) if found == size),
        Param::Content(bytes) => {
            matches!(other, Param::Content(found) if found.as_slice() == bytes.as_slice())
        }
        Param::Uri(uri) => matches!(other, Param::Uri(found) if found.as_str() == uri.as_str()),
        Param::Source(source) => matches!(other, Param::Source(found) if found == source),
        Param::Args(bytes) => {
            matches!(other, Param::Args(found) if found.as_slice() == bytes.as_slice())
        }
    }
}

// Whether the other event sets the same parameter.
fn is_same_set(of: u32, param: &Param, other: &Event) -> bool {
    match other {
        Event::Set {
            component,
            param: found,
        } => *component == of && is_same_param(param, found),
        _ => false,
    }
}

fn is_same_size(one: Option<u64>, other: Option<u64>) -> bool {
    match one {
        Some(size) => matches!(other, Some(found) if found == size),
        None => other.is_none(),
    }
}

fn is_same_digest(one: &Option<Digest>, other: &Option<Digest>) -> bool {
    match one {
        Some(digest) => matches!(other, Some(found) if found == digest),
        None => other.is_none(),
    }
}

// Whether the other event is the same attempt at a condition.
fn is_same_attempt(of: u32, kind: TestKind, passed: bool, other: &Event) -> bool {
    match other {
        Event::Tried {
            component,
            kind: found,
            passed: also,
        } => *component == of && *found == kind && *also == passed,
        _ => false,
    }
}

// Whether the other event is the same match.
fn is_same_match(of: u32, digest: &Digest, size: Option<u64>, other: &Event) -> bool {
    match other {
        Event::Matched {
            component,
            digest: found,
            size: length,
        } => *component == of && found == digest && is_same_size(*length, size),
        _ => false,
    }
}

// Whether the other event is the same invoke.
fn is_same_invoke(
    of: u32,
    digest: &Option<Digest>,
    size: Option<u64>,
    passed: bool,
    other: &Event,
) -> bool {
    match other {
        Event::Invoked {
            component,
            digest: found,
            size: length,
            passed: also,
        } => {
            *component == of
                && *also == passed
                && is_same_digest(found, digest)
                && is_same_size(*length, size)
        }
        _ => false,
    }
}

/// Whether both events are the same.
pub(crate) fn is_same_event(one: &Event, other: &Event) -> bool {
    match one {
        Event::Set { component, param } => is_same_set(*component, param, other),
        Event::Tried {
            component,
            kind,
            passed,
        } => is_same_attempt(*component, *kind, *passed, other),
        Event::Matched {
            component,
            digest,
            size,
        } => is_same_match(*component, digest, *size, other),
        Event::Missed { component } => {
            matches!(other, Event::Missed { component: of } if of == component)
        }
        Event::Wrote { component } => {
            matches!(other, Event::Wrote { component: of } if of == component)
        }
        Event::Invoked {
            component,
            digest,
            size,
            passed,
        } => is_same_invoke(*component, digest, *size, *passed, other),
        Event::Failed { place } => matches!(other, Event::Failed { place: at } if at == place),
    }
}
