//! What a session puts beside the program: its lines, and what its steps on files tell.

use crate::memory::told;
use det_cbor::Bytes;
use itoa::Buffer;
use std::alloc::Global;
use suit_edge::{Host, Sink, Taken, take_all};

/// The longest file that is read, in bytes.
const LONGEST: u64 = 1_048_576;

// The bytes of a file, if it is there and can be read.
fn content<H: Host>(alloc: Global, host: &mut H, name: &str) -> Option<Bytes> {
    match take_all(alloc, host, name, LONGEST) {
        Taken::Got(bytes) => Some(bytes),
        _ => None,
    }
}

/// Puts a line.
pub(crate) fn tell<K: Sink>(out: &mut K, line: &str) {
    out.put(line.as_bytes());
    out.put(b"\n");
}

/// Puts a line of the session behind a dollar sign.
pub(crate) fn tell_line<K: Sink>(out: &mut K, line: &str) {
    out.put(b"$ ");
    tell(out, line);
}

/// Puts a line on a status.
pub(crate) fn tell_status<K: Sink>(out: &mut K, status: u8) {
    let mut digits = Buffer::new();
    out.put(b"[status ");
    out.put(digits.format(status).as_bytes());
    out.put(b"]\n");
}

/// Puts the bytes of a file.
pub(crate) fn print<H: Host, K: Sink>(alloc: Global, host: &mut H, out: &mut K, name: &str) {
    match content(alloc, host, name) {
        Some(bytes) => out.put(bytes.as_slice()),
        None => out.put(b"no such file\n"),
    };
}

/// Puts whether the session has held more memory than a judgement may, by the file in which the system tells it.
pub(crate) fn tell_memory<H: Host, K: Sink>(alloc: Global, system: &mut H, out: &mut K) {
    match content(alloc, system, "/proc/self/status") {
        Some(status) => out.put(told(status.as_slice()).as_bytes()),
        None => out.put(b"not told\n"),
    };
}

// The line on two files.
fn compared(one: Option<Bytes>, other: Option<Bytes>) -> &'static str {
    let Some(one) = one else {
        return "no such file\n";
    };
    let Some(other) = other else {
        return "no such file\n";
    };
    if one.as_slice() == other.as_slice() {
        "the same\n"
    } else {
        "they differ\n"
    }
}

/// Puts whether two files are the same.
pub(crate) fn compare<H: Host, K: Sink>(
    alloc: Global,
    host: &mut H,
    out: &mut K,
    one: &str,
    other: &str,
) {
    let one = content(alloc, host, one);
    let other = content(alloc, host, other);
    out.put(compared(one, other).as_bytes());
}
