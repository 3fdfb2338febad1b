//! Draws procedures: command sequences for three components, in bytes.

ghost use Rattle.std.specs.Prelude.{◌<◌};

use std::alloc::{AllocError, Global};

// Parameters, each with two values. The digests are those of "abc" by SHA-256 and of "a" by SHA-512.
const PARAMS: [[&[u8]; 2]; 8] = [
    [b"\x01\x50aaaaaaaaaaaaaaaa", b"\x01\x50bbbbbbbbbbbbbbbb"],
    [
        b"\x03\x58\x24\x82\x2f\x58\x20\xba\x78\x16\xbf\x8f\x01\xcf\xea\x41\x41\x40\xde\x5d\xae\x22\x23\xb0\x03\x61\xa3\x96\x17\x7a\x9c\xb4\x10\xff\x61\xf2\x00\x15\xad",
        b"\x03\x58\x45\x82\x38\x2b\x58\x40\x1f\x40\xfc\x92\xda\x24\x16\x94\x75\x09\x79\xee\x6c\xf5\x82\xf2\xd5\xd7\xd2\x8e\x18\x33\x5d\xe0\x5a\xbc\x54\xd0\x56\x0e\x0f\x53\x02\x86\x0c\x65\x2b\xf0\x8d\x56\x02\x52\xaa\x5e\x74\x21\x05\x46\xf3\x69\xfb\xbb\xce\x8c\x12\xcf\xc7\x95\x7b\x26\x52\xfe\x9a\x75",
    ],
    [b"\x05\x00", b"\x05\x01"],
    [b"\x0d\xf5", b"\x0d\xf4"],
    [b"\x0e\x03", b"\x0e\x01"],
    [b"\x12\x41a", b"\x12\x43abc"],
    [b"\x15\x61a", b"\x15\x61b"],
    [b"\x16\x00", b"\x16\x02"],
];

const CONDITIONS: [&[u8]; 6] = [
    b"\x01\x0f",
    b"\x03\x0f",
    b"\x03\x0f",
    b"\x05\x0f",
    b"\x06\x0f",
    b"\x0e\x0f",
];

const INDICES: [&[u8]; 5] = [
    b"\x0c\x00",
    b"\x0c\x01",
    b"\x0c\x02",
    b"\x0c\xf5",
    b"\x0c\x82\x02\x00",
];

const DIRECTIVES: [&[u8]; 7] = [
    b"\x12\x0f",
    b"\x12\x0f",
    b"\x15\x0f",
    b"\x16\x0f",
    b"\x18\x1f\x0f",
    b"\x17\x0f",
    b"\x17\x0f",
];

// Sets all parameters of all components, with the values that are most likely.
const SETS: &[u8] = b"\x0c\xf5\x14\xa5\x05\x00\x0e\x03\x12\x41a\x15\x61a\x16\x01";

/// A linear congruential generator.
#[derive(Drop)]
pub(crate) struct Draws {
    pub alloc: Global,
    pub state: u64,
}

impl Draws {
    fn below(&mut self, limit: u64) -> usize
        requires { 0 < limit }
        ensures { result < limit }
    {
        self.state = self
            .state
            .wrapping_mul(6_364_136_223_846_793_005)
            .wrapping_add(1_442_695_040_888_963_407);
        ((self.state >> 33) % limit) as usize
    }
}

// Sequences that a command may have inside. Without bytes there is none.
#[derive(Clone, Copy)]
struct Inner<'a> {
    one: &'a [u8],
    other: &'a [u8],
}

const NO_INNER: Inner<'static> = Inner {
    one: b"",
    other: b"",
};

// Appends a byte string that holds a sequence of fewer than 65,536 bytes.
fn push_held(bytes: &mut Vec<u8>, held: &[u8]) -> Result<(), AllocError> {
    let length = held.len();
    if length < 24 {
        bytes.push(0x40 + length as u8)?;
    } else if length < 256 {
        bytes.extend_from_slice(&[0x58, length as u8])?;
    } else {
        bytes.extend_from_slice(&[0x59, (length / 256 % 256) as u8, (length % 256) as u8])?;
    }
    Ok(bytes.extend_from_slice(held)?)
}

// Draws one of two values, or nothing.
fn value_of(draws: &mut Draws, values: &[&'static [u8]; 2]) -> &'static [u8] {
    match draws.below(8) {
        0..5 => b"",
        5 | 6 => values[0],
        _ => values[1],
    }
}

// Appends some parameters. Returns the head of a map of them.
fn push_params(draws: &mut Draws, params: &mut Vec<u8>) -> Result<u8, AllocError> {
    let mut head: u8 = 0xa0;
    for values in &PARAMS {
        let value = value_of(draws, values);
        if !value.is_empty() {
            params.extend_from_slice(value)?;
            head = head.wrapping_add(1);
        }
    }
    Ok(head)
}

// Appends an override of some parameters.
fn push_override(draws: &mut Draws, bytes: &mut Vec<u8>) -> Result<(), AllocError> {
    let mut params = Vec::new(draws.alloc);
    let head = push_params(draws, &mut params)?;
    bytes.extend_from_slice(&[0x14, head])?;
    Ok(bytes.extend_from_slice(&params)?)
}

fn push_try(draws: &mut Draws, inner: Inner<'_>, bytes: &mut Vec<u8>) -> Result<(), AllocError> {
    bytes.extend_from_slice(b"\x0f\x82")?;
    push_held(bytes, inner.one)?;
    if draws.below(2) == 0 {
        return Ok(bytes.push(0xf6)?);
    }
    push_held(bytes, inner.other)
}

fn push_command(
    draws: &mut Draws,
    shared: bool,
    inner: Inner<'_>,
    bytes: &mut Vec<u8>,
) -> Result<(), AllocError> {
    match draws.below(10) {
        0 | 1 if !inner.one.is_empty() => push_try(draws, inner, bytes),
        2 if !inner.one.is_empty() => {
            bytes.extend_from_slice(b"\x18\x20")?;
            push_held(bytes, inner.one)
        }
        3 => Ok(bytes.extend_from_slice(INDICES[draws.below(5)])?),
        4 | 5 => push_override(draws, bytes),
        6..9 if shared => push_override(draws, bytes),
        6..9 => Ok(bytes.extend_from_slice(DIRECTIVES[draws.below(7)])?),
        _ => Ok(bytes.extend_from_slice(CONDITIONS[draws.below(6)])?),
    }
}

// Draws a sequence: these commands, and one to four that are drawn.
fn drawn(
    draws: &mut Draws,
    shared: bool,
    first: &[u8],
    inner: Inner<'_>,
) -> Result<Vec<u8>, AllocError> {
    let times = draws.below(4) + 1;
    let mut head = 0x80 + 2 * times as u8;
    if !first.is_empty() {
        head = head.wrapping_add(4);
    }
    let mut bytes = Vec::from_slice(draws.alloc, &[head])?;
    bytes.extend_from_slice(first)?;
    for _ in 0..times {
        push_command(draws, shared, inner, &mut bytes)?;
    }
    Ok(bytes)
}

/// Draws a shared sequence that sets parameters of all components, with inner sequences.
pub(crate) fn drawn_shared(draws: &mut Draws) -> Result<Vec<u8>, AllocError> {
    let one = drawn(draws, true, b"", NO_INNER)?;
    let inner = Inner {
        one: &one,
        other: &one,
    };
    drawn(draws, true, SETS, inner)
}

fn drawn_around(draws: &mut Draws, inner: Inner<'_>) -> Result<Vec<u8>, AllocError> {
    let outer = drawn(draws, false, b"", inner)?;
    let inner = Inner {
        one: &outer,
        other: inner.other,
    };
    drawn(draws, false, b"", inner)
}

fn drawn_beside(draws: &mut Draws, one: &[u8]) -> Result<Vec<u8>, AllocError> {
    let other = drawn(draws, false, b"", NO_INNER)?;
    let inner = Inner { one, other: &other };
    drawn_around(draws, inner)
}

/// Draws a member with nested inner sequences.
pub(crate) fn drawn_member(draws: &mut Draws) -> Result<Vec<u8>, AllocError> {
    let one = drawn(draws, false, b"", NO_INNER)?;
    drawn_beside(draws, &one)
}
