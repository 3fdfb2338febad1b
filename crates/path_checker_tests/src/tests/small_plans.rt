//! Compares the judgement of small drawn procedures with all their runs.

ghost use Rattle.std.specs.Prelude.{◌<◌, IfOk, IfSome, true, false};
ghost use Rattle.suit_commands.specs.Allowed.{IsMember, IsPlan, IsSequence, IsShared, levels_allowed};
ghost use Rattle.suit_commands.specs.Plans.{lent_tree, plan_tree};

use crate::tests::all_runs::all_runs;
use crate::tests::parts::{lend_member, lend_shared, part};
use crate::tests::same_events::is_same_event;
use path_checker::{CheckVerdict, check};
use path_model::{BadPath, Event, Identity, first_uncovered};
use std::alloc::{AllocError, Global};
use suit_commands::{Plan, Sequence, width};

// Parameters, each with two values. The digests are by SHA-256 and SHA-384, of the same letters.
const PARAMS: [[&[u8]; 2]; 8] = [
    [b"\x01\x50aaaaaaaaaaaaaaaa", b"\x01\x50bbbbbbbbbbbbbbbb"],
    [
        b"\x03\x58\x24\x82\x2f\x58\x20aaaaaaaaaaaaaaaaaaaaaaaaaaaaaaaa",
        b"\x03\x58\x35\x82\x38\x2a\x58\x30aaaaaaaaaaaaaaaaaaaaaaaaaaaaaaaaaaaaaaaaaaaaaaaa",
    ],
    [b"\x05\x00", b"\x05\x01"],
    [b"\x0d\xf4", b"\x0d\xf5"],
    [b"\x0e\x03", b"\x0e\x04"],
    [b"\x12\x41a", b"\x12\x41b"],
    [b"\x15\x61a", b"\x15\x61b"],
    [b"\x16\x00", b"\x16\x01"],
];

const CONDITIONS: [&[u8]; 6] = [
    b"\x01\x0f",
    b"\x05\x0f",
    b"\x03\x0f",
    b"\x03\x0f",
    b"\x06\x0f",
    b"\x0e\x0f",
];

const INDICES: [&[u8]; 5] = [
    b"\x0c\x00",
    b"\x0c\x01",
    b"\x0c\xf5",
    b"\x0c\x82\x00\x00",
    b"\x0c\x82\x01\x00",
];

const DIRECTIVES: [&[u8]; 6] = [
    b"\x12\x0f",
    b"\x15\x0f",
    b"\x16\x0f",
    b"\x18\x1f\x0f",
    b"\x17\x0f",
    b"\x17\x0f",
];

const SETS_DIGEST: &[u8] = b"\x14\xa1\x03\x58\x24\x82\x2f\x58\x20aaaaaaaaaaaaaaaaaaaaaaaaaaaaaaaa";

// A linear congruential generator.
#[derive(Drop)]
struct Draws {
    alloc: Global,
    state: u64,
}

impl Draws {
    fn below(&mut self, limit: u64) -> usize
        requires { 0 < limit }
        ensures { result < limit }
    {
        self.state = self
            .state
            .wrapping_mul(6_364_136_223_846_793_005)
            .wrapping_add(1_442_695_040_888_963_407);
        ((self.state >> 33) % limit) as usize
    }
}

// Appends a byte string that holds a sequence.
fn push_held(bytes: &mut Vec<u8>, held: &[u8]) -> Result<(), AllocError> {
    let length = held.len();
    if length < 24 {
        bytes.push(0x40 + length as u8)?;
    } else if length < 256 {
        bytes.extend_from_slice(&[0x58, length as u8])?;
    } else {
        bytes.extend_from_slice(&[0x59, (length / 256 % 256) as u8, (length % 256) as u8])?;
    }
    Ok(bytes.extend_from_slice(held)?)
}

// Appends an override of some parameters. The first value of each is more likely.
fn push_override(draws: &mut Draws, bytes: &mut Vec<u8>) -> Result<(), AllocError> {
    let mut params = Vec::new(draws.alloc);
    let mut head: u8 = 0xa0;
    for values in &PARAMS {
        let value = match draws.below(8) {
            0..4 => continue,
            4 => values[1],
            _ => values[0],
        };
        params.extend_from_slice(value)?;
        head = head.wrapping_add(1);
    }
    bytes.extend_from_slice(&[0x14, head])?;
    Ok(bytes.extend_from_slice(&params)?)
}

// Appends a command, with at most `levels` levels of inner sequences.
#[cycle(drawing)]
fn push_command(
    draws: &mut Draws,
    levels: u8,
    shared: bool,
    bytes: &mut Vec<u8>,
) -> Result<(), AllocError> {
    match draws.below(8) {
        0 if levels > 0 => {
            bytes.extend_from_slice(b"\x0f\x82")?;
            let first = drawn(draws, levels - 1, shared, b"", b"")?;
            push_held(bytes, &first)?;
            if draws.below(2) == 0 {
                return Ok(bytes.push(0xf6)?);
            }
            let second = drawn(draws, levels - 1, shared, b"", b"")?;
            push_held(bytes, &second)
        }
        1 if levels > 0 => {
            bytes.extend_from_slice(b"\x18\x20")?;
            let inner = drawn(draws, levels - 1, shared, b"", b"")?;
            push_held(bytes, &inner)
        }
        2 => Ok(bytes.extend_from_slice(INDICES[draws.below(5)])?),
        3 | 4 => push_override(draws, bytes),
        5 | 6 if !shared => Ok(bytes.extend_from_slice(DIRECTIVES[draws.below(6)])?),
        _ => Ok(bytes.extend_from_slice(CONDITIONS[draws.below(6)])?),
    }
}

// Draws a sequence: the first command, then one to three that are drawn, and the last command, if these two have bytes.
#[cycle(drawing)]
fn drawn(
    draws: &mut Draws,
    levels: u8,
    shared: bool,
    first: &[u8],
    last: &[u8],
) -> Result<Vec<u8>, AllocError> {
    let times = draws.below(3) + 1;
    let mut head = 0x80 + 2 * times as u8;
    if !first.is_empty() || !last.is_empty() {
        head = head.wrapping_add(2);
    }
    let mut bytes = Vec::from_slice(draws.alloc, &[head])?;
    bytes.extend_from_slice(first)?;
    for _ in 0..times {
        push_command(draws, levels, shared, &mut bytes)?;
    }
    bytes.extend_from_slice(last)?;
    Ok(bytes)
}

// An identity, by number: one of three vendors and one of three slots.
fn identity(number: u64) -> Identity {
    Identity {
        vendor: match number % 3 {
            0 => None,
            1 => Some([97; 16]),
            _ => Some([98; 16]),
        },
        class: None,
        device: None,
        slot: number / 3 % 3,
    }
}

// Whether some run for some identities has an uncovered invoke.
fn has_uncovered(alloc: Global, plan: &Plan<'_>) -> Result<bool, AllocError> {
    for number in 0..81 {
        let identities = [identity(number), identity(number / 9)];
        for run in all_runs(alloc, &identities, plan)? {
            if first_uncovered(&run.events).is_some() {
                return Ok(true);
            }
        }
    }
    Ok(false)
}

// Whether the events begin with those of a path.
fn begin_with(events: &[Event], path: &[Event]) -> bool {
    if path.len() > events.len() {
        return false;
    }
    for (one, other) in path.iter().zip(events) {
        if !is_same_event(one, other) {
            return false;
        }
    }
    true
}

// Whether a run for the given identities begins with the given path, and this ends in its first uncovered invoke.
fn is_path(alloc: Global, plan: &Plan<'_>, bad: &BadPath) -> Result<bool, AllocError> {
    for run in all_runs(alloc, bad.identities.as_slice(), plan)? {
        if begin_with(run.events.as_slice(), bad.events.as_slice()) {
            let last = bad.events.len().checked_sub(1);
            return Ok(bad.identities.len() == 2 && first_uncovered(&bad.events) == last);
        }
    }
    Ok(false)
}

// The verdict on a procedure, or that it is wrong.
#[derive(Clone, Copy, PartialEq, Eq)]
enum Found {
    Safe,
    Unsafe,
    Wide,
    Wrong,
}

// The verdict on a procedure, compared with all its runs.
fn compared(alloc: Global, plan: &Plan<'_>) -> Result<Found, AllocError>
    requires { IsPlan (plan_tree plan.now) }
{
    if width(plan) > 1000 {
        return Ok(Found::Wide);
    }
    let uncovered = has_uncovered(alloc, plan)?;
    match check(alloc, plan) {
        CheckVerdict::Safe if !uncovered => Ok(Found::Safe),
        CheckVerdict::Unsafe(bad) if uncovered && is_path(alloc, plan, &bad)? => Ok(Found::Unsafe),
        _ => Ok(Found::Wrong),
    }
}

fn drawn_shared(draws: &mut Draws) -> Result<Option<Sequence>, AllocError>
    ensures { IfOk result (λ part. IfSome part (IsSequence true 2 levels_allowed)) }
{
    let bytes = drawn(draws, 1, true, SETS_DIGEST, b"")?;
    part(draws.alloc, bytes.as_slice(), true, 2)
}

// Draws a member that ends with this command.
fn drawn_member(draws: &mut Draws, last: &[u8]) -> Result<Option<Sequence>, AllocError>
    ensures { IfOk result (λ part. IfSome part (IsSequence false 2 levels_allowed)) }
{
    let bytes = drawn(draws, 2, false, b"", last)?;
    part(draws.alloc, bytes.as_slice(), false, 2)
}

fn with_first(
    draws: &mut Draws,
    shared: Option<&Sequence>,
    first: Option<&Sequence>,
) -> Result<Found, AllocError>
    requires shared { IsShared 2 (lent_tree shared) }
    requires first { IsMember 2 (lent_tree first) }
{
    let third = drawn_member(draws, b"\x17\x0f")?;
    let plan = Plan {
        shared,
        first,
        second: None,
        third: lend_member(&third, 2),
        count: 2,
    };
    compared(draws.alloc, &plan)
}

fn with_shared(draws: &mut Draws, shared: Option<&Sequence>) -> Result<Found, AllocError>
    requires { IsShared 2 (lent_tree shared) }
{
    let first = drawn_member(draws, b"\x03\x0f")?;
    with_first(draws, shared, lend_member(&first, 2))
}

// The verdict on a drawn procedure.
fn drawn_verdict(draws: &mut Draws) -> Result<Found, AllocError> {
    let shared = drawn_shared(draws)?;
    with_shared(draws, lend_shared(&shared, 2))
}

fn times(all: &[Found], wanted: Found) -> u64 {
    let mut times: u64 = 0;
    for found in all {
        if *found == wanted {
            times = times.wrapping_add(1);
        }
    }
    times
}

#[test]
fn verdicts_are_those_of_all_runs(rt: HostRuntime) -> Result<(), AllocError> {
    let alloc = rt.alloc();
    let mut draws = Draws { alloc, state: 1 };
    let mut all = Vec::new(alloc);
    for _ in 0..1_260 {
        let found = drawn_verdict(&mut draws)?;
        all.push(found)?;
    }
    assert!(rt; times(&all, Found::Wrong) == 0);
    assert!(rt; times(&all, Found::Safe) == 801);
    assert!(rt; times(&all, Found::Unsafe) == 206);
    assert!(rt; times(&all, Found::Wide) == 253);
    Ok(())
}
