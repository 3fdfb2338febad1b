//! Runs drawn procedures over their bytes, and compares them with a plain player of their trees.

ghost use Rattle.std.specs.Prelude.{◌<◌};

use crate::tests::device::{empty_disk, has, host_of_one, run};
use crate::tests::drawing::{Draws, drawn_member, drawn_shared};
use crate::tests::player::{COUNT, Stage, Stop, play};
use crate::tests::spelled::{Spelled, Trees};
use std::alloc::{AllocError, Global};
use step_machine::PlanEnd;
use suit_edge::{Disk, Host, Launch, MemoryLauncher};

// The end of a procedure, by how the player ended it.
fn end_of(ended: Result<(), Stop>) -> PlanEnd {
    match ended {
        Ok(()) => PlanEnd::Done,
        Err(Stop::Condition { place, .. }) => PlanEnd::ConditionFailed { place },
        Err(Stop::Directive { place, cause }) => PlanEnd::DirectiveFailed { place, cause },
    }
}

// Whether the player comes to the same end, contents and launches.
fn is_played<'a, D: Disk>(
    disk: &mut D,
    launches: &'a [Launch],
    trees: &'a Trees,
    end: PlanEnd,
) -> bool {
    let mut stage = Stage {
        contents: [&[]; COUNT],
        launches,
        alike: true,
    };
    let ended = play(
        &mut stage,
        &trees.shared,
        [&trees.first, &trees.second, &trees.third],
    );
    let alike = stage.alike && stage.launches.is_empty();
    let [one, other, _] = stage.contents;
    alike && end_of(ended) == end && has(disk, 0, one) && has(disk, 1, other)
}

fn end_if_played<D: Disk>(
    alloc: Global,
    spelled: &Spelled<'_>,
    disk: &mut D,
    launches: &[Launch],
    end: PlanEnd,
) -> Result<Option<PlanEnd>, AllocError> {
    let trees = spelled.trees(alloc)?;
    Ok(is_played(disk, launches, &trees, end).then_some(end))
}

fn end_on<H: Host, D: Disk>(
    alloc: Global,
    spelled: &Spelled<'_>,
    host: &mut H,
    disk: &mut D,
) -> Result<Option<PlanEnd>, AllocError> {
    let mut launcher = MemoryLauncher::new(alloc, &[])?;
    let end = run(alloc, spelled.program(), host, disk, &mut launcher)?;
    end_if_played(alloc, spelled, disk, launcher.launches().as_slice(), end)
}

fn end_with<H: Host>(
    alloc: Global,
    spelled: &Spelled<'_>,
    host: &mut H,
) -> Result<Option<PlanEnd>, AllocError> {
    let mut disk = empty_disk(alloc)?;
    end_on(alloc, spelled, host, &mut disk)
}

// The end of a procedure on an empty device, or `None` if the player comes to another end, contents or launches.
fn beside(alloc: Global, spelled: &Spelled<'_>) -> Result<Option<PlanEnd>, AllocError> {
    let mut host = host_of_one(alloc)?;
    end_with(alloc, spelled, &mut host)
}

// Draws the bytes of a procedure's four parts.
fn drawn_parts(draws: &mut Draws) -> Result<Vec<Vec<u8>>, AllocError> {
    let mut parts = Vec::new(draws.alloc);
    parts.push(drawn_shared(draws)?)?;
    for _ in 0..3 {
        parts.push(drawn_member(draws)?)?;
    }
    Ok(parts)
}

fn drawn_beside(draws: &mut Draws) -> Result<Option<PlanEnd>, AllocError> {
    let parts = drawn_parts(draws)?;
    match parts.as_slice() {
        [shared, first, second, third] => beside(
            draws.alloc,
            &Spelled {
                shared: shared.as_slice(),
                first: first.as_slice(),
                second: second.as_slice(),
                third: third.as_slice(),
            },
        ),
        _ => Ok(None),
    }
}

// The kind of an end, as a number.
fn kind(end: PlanEnd) -> usize
    ensures { result < 3 }
{
    match end {
        PlanEnd::Done => 0,
        PlanEnd::ConditionFailed { .. } => 1,
        PlanEnd::DirectiveFailed { .. } => 2,
    }
}

// How many of 300 drawn procedures end in each kind, or zeros if the player disagrees about one.
fn counts(alloc: Global) -> Result<[u32; 3], AllocError> {
    let mut draws = Draws { alloc, state: 1 };
    let mut counts = [0u32; 3];
    for _ in 0..300 {
        let Some(end) = drawn_beside(&mut draws)? else {
            return Ok([0; 3]);
        };
        let kind = kind(end);
        counts[kind] = counts[kind].wrapping_add(1);
    }
    Ok(counts)
}

#[test]
fn procedures_run_as_their_trees_are_played(rt: HostRuntime) -> Result<(), AllocError> {
    let [done, conditions, directives] = counts(rt.alloc())?;
    // Each kind of end is among them.
    assert!(rt; done > 20);
    assert!(rt; conditions > 20);
    assert!(rt; directives > 20);
    Ok(())
}
