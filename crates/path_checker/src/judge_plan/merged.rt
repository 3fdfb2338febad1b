//! Merges states: of those that differ only in how they were reached, one is kept.

ghost use Rattle.std.specs.Prelude.{◌≡◌, IsTrue, IfOk};
ghost use Rattle.path_checker.specs.Exploring.{In};
ghost use Rattle.path_checker.specs.Merging.{Merges, SameState, SameStop};

use crate::judge_plan::kept::{Kept, Standing, Stopped};
use crate::judge_plan::memory::Memory;
use std::alloc::{AllocError, Global};
use suit_commands::{Command, Sequence};

// Fewer failures than this are not merged.
const FEW: usize = 32;

// How many entries with other fingerprints a search passes over before it gives up.
const FAR: u32 = 64;

// How many entries with the same fingerprint a search compares before it gives up.
const ALIKE: u32 = 8;

// An entry for one that is kept.
#[derive(Clone, Copy)]
struct Print {
    print: u64,
    // The index plus 1 of the previous entry with the same low bits, or 0.
    before: u32,
}

// An index of those that are kept: a hash table whose buckets are chains.
#[derive(Drop)]
struct Seen {
    // By the low bits of a fingerprint, the index plus 1 of the last entry with these bits, or 0. Its length is a power
    // of two.
    last: Vec<u32>,
    // An entry for each that is kept, in the same order.
    prints: Vec<Print>,
}

impl Seen {
    // An empty index with room for `count` entries.
    fn new(alloc: Global, count: usize) -> Result<Seen, AllocError> {
        let mut last = Vec::new(alloc);
        last.resize(count.checked_next_power_of_two().unwrap_or(1), 0)?;
        Ok(Seen {
            last,
            prints: Vec::with_capacity(alloc, count)?,
        })
    }

    fn bits(&self, print: u64) -> usize {
        print as usize & self.last.len().wrapping_sub(1)
    }

    // The index of the last entry that may have this fingerprint.
    fn last(&self, print: u64) -> Option<usize> {
        let last = self.last.get(self.bits(print))?;
        (*last as usize).checked_sub(1)
    }

    // The index of the previous entry in the same chain.
    fn before(&self, index: usize) -> Option<usize> {
        let own = self.prints.get(index)?;
        (own.before as usize).checked_sub(1)
    }

    fn has(&self, index: usize, print: u64) -> bool {
        match self.prints.get(index) {
            Some(own) => own.print == print,
            None => false,
        }
    }

    // Adds an entry.
    fn add(&mut self, print: u64) -> Result<(), AllocError> {
        let bits = self.bits(print);
        if let Some(last) = self.last.get_mut(bits) {
            self.prints.push(Print {
                print,
                before: *last,
            })?;
            *last = u32::try_from(self.prints.len()).unwrap_or(0);
        }
        Ok(())
    }
}

// Whether one of those that are kept stands for this one. The search is bounded, and may miss it.
fn stands_for<T: Standing>(memory: Memory<'_>, kept: &[T], seen: &Seen, print: u64, one: &T) -> bool
    ensures { IsTrue result → (other : T) × In other kept.now × T.same other one.now }
{
    let mut far = FAR;
    let mut alike = ALIKE;
    let mut left = kept.len();
    let mut at = seen.last(print);
    while let Some(index) = at {
        if index >= left {
            return false;
        }
        if seen.has(index, print) {
            if alike == 0 || !memory.may_compare(one.cost()) {
                return false;
            }
            alike -= 1;
            if kept[index].is_same(one) {
                return true;
            }
        } else {
            let Some(fewer) = far.checked_sub(1) else {
                return false;
            };
            far = fewer;
        }
        at = seen.before(index);
        left = index;
    }
    false
}

// Frees spare capacity once at most half of it is in use.
fn fit<T>(left: &mut Vec<T>)
    ensures { left.new.items ≡ left.old.items }
{
    if left.len() <= left.capacity() / 2 {
        left.shrink_to_fit();
    }
}

// Keeps some of these, so that each of the others has one that stands for it.
fn merged<T: Standing>(memory: Memory<'_>, from: Vec<T>) -> Result<Vec<T>, AllocError>
    requires { (one : T) → T.same one one }
    ensures { IfOk result (λ v. Merges T.same from.items v.items) }
{
    let mut seen = Seen::new(memory.alloc, from.len())?;
    let mut kept = Vec::new(memory.alloc);
    let mut left = from;
    while let Some(one) = left.pop() {
        fit(&mut left);
        let print = one.fingerprint(memory.last.salt);
        if stands_for(memory, &kept, &seen, print, &one) {
            continue;
        }
        kept.push(one)?;
        seen.add(print)?;
    }
    Ok(kept)
}

// Whether a command runs other sequences. One that does not leads a state to at most one state.
fn has_inner(command: &Command) -> bool {
    match command {
        Command::TryEach(_) => true,
        Command::Run(_) => true,
        _ => false,
    }
}

// Whether the last command of a sequence merges the states after it.
fn is_merged(sequence: &Sequence) -> bool {
    match sequence.as_slice().last() {
        Some(step) => has_inner(&step.command),
        None => false,
    }
}

// Whether the states after a command are merged already, if it was run from one state.
fn ends_merged(command: &Command) -> bool {
    match command {
        Command::Run(inner) => is_merged(inner),
        Command::TryEach(branches) => match branches.as_slice() {
            [Some(inner)] => is_merged(inner),
            [Some(inner), None] => is_merged(inner),
            _ => false,
        },
        _ => false,
    }
}

/// Whether there is one state, with one component selected.
pub(crate) fn is_alone(states: &[Kept<'_>]) -> bool {
    match states {
        [k] => k.selection.sole().is_some(),
        _ => false,
    }
}

/// Merges the states after a command that may have left equal ones. `alone` says that it was run from a single state
/// with one component selected.
pub(crate) fn merged_states<'a>(
    memory: Memory<'a>,
    command: &Command,
    alone: bool,
    from: Vec<Kept<'a>>,
) -> Result<Vec<Kept<'a>>, AllocError>
    ensures { IfOk result (λ v. Merges SameState from.entry.items v.items) }
{
    if from.len() < 2 || !has_inner(command) || alone && ends_merged(command) {
        return Ok(from);
    }
    merged(memory, from)
}

/// Merges the failures once there are at least twice as many as the last merge left. `left` holds that number.
pub(crate) fn settled<'a>(
    memory: Memory<'a>,
    from: Vec<Stopped<'a>>,
    left: &mut usize,
) -> Result<Vec<Stopped<'a>>, AllocError>
    ensures { IfOk result (λ v. Merges SameStop from.entry.items v.items) }
{
    if from.len() / 2 < *left || from.len() < FEW {
        return Ok(from);
    }
    let kept = merged(memory, from)?;
    *left = kept.len();
    Ok(kept)
}
