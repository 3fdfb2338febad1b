//! Why a judgement ends early.

ghost use Rattle.std.specs.Prelude.{◌≡◌, IfOk};
ghost use Rattle.path_checker.specs.declared.judge_plan.halt.Halt.TheVariants.{NoMemory};

use crate::judge_plan::kept::Kept;
use crate::judge_plan::memory::Memory;
use std::alloc::{AllocError, AllocFailed};
use std::marker::Model;

/// A state whose last event is an uncovered invoke. It is boxed, so that `Halt` is small.
#[derive(Drop)]
pub(crate) struct Uncovered<'a> {
    held: Box<Kept<'a>>,
}

impl<'a> Model for Uncovered<'a> {
    ghost use Rattle.path_checker.specs.Exploring.{Kept as TheKept};

    ghost Value = { TheKept };

    ghost view = { λ a. a.held.value };
}

impl<'a> Uncovered<'a> {
    /// Boxes a state. Takes its history, and copies the rest.
    pub(crate) fn take(memory: Memory<'a>, k: &mut Kept<'a>) -> Result<Uncovered<'a>, AllocError>
        ensures { IfOk result (λ uncovered. uncovered ≡ k.old) }
    {
        let facts = k.facts.copy()?;
        let params = k.params.copy()?;
        let kept = Kept {
            facts,
            history: k.history.take(memory.alloc),
            params,
            selection: k.selection.copy(),
            soft_failure: k.soft_failure,
        };
        let held = Box::new(memory.alloc, kept)?;
        Ok(Uncovered { held })
    }

    /// Takes the state out of its box.
    pub(crate) fn into_kept(self) -> Kept<'a>
        ensures { result ≡ self.entry }
    {
        Box::into_inner(self.held)
    }
}

/// Why a judgement ends early.
#[derive(Drop)]
pub(crate) enum Halt<'a> {
    /// Memory ran out.
    NoMemory,
    /// An invoke is not covered.
    Uncovered(Uncovered<'a>),
}

impl<'a> From<AllocError> for Halt<'a> {
    ghost from_gives = { λ _ e. e ≡ NoMemory };

    fn from(_e: AllocError) -> Halt<'a> {
        Halt::NoMemory
    }
}

impl<'a, T: Drop> From<AllocFailed<T>> for Halt<'a> {
    ghost from_gives = { λ _ e. e ≡ NoMemory };

    fn from(_e: AllocFailed<T>) -> Halt<'a> {
        Halt::NoMemory
    }
}
