//! Conditions that fail, on one path.

ghost use Rattle.std.specs.Prelude.{◌<◌, [], ◌∷◌, Some, IfOk};
ghost use Rattle.path_model.specs.CommandLaws.{IsOnIdentity};
ghost use Rattle.path_checker.specs.Spelling.{Fails};
ghost use Rattle.path_checker.specs.Wanting.{TestsOwn};
ghost use Rattle.path_checker.specs.Steps.{TestsAt};

use crate::judge_plan::conditions::under;
use crate::judge_plan::facts::{Fork, Own};
use crate::judge_plan::failures::failed_at;
use crate::judge_plan::happened::Ended;
use crate::judge_plan::kept::{Kept, Stopped};
use crate::judge_plan::memory::Memory;
use crate::judge_plan::site::Site;
use std::alloc::AllocError;
use suit_commands::TestKind;

// A condition on an identity, for what it asks for. If the facts say that it passes, this returns an error.
fn fail_own<'a>(
    memory: Memory<'a>,
    site: Site,
    kind: TestKind,
    own: &Own,
    k: Kept<'a>,
) -> Result<Stopped<'a>, AllocError>
    ensures { IfOk result
        (λ stop. Fails (TestsOwn kind site.place site.component (Some own.now)) (k.entry ∷ [])
        stop) }
{
    let (place, component) = (site.place, site.component);
    let missed = Ended::Tried { component, kind };
    match k.facts.fork(memory, component, own)? {
        Fork::Has => Err(AllocError),
        Fork::HasNot => Ok(failed_at(k, place, missed)),
        Fork::Either(_, has_not) => Ok(failed_at(under(k, has_not), place, missed)),
    }
}

// A condition on an identity.
fn fail_identity<'a>(
    memory: Memory<'a>,
    site: Site,
    kind: TestKind,
    k: Kept<'a>,
) -> Result<Stopped<'a>, AllocError>
    requires room { site.component < 8 }
    requires kinds { IsOnIdentity kind }
    ensures { IfOk result
        (λ stop. Fails (TestsAt kind site.place site.component) (k.entry ∷ []) stop) }
{
    let (place, component) = (site.place, site.component);
    match k.params.wanted(kind, component) {
        Some(own) => fail_own(memory, site, kind, &own, k),
        None => Ok(failed_at(k, place, Ended::Tried { component, kind })),
    }
}

/// The failure that a condition ends in, if it may fail, and otherwise an error.
pub(crate) fn fail<'a>(
    memory: Memory<'a>,
    site: Site,
    kind: TestKind,
    k: Kept<'a>,
) -> Result<Stopped<'a>, AllocError>
    requires room { site.component < 8 }
    ensures { IfOk result
        (λ stop. Fails (TestsAt kind site.place site.component) (k.entry ∷ []) stop) }
{
    let (place, component) = (site.place, site.component);
    match kind {
        TestKind::Vendor => fail_identity(memory, site, kind, k),
        TestKind::Class => fail_identity(memory, site, kind, k),
        TestKind::Device => fail_identity(memory, site, kind, k),
        TestKind::Slot => fail_identity(memory, site, kind, k),
        TestKind::ImageMatch => Ok(failed_at(k, place, Ended::Missed { component })),
        TestKind::CheckContent => Ok(failed_at(k, place, Ended::Tried { component, kind })),
        TestKind::Abort => Ok(failed_at(k, place, Ended::Tried { component, kind })),
    }
}
