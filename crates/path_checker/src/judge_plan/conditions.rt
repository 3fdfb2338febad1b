//! Conditions at one component.

ghost use Rattle.std.specs.Prelude.{◌≡◌, ◌<◌, [], ◌∷◌, Some, IfOk, OnOk};
ghost use Rattle.path_model.specs.CommandLaws.{IsOnIdentity};
ghost use Rattle.path_checker.specs.Exploring.{Adds, Passes, kept_if};
ghost use Rattle.path_checker.specs.Wanting.{TestsOwn};
ghost use Rattle.path_checker.specs.Steps.{knowing, TestsAt};

use crate::judge_plan::facts::{Facts, Fork, Own};
use crate::judge_plan::failures::{Failures, stop, stop_also, stop_knowing};
use crate::judge_plan::happened::{Ended, Happened};
use crate::judge_plan::kept::{Kept, happens, happens_if, pass};
use crate::judge_plan::memory::Memory;
use crate::judge_plan::site::Site;
use std::alloc::AllocError;
use suit_commands::TestKind;

/// The state with other facts.
pub(crate) fn under<'a>(k: Kept<'a>, facts: Facts) -> Kept<'a>
    ensures { result ≡ knowing k.entry facts }
{
    let mut k = k;
    k.facts = facts;
    k
}

// A condition on an identity, for what it asks for. If the facts leave it open, both outcomes are kept, with their facts.
fn own_test<'a>(
    memory: Memory<'a>,
    site: Site,
    kind: TestKind,
    own: &Own,
    k: Kept<'a>,
    next: &mut Vec<Kept<'a>>,
    failed: &mut Failures<'a>,
) -> Result<(), AllocError>
    ensures { OnOk result
        (Adds (TestsOwn kind site.place site.component (Some own.now)) (k.entry ∷ [])
        next.old.items next.new.items failed.old failed.new) }
{
    let (place, component) = (site.place, site.component);
    let passed = Happened::Tried {
        component,
        kind,
        passed: true,
    };
    let missed = Ended::Tried { component, kind };
    match k.facts.fork(memory, component, own)? {
        Fork::Has => pass(memory, k, passed, next),
        Fork::HasNot => stop(k, place, missed, failed),
        Fork::Either(has, has_not) => {
            stop_knowing(memory, &k, has_not, place, missed, failed)?;
            pass(memory, under(k, has), passed, next)
        }
    }
}

// A condition on an identity.
fn identity_test<'a>(
    memory: Memory<'a>,
    place: u64,
    kind: TestKind,
    component: u32,
    k: Kept<'a>,
    next: &mut Vec<Kept<'a>>,
    failed: &mut Failures<'a>,
) -> Result<(), AllocError>
    requires room { component < 8 }
    requires kinds { IsOnIdentity kind }
    ensures { OnOk result
        (Adds (TestsAt kind place component) (k.entry ∷ []) next.old.items next.new.items
        failed.old failed.new) }
{
    match k.params.wanted(kind, component) {
        Some(own) => {
            let site = Site { place, component };
            own_test(memory, site, kind, &own, k, next, failed)
        }
        None => stop(k, place, Ended::Tried { component, kind }, failed),
    }
}

// Image match, for the digest and the size in force.
fn image_match<'a>(
    memory: Memory<'a>,
    place: u64,
    component: u32,
    k: Kept<'a>,
    next: &mut Vec<Kept<'a>>,
    failed: &mut Failures<'a>,
) -> Result<(), AllocError>
    requires room { component < 8 }
    ensures { OnOk result
        (Adds (TestsAt TestKind.ImageMatch place component) (k.entry ∷ []) next.old.items
        next.new.items failed.old failed.new) }
{
    match k.params.stated(component) {
        None => stop(k, place, Ended::Missed { component }, failed),
        Some(stated) => {
            let own = k.history.matched(memory, place, component, stated)?;
            let matched = Happened::Matched { component, own };
            stop_also(memory, &k, place, Ended::Missed { component }, failed)?;
            pass(memory, k, matched, next)
        }
    }
}

fn check_content<'a>(
    memory: Memory<'a>,
    place: u64,
    component: u32,
    k: Kept<'a>,
    next: &mut Vec<Kept<'a>>,
    failed: &mut Failures<'a>,
) -> Result<(), AllocError>
    requires room { component < 8 }
    ensures { OnOk result
        (Adds (TestsAt TestKind.CheckContent place component) (k.entry ∷ []) next.old.items
        next.new.items failed.old failed.new) }
{
    let missed = Ended::Tried {
        component,
        kind: TestKind::CheckContent,
    };
    if k.params.has_content(component) {
        let passed = Happened::Tried {
            component,
            kind: TestKind::CheckContent,
            passed: true,
        };
        stop_also(memory, &k, place, missed, failed)?;
        return pass(memory, k, passed, next);
    }
    stop(k, place, missed, failed)
}

// ---- where failures are not kept

// A condition on an identity: whether it may be met.
fn pass_identity_test<'a>(
    memory: Memory<'a>,
    place: u64,
    kind: TestKind,
    component: u32,
    k: &mut Kept<'a>,
) -> Result<bool, AllocError>
    requires room { component < 8 }
    requires kinds { IsOnIdentity kind }
    ensures { IfOk result
        (λ passes. Passes (TestsAt kind place component) (k.old ∷ []) (kept_if passes k.new)) }
{
    match k.params.wanted(kind, component) {
        Some(own) => {
            let passed = Happened::Tried {
                component,
                kind,
                passed: true,
            };
            let may_pass = k.facts.learn(memory, component, &own)?;
            happens_if(memory, may_pass, k, passed)
        }
        None => Ok(false),
    }
}

// Image match, for the digest and the size in force: whether it may be met.
fn pass_image_match<'a>(
    memory: Memory<'a>,
    place: u64,
    component: u32,
    k: &mut Kept<'a>,
) -> Result<bool, AllocError>
    requires room { component < 8 }
    ensures { IfOk result
        (λ passes. Passes (TestsAt TestKind.ImageMatch place component) (k.old ∷ [])
        (kept_if passes k.new)) }
{
    match k.params.stated(component) {
        Some(stated) => {
            let own = k.history.matched(memory, place, component, stated)?;
            let matched = Happened::Matched { component, own };
            happens(memory, k, matched)?;
            Ok(true)
        }
        None => Ok(false),
    }
}

/// A condition whose failure ends the procedure: whether it may be met. If so, the state becomes the one after it.
pub(crate) fn pass_test<'a>(
    memory: Memory<'a>,
    place: u64,
    kind: TestKind,
    component: u32,
    k: &mut Kept<'a>,
) -> Result<bool, AllocError>
    requires room { component < 8 }
    ensures { IfOk result
        (λ passes. Passes (TestsAt kind place component) (k.old ∷ []) (kept_if passes k.new)) }
{
    match kind {
        TestKind::Vendor => pass_identity_test(memory, place, kind, component, k),
        TestKind::Class => pass_identity_test(memory, place, kind, component, k),
        TestKind::Device => pass_identity_test(memory, place, kind, component, k),
        TestKind::Slot => pass_identity_test(memory, place, kind, component, k),
        TestKind::ImageMatch => pass_image_match(memory, place, component, k),
        TestKind::CheckContent => {
            let passed = Happened::Tried {
                component,
                kind,
                passed: true,
            };
            happens_if(memory, k.params.has_content(component), k, passed)
        }
        TestKind::Abort => Ok(false),
    }
}

/// A condition: adds the state after it, and its failure.
pub(crate) fn test<'a>(
    memory: Memory<'a>,
    place: u64,
    kind: TestKind,
    component: u32,
    k: Kept<'a>,
    next: &mut Vec<Kept<'a>>,
    failed: &mut Failures<'a>,
) -> Result<(), AllocError>
    requires room { component < 8 }
    ensures { OnOk result
        (Adds (TestsAt kind place component) (k.entry ∷ []) next.old.items next.new.items
        failed.old failed.new) }
{
    match kind {
        TestKind::Vendor => identity_test(memory, place, kind, component, k, next, failed),
        TestKind::Class => identity_test(memory, place, kind, component, k, next, failed),
        TestKind::Device => identity_test(memory, place, kind, component, k, next, failed),
        TestKind::Slot => identity_test(memory, place, kind, component, k, next, failed),
        TestKind::ImageMatch => image_match(memory, place, component, k, next, failed),
        TestKind::CheckContent => check_content(memory, place, component, k, next, failed),
        TestKind::Abort => stop(k, place, Ended::Tried { component, kind }, failed),
    }
}
