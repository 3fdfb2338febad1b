//! Makes all runs of a small procedure for fixed identities, one by one, to compare the judgement with.

use path_model::{Event, Events, Identity};
use std::alloc::{AllocError, Global};
use suit_commands::{ActKind, Branches, Command, Plan, Selection, Sequence, Step, TestKind};
use suit_params::{Digest, Param, ParamKey, ParamList};

// Where a run is. `Softly` is a soft failure of an inner sequence, which the outer sequence passes over.
#[derive(Clone, Copy, PartialEq, Eq)]
enum End {
    Going,
    Condition,
    Softly,
    Directive,
}

/// A run so far: its events, the parameters that were set in order, and the selection and soft failure of the sequence.
#[derive(Drop)]
pub(crate) struct Run<'a> {
    pub events: Events,
    set: Vec<(u32, &'a Param)>,
    selection: Vec<u32>,
    soft_failure: bool,
    end: End,
}

type Runs<'a> = Vec<Run<'a>>;

// Nothing, or memory ran out.
type Done = Result<(), AllocError>;

/// The identities of a run, how many levels of inner sequences are still allowed, and where a command is done.
#[derive(Clone, Copy)]
pub(crate) struct At<'s> {
    pub alloc: Global,
    pub identities: &'s [Identity],
    pub levels: u8,
    pub place: u64,
    pub component: u32,
}

impl<'a> Run<'a> {
    // A copy of the run with other events.
    fn with(&self, alloc: Global, events: Events) -> Result<Run<'a>, AllocError> {
        Ok(Run {
            events,
            set: Vec::from_slice(alloc, &self.set)?,
            selection: Vec::from_slice(alloc, &self.selection)?,
            soft_failure: self.soft_failure,
            end: self.end,
        })
    }

    // A copy of the run with one more event.
    fn and(&self, alloc: Global, event: Event) -> Result<Run<'a>, AllocError> {
        let mut events = self.events.copy(alloc)?;
        events.push(event)?;
        self.with(alloc, events)
    }

    fn copy(&self, alloc: Global) -> Result<Run<'a>, AllocError> {
        self.with(alloc, self.events.copy(alloc)?)
    }

    // The run as it enters an inner sequence, with these events.
    fn entering(
        &self,
        at: At<'_>,
        events: Events,
        soft_failure: bool,
    ) -> Result<Run<'a>, AllocError> {
        let mut run = self.with(at.alloc, events)?;
        run.selection = Vec::from_slice(at.alloc, &[at.component])?;
        run.soft_failure = soft_failure;
        Ok(run)
    }

    // The run as it leaves an inner sequence: a soft failure is passed over, and selection and soft failure are
    // restored.
    fn leaving(mut self, alloc: Global, outer: &Run<'a>) -> Result<Run<'a>, AllocError> {
        if self.end == End::Condition && self.soft_failure {
            self.end = End::Softly;
            self.set = Vec::from_slice(alloc, &outer.set)?;
        }
        self.selection = Vec::from_slice(alloc, &outer.selection)?;
        self.soft_failure = outer.soft_failure;
        Ok(self)
    }

    // The parameter of a component that was set last.
    fn get(&self, component: u32, key: ParamKey) -> Option<&'a Param> {
        let mut found = None;
        for (of, param) in &self.set {
            if *of == component && param.key() == key {
                found = Some(*param);
            }
        }
        found
    }

    fn digest(&self, component: u32) -> Option<Digest> {
        match self.get(component, ParamKey::Digest) {
            Some(Param::Digest(digest)) => Some(*digest.get()),
            _ => None,
        }
    }

    fn size(&self, component: u32) -> Option<u64> {
        match self.get(component, ParamKey::Size) {
            Some(Param::Size(size)) => Some(*size),
            _ => None,
        }
    }
}

// Ends a run with a failure.
fn fail<'a>(at: At<'_>, run: Run<'a>, end: End, out: &mut Runs<'a>) -> Done {
    let mut run = run;
    run.events.push(Event::Failed { place: at.place })?;
    run.end = end;
    out.push(run)?;
    Ok(())
}

// ---- conditions

fn key_of(kind: TestKind) -> Option<ParamKey> {
    match kind {
        TestKind::Vendor => Some(ParamKey::Vendor),
        TestKind::Class => Some(ParamKey::Class),
        TestKind::Device => Some(ParamKey::Device),
        TestKind::Slot => Some(ParamKey::Slot),
        TestKind::ImageMatch => Some(ParamKey::Digest),
        TestKind::CheckContent => Some(ParamKey::Content),
        TestKind::Abort => None,
    }
}

// Whether a condition may pass, and whether it may fail.
fn ways(identity: Option<&Identity>, param: Option<&Param>) -> (bool, bool) {
    let (Some(identity), Some(param)) = (identity, param) else {
        return (false, true);
    };
    let is_own = match param {
        Param::Vendor(id) => identity.vendor == Some(*id),
        Param::Class(id) => identity.class == Some(*id),
        Param::Device(id) => identity.device == Some(*id),
        Param::Slot(number) => identity.slot == *number,
        _ => return (true, true),
    };
    (is_own, !is_own)
}

fn tried(component: u32, kind: TestKind, run: &Run<'_>, passed: bool) -> Event {
    if kind != TestKind::ImageMatch {
        return Event::Tried {
            component,
            kind,
            passed,
        };
    }
    match run.digest(component) {
        Some(digest) if passed => Event::Matched {
            component,
            digest,
            size: run.size(component),
        },
        _ => Event::Missed { component },
    }
}

fn test<'a>(at: At<'_>, kind: TestKind, run: Run<'a>, out: &mut Runs<'a>) -> Done {
    let param = match key_of(kind) {
        Some(key) => run.get(at.component, key),
        None => None,
    };
    let (may_pass, may_fail) = ways(at.identities.get(at.component as usize), param);
    if may_pass {
        out.push(run.and(at.alloc, tried(at.component, kind, &run, true))?)?;
    }
    if may_fail {
        let failed = run.and(at.alloc, tried(at.component, kind, &run, false))?;
        fail(at, failed, End::Condition, out)?;
    }
    Ok(())
}

// ---- directives

fn invoked<'a>(at: At<'_>, run: &Run<'a>, passed: bool) -> Result<Run<'a>, AllocError> {
    let event = Event::Invoked {
        component: at.component,
        digest: run.digest(at.component),
        size: run.size(at.component),
        passed,
    };
    run.and(at.alloc, event)
}

fn invoke<'a>(at: At<'_>, run: &Run<'a>, out: &mut Runs<'a>) -> Done {
    out.push(invoked(at, run, true)?)?;
    fail(at, invoked(at, run, false)?, End::Directive, out)
}

fn source_of(at: At<'_>, run: &Run<'_>) -> Option<u32> {
    match run.get(at.component, ParamKey::Source) {
        Some(Param::Source(source)) => Some(*source),
        _ => None,
    }
}

fn has_param(at: At<'_>, kind: ActKind, run: &Run<'_>) -> bool {
    match kind {
        ActKind::Write => run.get(at.component, ParamKey::Content).is_some(),
        ActKind::Fetch => run.get(at.component, ParamKey::Uri).is_some(),
        _ => source_of(at, run).is_some(),
    }
}

fn wrote<'a>(at: At<'_>, kind: ActKind, run: &Run<'a>) -> Result<Run<'a>, AllocError> {
    let component = at.component;
    let mut wrote = run.and(at.alloc, Event::Wrote { component })?;
    if kind == ActKind::Swap
        && let Some(component) = source_of(at, run)
    {
        wrote.events.push(Event::Wrote { component })?;
    }
    Ok(wrote)
}

fn write<'a>(at: At<'_>, kind: ActKind, run: Run<'a>, out: &mut Runs<'a>) -> Done {
    if !has_param(at, kind, &run) {
        return fail(at, run, End::Directive, out);
    }
    let wrote = wrote(at, kind, &run)?;
    fail(at, wrote.copy(at.alloc)?, End::Directive, out)?;
    out.push(wrote)?;
    Ok(())
}

fn overrides<'a>(at: At<'_>, list: &'a ParamList, run: Run<'a>) -> Result<Run<'a>, AllocError> {
    let component = at.component;
    let mut run = run;
    for param in list.as_slice() {
        let copied = param.copy(at.alloc)?;
        run.events.push(Event::Set {
            component,
            param: copied,
        })?;
        run.set.push((component, param))?;
        if let Param::Soft(value) = param {
            run.soft_failure = *value;
        }
    }
    Ok(run)
}

// ---- sequences

fn selected(at: At<'_>, selection: &Selection) -> Result<Vec<u32>, AllocError> {
    match selection {
        Selection::One(component) => Vec::from_slice(at.alloc, &[*component]),
        Selection::Listed(list) => Vec::from_slice(at.alloc, list.as_slice()),
        Selection::All => {
            let mut all = Vec::new(at.alloc);
            for (component, _) in (0..8).zip(at.identities) {
                all.push(component)?;
            }
            Ok(all)
        }
    }
}

fn alone<'a>(alloc: Global, run: Run<'a>) -> Result<Runs<'a>, AllocError> {
    let mut runs = Vec::new(alloc);
    runs.push(run)?;
    Ok(runs)
}

#[cycle(runs)]
fn sequence<'a>(at: At<'_>, held: &'a Sequence, from: Runs<'a>) -> Result<Runs<'a>, AllocError> {
    let mut runs = from;
    for step in held.as_slice() {
        runs = after_step(at, step, runs)?;
    }
    Ok(runs)
}

// The runs after one more command of a sequence.
#[cycle(runs)]
fn after_step<'a>(at: At<'_>, step: &'a Step, runs: Runs<'a>) -> Result<Runs<'a>, AllocError> {
    let mut at = at;
    at.place = step.place;
    let mut out = Vec::new(at.alloc);
    for run in runs {
        if run.end == End::Going {
            each(at, &step.command, run, &mut out)?;
        } else {
            out.push(run)?;
        }
    }
    Ok(out)
}

fn select<'a>(at: At<'_>, selection: &Selection, run: Run<'a>, out: &mut Runs<'a>) -> Done {
    let mut run = run;
    run.selection = selected(at, selection)?;
    out.push(run)?;
    Ok(())
}

// Does a command at each selected component.
#[cycle(runs)]
fn each<'a>(at: At<'_>, command: &'a Command, run: Run<'a>, out: &mut Runs<'a>) -> Done {
    if let Command::Index(selection) = command {
        return select(at, selection, run, out);
    }
    let selection = Vec::from_slice(at.alloc, &run.selection)?;
    let mut runs = alone(at.alloc, run)?;
    for component in &selection {
        let mut at = at;
        at.component = *component;
        runs = at_one(at, command, runs)?;
    }
    out.append(&mut runs)?;
    Ok(())
}

// The runs after a command at one component.
#[cycle(runs)]
fn at_one<'a>(at: At<'_>, command: &'a Command, runs: Runs<'a>) -> Result<Runs<'a>, AllocError> {
    let mut out = Vec::new(at.alloc);
    for run in runs {
        if run.end == End::Going {
            one(at, command, run, &mut out)?;
        } else {
            out.push(run)?;
        }
    }
    Ok(out)
}

// Does a command at one component.
#[cycle(runs)]
fn one<'a>(at: At<'_>, command: &'a Command, run: Run<'a>, out: &mut Runs<'a>) -> Done {
    match command {
        Command::Test { kind, .. } => test(at, *kind, run, out),
        Command::Act { kind, .. } if *kind == ActKind::Invoke => invoke(at, &run, out),
        Command::Act { kind, .. } => write(at, *kind, run, out),
        Command::Index(_) => Ok(()),
        Command::Override(list) => Ok(out.push(overrides(at, list, run)?)?),
        Command::TryEach(branches) => try_each(at, branches, &run, out),
        Command::Run(held) => {
            let events = run.events.copy(at.alloc)?;
            go_on(inner(at, held, false, &run, events)?, out)
        }
    }
}

// Goes on after an inner sequence, whose soft failures are passed over.
fn go_on<'a>(runs: Runs<'a>, out: &mut Runs<'a>) -> Done {
    for run in runs {
        let mut run = run;
        if run.end == End::Softly {
            run.end = End::Going;
        }
        out.push(run)?;
    }
    Ok(())
}

// The runs of an inner sequence with these events before it, as they leave it.
#[cycle(runs)]
fn inner<'a>(
    at: At<'_>,
    held: &'a Sequence,
    soft_failure: bool,
    outer: &Run<'a>,
    events: Events,
) -> Result<Runs<'a>, AllocError> {
    if at.levels == 0 {
        return Err(AllocError);
    }
    let mut within = at;
    within.levels = at.levels - 1;
    let from = alone(at.alloc, outer.entering(at, events, soft_failure)?)?;
    all_leaving(at.alloc, sequence(within, held, from)?, outer)
}

fn all_leaving<'a>(alloc: Global, runs: Runs<'a>, outer: &Run<'a>) -> Result<Runs<'a>, AllocError> {
    let mut out = Vec::new(alloc);
    for run in runs {
        out.push(run.leaving(alloc, outer)?)?;
    }
    Ok(out)
}

// Tries the branches in order, each one after the soft failures of those before it.
#[cycle(runs)]
fn try_each<'a>(at: At<'_>, branches: &'a Branches, outer: &Run<'a>, out: &mut Runs<'a>) -> Done {
    let mut waiting = Vec::new(at.alloc);
    waiting.push(outer.events.copy(at.alloc)?)?;
    for branch in branches.as_slice() {
        let Some(held) = branch else {
            return end_all(at.alloc, waiting, outer, End::Going, out);
        };
        waiting = after_branch(at, held, outer, waiting, out)?;
    }
    end_all(at.alloc, waiting, outer, End::Condition, out)
}

// The events of the runs in which a branch failed softly. All other runs are done with the try each.
#[cycle(runs)]
fn after_branch<'a>(
    at: At<'_>,
    held: &'a Sequence,
    outer: &Run<'a>,
    waiting: Vec<Events>,
    out: &mut Runs<'a>,
) -> Result<Vec<Events>, AllocError> {
    let mut rest = Vec::new(at.alloc);
    for events in waiting {
        set_apart(inner(at, held, true, outer, events)?, &mut rest, out)?;
    }
    Ok(rest)
}

// Separates the events of runs that failed softly.
fn set_apart<'a>(runs: Runs<'a>, softly: &mut Vec<Events>, out: &mut Runs<'a>) -> Done {
    for run in runs {
        if run.end == End::Softly {
            softly.push(run.events)?;
        } else {
            out.push(run)?;
        }
    }
    Ok(())
}

// Ends a run with each of these lists of events.
fn end_all<'a>(
    alloc: Global,
    all: Vec<Events>,
    outer: &Run<'a>,
    end: End,
    out: &mut Runs<'a>,
) -> Done {
    for events in all {
        let mut run = outer.with(alloc, events)?;
        run.end = end;
        out.push(run)?;
    }
    Ok(())
}

// ---- procedures

fn begun<'a>(alloc: Global) -> Run<'a> {
    Run {
        events: Events::new(alloc),
        set: Vec::new(alloc),
        selection: Vec::new(alloc),
        soft_failure: false,
        end: End::Going,
    }
}

// Begins a part of a procedure, with component 0 selected.
fn enter_part(alloc: Global, runs: &mut Runs<'_>) -> Done {
    for run in runs.iter_mut() {
        run.selection = Vec::from_slice(alloc, &[0])?;
        run.soft_failure = false;
    }
    Ok(())
}

/// All runs of a procedure for these identities. Its inner sequences may be nested three levels deep; deeper ones
/// return an error.
pub(crate) fn all_runs<'a>(
    alloc: Global,
    identities: &[Identity],
    plan: &Plan<'a>,
) -> Result<Runs<'a>, AllocError> {
    let at = At {
        alloc,
        identities,
        levels: 3,
        place: 0,
        component: 0,
    };
    let mut runs = alone(alloc, begun(alloc))?;
    let shared = plan.shared;
    for part in &[shared, plan.first, shared, plan.second, shared, plan.third] {
        if let Some(held) = part {
            enter_part(alloc, &mut runs)?;
            runs = sequence(at, *held, runs)?;
        }
    }
    Ok(runs)
}
