//! A plain player of trees, to compare the machine over bytes with. Its contents are borrowed.

ghost use Rattle.std.specs.Prelude.{◌<◌};

use path_model::Cause;
use sha2::{Digest as _, Sha256, Sha384, Sha512};
use suit_commands::{ActKind, Branches, Command, Selection, Sequence, Step, TestKind};
use suit_edge::Launch;
use suit_params::{Digest, Param, ParamKey, Params};

/// The number of components.
pub(crate) const COUNT: usize = 3;

/// How many bytes each component has room for.
pub(crate) const CAPACITIES: [u64; COUNT] = [3, 2, 4];

/// The vendor of each component. They have no class and no device identifier, and stand for slot 0.
pub(crate) const VENDOR: [u8; 16] = [97; 16];

/// The URI of the only file, and its content. It fits the first component and the last one.
pub(crate) const FILE: (&str, &[u8]) = ("a", b"abc");

const ALONE: [[u32; 1]; COUNT] = [[0], [1], [2]];

const ALL: [u32; COUNT] = [0, 1, 2];

/// Why a sequence stopped.
#[derive(Clone, Copy)]
pub(crate) enum Stop {
    Condition { place: u64, soft_failure: bool },
    Directive { place: u64, cause: Cause },
}

/// The contents, and those launches of the machine that are not played yet.
#[derive(Clone, Copy)]
pub(crate) struct Stage<'a> {
    pub contents: [&'a [u8]; COUNT],
    pub launches: &'a [Launch],
    /// Whether each launch so far was the machine's, too.
    pub alike: bool,
}

// The parameters, selection and soft failure of a running sequence.
#[derive(Drop)]
struct Frame<'a> {
    params: Params<'a>,
    selection: &'a [u32],
    soft_failure: bool,
}

// Where a command is done, and how many levels of inner sequences are still allowed.
#[derive(Clone, Copy)]
struct At {
    levels: u8,
    place: u64,
    component: u32,
}

impl<'a> Frame<'a> {
    // The frame of an inner sequence at a component.
    fn inner(&self, component: u32, soft_failure: bool) -> Frame<'a> {
        Frame {
            params: self.params.copy(),
            selection: match ALONE.get(component as usize) {
                Some(alone) => alone,
                None => &[],
            },
            soft_failure,
        }
    }

    fn get(&self, component: u32, key: ParamKey) -> Option<&'a Param> {
        if component < 8 {
            self.params.get(component, key)
        } else {
            None
        }
    }

    fn size(&self, component: u32) -> Option<u64> {
        match self.get(component, ParamKey::Size) {
            Some(Param::Size(size)) => Some(*size),
            _ => None,
        }
    }

    fn source(&self, component: u32) -> Option<usize> {
        match self.get(component, ParamKey::Source) {
            Some(Param::Source(source)) => Some(*source as usize),
            _ => None,
        }
    }
}

impl<'a> Stage<'a> {
    fn content(&self, component: usize) -> &'a [u8] {
        match self.contents.get(component) {
            Some(content) => content,
            None => &[],
        }
    }

    fn has_room(&self, component: usize, content: &[u8]) -> bool {
        match CAPACITIES.get(component) {
            Some(capacity) => content.len() as u64 <= *capacity,
            None => false,
        }
    }

    fn put(&mut self, component: usize, content: &'a [u8]) {
        if component < COUNT {
            self.contents[component] = content;
        }
    }

    fn fill(&mut self, component: usize, content: &'a [u8]) -> Result<(), Cause> {
        if !self.has_room(component, content) {
            return Err(Cause::TooLarge);
        }
        self.put(component, content);
        Ok(())
    }
}

// ---- conditions

fn has_digest(content: &[u8], digest: &Digest) -> bool {
    match digest {
        Digest::Sha256(bytes) => Sha256::digest(content) == *bytes,
        Digest::Sha384(bytes) => Sha384::digest(content) == *bytes,
        Digest::Sha512(bytes) => Sha512::digest(content) == *bytes,
    }
}

fn is_image(frame: &Frame<'_>, component: u32, content: &[u8]) -> bool {
    let Some(Param::Digest(digest)) = frame.get(component, ParamKey::Digest) else {
        return false;
    };
    let sized = match frame.size(component) {
        Some(size) => content.len() as u64 == size,
        None => true,
    };
    sized && has_digest(content, digest.get())
}

fn passes(stage: &Stage<'_>, frame: &Frame<'_>, component: u32, kind: TestKind) -> bool {
    let content = stage.content(component as usize);
    match kind {
        TestKind::Vendor => match frame.get(component, ParamKey::Vendor) {
            Some(Param::Vendor(id)) => *id == VENDOR,
            _ => false,
        },
        TestKind::Slot => match frame.get(component, ParamKey::Slot) {
            Some(Param::Slot(number)) => *number == 0,
            _ => false,
        },
        TestKind::CheckContent => match frame.get(component, ParamKey::Content) {
            Some(Param::Content(wanted)) => wanted.as_slice() == content,
            _ => false,
        },
        TestKind::ImageMatch => is_image(frame, component, content),
        TestKind::Class | TestKind::Device | TestKind::Abort => false,
    }
}

// ---- directives

fn write<'a>(stage: &mut Stage<'a>, frame: &Frame<'a>, component: u32) -> Result<(), Cause> {
    match frame.get(component, ParamKey::Content) {
        Some(Param::Content(content)) => stage.fill(component as usize, content.as_slice()),
        _ => Err(Cause::Missing),
    }
}

// A file that is too large leaves the content empty.
fn fetch<'a>(stage: &mut Stage<'a>, frame: &Frame<'a>, component: u32) -> Result<(), Cause> {
    let Some(Param::Uri(uri)) = frame.get(component, ParamKey::Uri) else {
        return Err(Cause::Missing);
    };
    if uri.as_str() != FILE.0 {
        return Err(Cause::Absent);
    }
    stage.put(component as usize, &[]);
    stage.fill(component as usize, FILE.1)
}

fn copy<'a>(stage: &mut Stage<'a>, frame: &Frame<'a>, component: u32) -> Result<(), Cause> {
    let Some(source) = frame.source(component) else {
        return Err(Cause::Missing);
    };
    if source == component as usize {
        return Err(Cause::SelfCopy);
    }
    stage.fill(component as usize, stage.content(source))
}

fn swap<'a>(stage: &mut Stage<'a>, frame: &Frame<'a>, component: u32) -> Result<(), Cause> {
    let Some(source) = frame.source(component) else {
        return Err(Cause::Missing);
    };
    let component = component as usize;
    if source == component {
        return Err(Cause::SelfCopy);
    }
    let one = stage.content(component);
    let other = stage.content(source);
    if !stage.has_room(source, one) {
        return Err(Cause::TooLarge);
    }
    stage.fill(component, other)?;
    stage.put(source, one);
    Ok(())
}

fn is_launch(launch: &Launch, stage: &Stage<'_>, frame: &Frame<'_>, component: u32) -> bool {
    let digest = match frame.get(component, ParamKey::Digest) {
        Some(Param::Digest(digest)) => match &launch.digest {
            Some(told) => told.as_slice() == digest.get().bytes(),
            None => false,
        },
        _ => launch.digest.is_none(),
    };
    let content = stage.content(component as usize);
    launch.component == component
        && launch.bytes.as_slice() == content
        && launch.size == frame.size(component)
        && launch.args.is_none()
        && digest
}

fn invoke(stage: &mut Stage<'_>, frame: &Frame<'_>, component: u32) {
    let launches = stage.launches;
    match launches.split_first() {
        Some((launch, rest)) => {
            stage.alike = stage.alike && is_launch(launch, stage, frame, component);
            stage.launches = rest;
        }
        None => stage.alike = false,
    }
}

fn act<'a>(
    stage: &mut Stage<'a>,
    frame: &Frame<'a>,
    component: u32,
    kind: ActKind,
) -> Result<(), Cause> {
    match kind {
        ActKind::Write => write(stage, frame, component),
        ActKind::Fetch => fetch(stage, frame, component),
        ActKind::Copy => copy(stage, frame, component),
        ActKind::Swap => swap(stage, frame, component),
        ActKind::Invoke => {
            invoke(stage, frame, component);
            Ok(())
        }
    }
}

// ---- sequences

#[cycle(playing)]
fn sequence<'a>(
    stage: &mut Stage<'a>,
    at: At,
    steps: &'a Sequence,
    frame: &mut Frame<'a>,
) -> Result<(), Stop> {
    for step in steps.as_slice() {
        let mut at = at;
        at.place = step.place;
        each(stage, at, step, frame)?;
    }
    Ok(())
}

// Does a command at each selected component.
#[cycle(playing)]
fn each<'a>(
    stage: &mut Stage<'a>,
    at: At,
    step: &'a Step,
    frame: &mut Frame<'a>,
) -> Result<(), Stop> {
    if let Command::Index(selection) = &step.command {
        frame.selection = match selection {
            Selection::One(component) => frame.inner(*component, false).selection,
            Selection::All => &ALL,
            Selection::Listed(list) => list.as_slice(),
        };
        return Ok(());
    }
    let selection = frame.selection;
    for component in selection {
        let mut at = at;
        at.component = *component;
        one(stage, at, &step.command, frame)?;
    }
    Ok(())
}

// Does a command at one component.
#[cycle(playing)]
fn one<'a>(
    stage: &mut Stage<'a>,
    at: At,
    command: &'a Command,
    frame: &mut Frame<'a>,
) -> Result<(), Stop> {
    let place = at.place;
    match command {
        Command::Index(_) => Ok(()),
        Command::Test { kind, .. } => {
            if passes(stage, frame, at.component, *kind) {
                return Ok(());
            }
            Err(Stop::Condition {
                place,
                soft_failure: frame.soft_failure,
            })
        }
        Command::Act { kind, .. } => match act(stage, frame, at.component, *kind) {
            Ok(()) => Ok(()),
            Err(cause) => Err(Stop::Directive { place, cause }),
        },
        Command::Override(list) => {
            if at.component < 8 {
                frame.params.override_with(at.component, list);
            }
            for param in list.as_slice() {
                if let Param::Soft(value) = param {
                    frame.soft_failure = *value;
                }
            }
            Ok(())
        }
        Command::TryEach(branches) => try_each(stage, at, branches, frame),
        Command::Run(steps) => match inner(stage, at, steps, false, frame) {
            Err(
                Stop::Condition {
                    soft_failure: true,
                    ..
                },
            ) => Ok(()),
            ended => passed_on(ended, frame),
        },
    }
}

// Runs an inner sequence. If it is done, its parameters stay.
#[cycle(playing)]
fn inner<'a>(
    stage: &mut Stage<'a>,
    at: At,
    steps: &'a Sequence,
    soft_failure: bool,
    frame: &mut Frame<'a>,
) -> Result<(), Stop> {
    let mut entered = frame.inner(at.component, soft_failure);
    if at.levels == 0 {
        return Ok(());
    }
    let mut within = at;
    within.levels = at.levels - 1;
    sequence(stage, within, steps, &mut entered)?;
    frame.params = entered.params;
    Ok(())
}

// Tries the branches in order, each one after those before it failed softly.
#[cycle(playing)]
fn try_each<'a>(
    stage: &mut Stage<'a>,
    at: At,
    branches: &'a Branches,
    frame: &mut Frame<'a>,
) -> Result<(), Stop> {
    for branch in branches.as_slice() {
        let Some(steps) = branch else {
            return Ok(());
        };
        match inner(stage, at, steps, true, frame) {
            Err(
                Stop::Condition {
                    soft_failure: true,
                    ..
                },
            ) => {}
            ended => return passed_on(ended, frame),
        }
    }
    Err(Stop::Condition {
        place: at.place,
        soft_failure: frame.soft_failure,
    })
}

// Passes a failure of an inner sequence to the outer one.
fn passed_on(ended: Result<(), Stop>, frame: &Frame<'_>) -> Result<(), Stop> {
    match ended {
        Err(Stop::Condition { place, .. }) => Err(Stop::Condition {
            place,
            soft_failure: frame.soft_failure,
        }),
        other => other,
    }
}

/// Plays a procedure: the shared sequence before each of its three members. Inner sequences may be nested eight levels
/// deep.
pub(crate) fn play<'a>(
    stage: &mut Stage<'a>,
    shared: &'a Sequence,
    members: [&'a Sequence; 3],
) -> Result<(), Stop> {
    let at = At {
        levels: 8,
        place: 0,
        component: 0,
    };
    let mut frame = Frame {
        params: Params::new(),
        selection: &[],
        soft_failure: false,
    };
    for member in members {
        for part in [shared, member] {
            frame.selection = &ALONE[0];
            frame.soft_failure = false;
            sequence(stage, at, part, &mut frame)?;
        }
    }
    Ok(())
}
