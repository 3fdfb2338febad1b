//! Descriptions whose contents are found to be too long before anything is made of them.

ghost use Rattle.std.specs.Prelude.{◌≡◌, IfOk, option_map};
ghost use Rattle.serde_json.specs.View.{view};
ghost use Rattle.json_fields.specs.Answers.{Gives};
ghost use Rattle.author.specs.Contents.{left_after};
ghost use Rattle.author.specs.Held.{value_of};
ghost use Rattle.author.specs.Outlines.{severed_by, held_length, member_length, manifest_length, severed_length, severed_in, outline_of, outline_view};
ghost use Rattle.author.specs.Overlong.{AreJudged};
ghost use Rattle.author.specs.Severing.{given_in};

use crate::contents::after_sequence;
use crate::outline::Outline;
use crate::severing::{Severed, given, severed_members};
use crate::short_envelope::{MAX_TRIMMED, MAX_WHOLE};
use crate::{Description, FileList};
use json_fields::JsonFault;
use serde_json::Value;
use std::alloc::{AllocError, Global};
use suit_commands::MAX_LEVELS;

// The members that a description severs, by the value of `sever`.
fn severed(alloc: Global, description: &Value, sever: Option<&Value>) -> Result<Severed, JsonFault>
    ensures { Gives (λ s. s) result (severed_by (given_in (view description.now))
        (option_map (λ v. view v.now) sever.entry)) }
{
    match sever {
        Some(value) => severed_members(alloc, value, given(description)),
        None => Ok(Severed::none()),
    }
}

// What is left of `left` bytes after the contents of a sequence, if it is there.
fn after_held(value: Option<&Value>, files: &FileList, left: u64) -> Option<u64>
    ensures { result
        ≡ left_after left (held_length files.now (option_map (λ v. view v.now) value.entry)) }
{
    match value {
        Some(value) => after_sequence(value, files, MAX_LEVELS, left),
        None => Some(left),
    }
}

// What is left of `left` bytes after the contents of a member. A severed one has none.
fn after_member(value: Option<&Value>, severed: bool, files: &FileList, left: u64) -> Option<u64>
    ensures { result ≡ left_after left
        (member_length files.now severed (option_map (λ v. view v.now) value.entry)) }
{
    if severed {
        Some(left)
    } else {
        after_held(value, files, left)
    }
}

// What is left of `left` bytes after all contents in the manifest.
fn after_manifest(
    outline: &Outline<'_>,
    severed: Severed,
    files: &FileList,
    left: u64,
) -> Option<u64>
    ensures { result
        ≡ left_after left (manifest_length files.now (outline_view outline.now) severed) }
{
    let left = after_held(outline.shared, files, left)?;
    let left = after_held(outline.validate, files, left)?;
    let left = after_held(outline.load, files, left)?;
    let left = after_held(outline.invoke, files, left)?;
    let left = after_member(outline.payload_fetch, severed.payload_fetch, files, left)?;
    after_member(outline.install, severed.install, files, left)
}

// What is left of `left` bytes after all contents in the severed members.
fn after_severed(
    outline: &Outline<'_>,
    severed: Severed,
    files: &FileList,
    left: u64,
) -> Option<u64>
    ensures { result
        ≡ left_after left (severed_length files.now (outline_view outline.now) severed) }
{
    let left = after_member(outline.payload_fetch, !severed.payload_fetch, files, left)?;
    after_member(outline.install, !severed.install, files, left)
}

// The members that a description severs.
fn severed_in(
    alloc: Global,
    description: &Description,
    outline: &Outline<'_>,
) -> Result<Severed, AllocError>
    requires { outline_view outline.now ≡ outline_of (value_of description.now) }
    ensures { IfOk result (λ s. s ≡ severed_in (value_of description.now)) }
{
    match severed(alloc, &description.value, outline.sever) {
        Ok(severed) => Ok(severed),
        Err(JsonFault::NoMemory) => Err(AllocError),
        Err(JsonFault::Flawed(_)) => unreachable!(),
    }
}

/// Whether the files that are contents in a description leave room for its envelope.
#[derive(Clone, Copy)]
pub(crate) enum Contents {
    /// The contents in the manifest, and those in the severed members, are within the limits.
    Short,
    /// The contents in the manifest are longer than a trimmed envelope may be.
    LongManifest,
    /// The contents in these severed members are longer than an envelope may be.
    LongMembers(Severed),
}

/// Judges the lengths of the files that are contents in a description. Copies no file.
pub(crate) fn judge_contents(
    alloc: Global,
    description: &Description,
    files: &FileList,
) -> Result<Contents, AllocError>
    ensures { IfOk result (AreJudged (value_of description.now) files.now) }
{
    let outline = Outline::of(&description.value);
    let severed = severed_in(alloc, description, &outline)?;
    if after_manifest(&outline, severed, files, MAX_TRIMMED).is_none() {
        return Ok(Contents::LongManifest);
    }
    match after_severed(&outline, severed, files, MAX_WHOLE) {
        Some(_) => Ok(Contents::Short),
        None => Ok(Contents::LongMembers(severed)),
    }
}
