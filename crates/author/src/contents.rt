//! The lengths of files that are contents in the sequences of a description.

ghost use Rattle.std.specs.Prelude.{◌≡◌};
ghost use Rattle.serde_json.specs.View.{view};
ghost use Rattle.author.specs.Contents.{content_length, is_content, params_length, sequence_length, command_length, tries_length, left_after};
ghost use Rattle.author.specs.ParamNames.{param_named};

use crate::FileList;
use crate::command_name::{CommandName, named};
use crate::elements::{elements, pair};
use crate::file_list::bytes_of;
use crate::param_name::param_named;
use serde_json::Value;
use suit_params::ParamKey;

// The length of the file that is a content.
fn content_length(value: &Value, files: &FileList) -> usize
    ensures { result ≡ content_length files.now (view value.now) }
{
    let mut length = 0;
    if let Some(members) = value.as_object() {
        for (_, member) in members.iter() {
            if let Some(name) = member.as_str() {
                length = bytes_of(files, name).len();
            }
        }
    }
    length
}

fn is_content(name: &str) -> bool
    ensures { result ≡ is_content (param_named name.now) }
{
    match param_named(name) {
        Some(ParamKey::Content) => true,
        _ => false,
    }
}

fn params_length(value: &Value, files: &FileList) -> usize
    ensures { result ≡ params_length files.now (view value.now) }
{
    let mut length = 0;
    if let Some(members) = value.as_object() {
        for (key, member) in members.iter() {
            if is_content(key.as_str()) {
                length = content_length(member, files);
            }
        }
    }
    length
}

fn spend(left: u64, length: usize) -> Option<u64>
    ensures { result ≡ left_after left length }
{
    let length = length as u64;
    if length <= left {
        Some(left - length)
    } else {
        None
    }
}

/// What is left of `left` bytes after the contents of a sequence, nested at most `levels` levels deep. Stops with
/// `None` at the first content that is too long.
#[cycle(contents)]
pub(crate) fn after_sequence(value: &Value, files: &FileList, levels: u8, left: u64) -> Option<u64>
    ensures { result ≡ left_after left (sequence_length files.now levels (view value.now)) }
{
    if levels == 0 {
        return Some(left);
    }
    let mut rest = left;
    for element in elements(value) {
        rest = after_command(element, files, levels - 1, rest)?;
    }
    Some(rest)
}

#[cycle(contents)]
#[tactic(auto, using(crate::proofs::LeftAfter::command_paired))]
fn after_command(value: &Value, files: &FileList, levels: u8, left: u64) -> Option<u64>
    ensures { result ≡ left_after left (command_length files.now levels (view value.now)) }
{
    let Some((name, argument)) = pair(value) else {
        return Some(left);
    };
    let Some(name) = named(name) else {
        return Some(left);
    };
    match name {
        CommandName::Set => spend(left, params_length(argument, files)),
        CommandName::Try => after_branches(argument, files, levels, left),
        CommandName::Run => after_sequence(argument, files, levels, left),
        CommandName::Test(_) | CommandName::Act(_) | CommandName::Index => Some(left),
    }
}

#[cycle(contents)]
fn after_branches(value: &Value, files: &FileList, levels: u8, left: u64) -> Option<u64>
    ensures { result ≡ left_after left (tries_length files.now levels (view value.now)) }
{
    let mut rest = left;
    for element in elements(value) {
        rest = after_sequence(element, files, levels, rest)?;
    }
    Some(rest)
}
