//! Which members of a description are severed.

ghost use Rattle.std.specs.Prelude.{◌≡◌, Some, None};
ghost use Rattle.serde_json.specs.Find.{get};
ghost use Rattle.serde_json.specs.View.{view};
ghost use Rattle.json_fields.specs.Answers.{Gives};
ghost use Rattle.author.specs.Severing.{member_named, is_in, with_name, plain_kinds, none_severed, given_in, is_content, one_name, entry_of, one_severed, severed_of};

use crate::algorithm_name::algorithm;
use crate::elements::pair;
use json_fields::{FlawKind, JsonFault, at_index, flawed};
use serde_json::Value;
use std::alloc::Global;
use suit_envelope::MemberName;
use suit_params::DigestKind;

/// A hash function for each of the members that may be severed from the manifest.
#[derive(Clone, Copy)]
pub struct MemberKinds {
    pub payload_fetch: DigestKind,
    pub install: DigestKind,
    pub text: DigestKind,
}

impl MemberKinds {
    /// SHA-256 for each of them.
    pub fn plain() -> MemberKinds
        ensures { result ≡ plain_kinds }
    {
        MemberKinds {
            payload_fetch: DigestKind::Sha256,
            install: DigestKind::Sha256,
            text: DigestKind::Sha256,
        }
    }
}

/// A set of the members that may be severed from the manifest.
#[derive(Clone, Copy)]
pub struct Severed {
    pub payload_fetch: bool,
    pub install: bool,
    pub text: bool,
    /// The hash functions of their digests. SHA-256 for a member that is not severed.
    pub kinds: MemberKinds,
}

impl Severed {
    /// No member is severed.
    pub(crate) fn none() -> Severed
        ensures { result ≡ none_severed }
    {
        Severed {
            payload_fetch: false,
            install: false,
            text: false,
            kinds: MemberKinds::plain(),
        }
    }

    fn contains(self, name: MemberName) -> bool
        ensures { result ≡ is_in self name }
    {
        match name {
            MemberName::PayloadFetch => self.payload_fetch,
            MemberName::Install => self.install,
            MemberName::Text => self.text,
        }
    }

    fn with(mut self, name: MemberName, kind: DigestKind) -> Severed
        ensures { result ≡ with_name self name kind }
    {
        match name {
            MemberName::PayloadFetch => {
                self.payload_fetch = true;
                self.kinds.payload_fetch = kind;
            }
            MemberName::Install => {
                self.install = true;
                self.kinds.install = kind;
            }
            MemberName::Text => {
                self.text = true;
                self.kinds.text = kind;
            }
        }
        self
    }
}

fn member_named(name: &str) -> Option<MemberName>
    ensures { result ≡ member_named name.now }
{
    match name {
        "payload-fetch" => Some(MemberName::PayloadFetch),
        "install" => Some(MemberName::Install),
        "text" => Some(MemberName::Text),
        _ => None,
    }
}

// Whether a description has a field with this name that is not an object.
fn is_content(description: &Value, name: &str) -> bool
    ensures { result ≡ is_content (get name.now (view description.now)) }
{
    match description.get(name) {
        Some(value) => !value.is_object(),
        None => false,
    }
}

/// The members that a description gives with their content.
pub(crate) fn given(description: &Value) -> Severed
    ensures { result ≡ given_in (view description.now) }
{
    Severed {
        payload_fetch: is_content(description, "payload-fetch"),
        install: is_content(description, "install"),
        text: is_content(description, "text"),
        kinds: MemberKinds::plain(),
    }
}

// Reads the name of a member that is given, and not named yet.
fn one_name(
    alloc: Global,
    value: &Value,
    given: Severed,
    so_far: Severed,
) -> Result<MemberName, JsonFault>
    ensures { Gives (λ name. name) result (one_name given so_far (view value.now)) }
{
    let Some(text) = value.as_str() else {
        return flawed(alloc, FlawKind::Field);
    };
    match member_named(text) {
        Some(name) => {
            if given.contains(name) && !so_far.contains(name) {
                Ok(name)
            } else {
                flawed(alloc, FlawKind::Field)
            }
        }
        None => flawed(alloc, FlawKind::Field),
    }
}

// Reads an entry: a name, for SHA-256, or a name and a hash function.
fn entry(
    alloc: Global,
    value: &Value,
    given: Severed,
    so_far: Severed,
) -> Result<(MemberName, DigestKind), JsonFault>
    ensures { Gives (λ e. e) result (entry_of given so_far (view value.now)) }
{
    match pair(value) {
        Some((first, second)) => {
            let name = at_index(alloc, 0, one_name(alloc, first, given, so_far))?;
            let kind = at_index(alloc, 1, algorithm(alloc, second))?;
            Ok((name, kind))
        }
        None => Ok((one_name(alloc, value, given, so_far)?, DigestKind::Sha256)),
    }
}

// Reads an entry, and adds it to those read before.
fn one_severed(
    alloc: Global,
    value: &Value,
    given: Severed,
    so_far: Severed,
) -> Result<Severed, JsonFault>
    ensures { Gives (λ s. s) result (one_severed given so_far (view value.now)) }
{
    let (name, kind) = entry(alloc, value, given, so_far)?;
    Ok(so_far.with(name, kind))
}

/// Reads an array of entries with distinct names, each of a member that is given.
pub(crate) fn severed_members(
    alloc: Global,
    value: &Value,
    given: Severed,
) -> Result<Severed, JsonFault>
    ensures { Gives (λ s. s) result (severed_of given (view value.now)) }
{
    let Some(values) = value.as_array() else {
        return flawed(alloc, FlawKind::Field);
    };
    let mut severed = Severed::none();
    for (index, value) in values.iter().enumerate() {
        severed = at_index(alloc, index, one_severed(alloc, value, given, severed))?;
    }
    Ok(severed)
}
