//! The fields of a description.

ghost use Rattle.std.specs.Prelude.{◌≡◌};
ghost use Rattle.serde_json.specs.View.{view};
ghost use Rattle.json_fields.specs.Answers.{Gives};
ghost use Rattle.author.specs.Descriptions.{count_in, no_fields, scope_of, field_sequence, takes_sequence, takes_member, takes_beside, takes_field, finished, described};

use crate::FileList;
use crate::algorithm_name::algorithm;
use crate::commands::sequence;
use crate::elements::elements;
use crate::identifiers::identifiers;
use crate::mac_name::mac_kind;
use crate::member_fields::{member, text_member};
use crate::param_fields::whole;
use crate::payload_fields::payloads;
use crate::scope::{Scope, Source};
use crate::severing::{Severed, given, severed_members};
use det_cbor::{Bytes, Text};
use hmac_mac0::MacKind;
use json_fields::{Draft, FlawKind, JsonFault, flawed, hex, object, required, text};
use serde_json::Value;
use std::alloc::Global;
use std::mem;
use suit_commands::{MAX_LEVELS, Sequence};
use suit_envelope::PayloadList;
use suit_manifest::{Manifest, Member, TextMember};
use suit_params::{DigestKind, Identifiers};

/// The fields that have been read.
#[derive(Drop)]
pub(crate) struct Fields<'a> {
    source: Source<'a>,
    sequence: Option<u64>,
    components: Option<Identifiers>,
    shared: Option<Sequence>,
    reference: Option<Text>,
    validate: Option<Sequence>,
    load: Option<Sequence>,
    invoke: Option<Sequence>,
    pub(crate) payload_fetch: Member,
    pub(crate) install: Member,
    text: TextMember,
    severed: Severed,
    payloads: PayloadList<'a>,
    kid: Option<Bytes>,
    mac: MacKind,
    algorithm: DigestKind,
}

impl<'a> Fields<'a> {
    // The scope of the shared sequence or of another one.
    fn scope(&self, shared: bool) -> Scope<'a>
        ensures { result ≡ scope_of self.now shared }
    {
        Scope {
            files: self.source.scope.files,
            shared,
            count: self.source.scope.count,
        }
    }

    fn commands(&self, alloc: Global, value: &Value, shared: bool) -> Result<Sequence, JsonFault>
        ensures { Gives (λ s. s) result (field_sequence self.now shared (view value.now)) }
    {
        sequence(alloc, value, &self.scope(shared), MAX_LEVELS)
    }

    // Takes a sequence that is never severed.
    fn take_sequence(&mut self, alloc: Global, key: &str, value: &Value) -> Result<(), JsonFault>
        ensures { Gives (λ _. self.new) result (takes_sequence self.old key.now (view value.now)) }
    {
        match key {
            "shared" => self.shared = Some(self.commands(alloc, value, true)?),
            "validate" => self.validate = Some(self.commands(alloc, value, false)?),
            "load" => self.load = Some(self.commands(alloc, value, false)?),
            "invoke" => self.invoke = Some(self.commands(alloc, value, false)?),
            _ => return self.take_member(alloc, key, value),
        }
        Ok(())
    }

    // Takes a member that may be severed, or the names of those that are.
    fn take_member(&mut self, alloc: Global, key: &str, value: &Value) -> Result<(), JsonFault>
        ensures { Gives (λ _. self.new) result (takes_member self.old key.now (view value.now)) }
    {
        match key {
            "payload-fetch" => self.payload_fetch = member(alloc, value, &self.scope(false))?,
            "install" => self.install = member(alloc, value, &self.scope(false))?,
            "text" => self.text = text_member(alloc, value)?,
            "sever" => self.severed = severed_members(alloc, value, self.source.given)?,
            _ => return self.take_beside(alloc, key, value),
        }
        Ok(())
    }

    // Takes what is in the envelope besides the manifest.
    fn take_beside(&mut self, alloc: Global, key: &str, value: &Value) -> Result<(), JsonFault>
        ensures { Gives (λ _. self.new) result (takes_beside self.old key.now (view value.now)) }
    {
        match key {
            "payloads" => {
                let list = payloads(alloc, value, self.source.scope.files)?;
                let _none_yet = mem::replace(&mut self.payloads, list);
            }
            "kid" => self.kid = Some(hex(alloc, value)?),
            "mac" => self.mac = mac_kind(alloc, value)?,
            "algorithm" => self.algorithm = algorithm(alloc, value)?,
            _ => return flawed(alloc, FlawKind::Field),
        }
        Ok(())
    }
}

impl Draft for Fields<'_> {
    ghost takes = { takes_field };

    fn take(&mut self, alloc: Global, key: &str, value: &Value) -> Result<(), JsonFault> {
        match key {
            "sequence" => self.sequence = Some(whole(alloc, value)?),
            "components" => {
                self.components.get_or_insert(identifiers(alloc, value)?);
            }
            "reference" => self.reference = Some(text(alloc, value)?),
            _ => return self.take_sequence(alloc, key, value),
        }
        Ok(())
    }
}

// How many component identifiers a description lists.
fn count(description: &Value) -> u32
    ensures { result ≡ count_in (view description.now) }
{
    match description.get("components") {
        Some(components) => {
            let listed = elements(components).len();
            if listed < u32::MAX as usize {
                listed as u32
            } else {
                u32::MAX
            }
        }
        None => 0,
    }
}

/// The parts of a description.
#[derive(Drop)]
pub(crate) struct Described<'a> {
    /// The manifest, with all its members inside.
    pub(crate) manifest: Manifest,
    /// Which of the members are severed.
    pub(crate) severed: Severed,
    /// In the order of the envelope's map.
    pub(crate) payloads: PayloadList<'a>,
    /// The identifier of the key.
    pub(crate) kid: Option<Bytes>,
    /// The algorithm of the block.
    pub(crate) mac: MacKind,
    /// The hash function of the wrapper's digest.
    pub(crate) algorithm: DigestKind,
}

/// The fields before any is read.
pub(crate) fn no_fields<'a>(alloc: Global, description: &Value, files: &'a FileList) -> Fields<'a>
    ensures { result ≡ no_fields files.now (view description.now) }
{
    Fields {
        source: Source {
            scope: Scope {
                files,
                shared: false,
                count: count(description),
            },
            given: given(description),
        },
        sequence: None,
        components: None,
        reference: None,
        shared: None,
        payload_fetch: Member::Empty,
        install: Member::Empty,
        validate: None,
        load: None,
        invoke: None,
        text: TextMember::Empty,
        severed: Severed::none(),
        payloads: PayloadList::new(alloc),
        kid: None,
        mac: MacKind::Hmac256,
        algorithm: DigestKind::Sha256,
    }
}

impl<'a> Described<'a> {
    /// The parts that the fields make. Two of the fields are required.
    pub(crate) fn of(alloc: Global, fields: Fields<'a>) -> Result<Self, JsonFault>
        ensures { Gives (λ p. p) result (finished fields.entry) }
    {
        let components = required(alloc, "components", fields.components)?;
        let sequence = required(alloc, "sequence", fields.sequence)?;
        Ok(Described {
            manifest: Manifest {
                sequence,
                components,
                shared: fields.shared,
                reference: fields.reference,
                validate: fields.validate,
                load: fields.load,
                invoke: fields.invoke,
                payload_fetch: fields.payload_fetch,
                install: fields.install,
                text: fields.text,
            },
            severed: fields.severed,
            payloads: fields.payloads,
            kid: fields.kid,
            mac: fields.mac,
            algorithm: fields.algorithm,
        })
    }

    /// Reads the parts of a description whose files have these bytes.
    pub(crate) fn read(alloc: Global, value: &Value, files: &'a FileList) -> Result<Self, JsonFault>
        ensures { Gives (λ p. p) result (described files.now (view value.now)) }
    {
        let mut fields = no_fields(alloc, value, files);
        object(alloc, value, &mut fields)?;
        Described::of(alloc, fields)
    }
}
