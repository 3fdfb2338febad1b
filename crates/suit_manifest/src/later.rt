//! Reading the values that follow the common part in a manifest's map, from items that were judged
//! before.

ghost use Rattle.std.specs.Prelude.{◌≡◌};
ghost use Rattle.suit_params.specs.Answering.{Gives};
ghost use Rattle.suit_manifest.specs.ManifestReading.{later_from};

use crate::common::read_optional;
use crate::manifest_map::LaterValues;
use crate::values::{read_member, read_reference, read_text_member};
use crate::{Member, TextMember};
use det_cbor::Text;
use std::alloc::Global;
use suit_commands::Sequence;
use suit_params::Fault;

/// The optional members.
#[derive(Debug, Drop)]
pub(crate) struct Later {
    pub(crate) reference: Option<Text>,
    pub(crate) validate: Option<Sequence>,
    pub(crate) load: Option<Sequence>,
    pub(crate) invoke: Option<Sequence>,
    pub(crate) payload_fetch: Member,
    pub(crate) install: Member,
    pub(crate) text: TextMember,
}

/// Reads the values in their order. Component indices must be below `count`.
pub(crate) fn read_later(alloc: Global, values: LaterValues<'_>, count: u32) -> Result<Later, Fault>
    ensures { Gives (λ l. l) result (later_from count values.entry) }
{
    Ok(Later {
        reference: read_reference(alloc, values.reference)?,
        validate: read_optional(alloc, values.validate, false, count)?,
        load: read_optional(alloc, values.load, false, count)?,
        invoke: read_optional(alloc, values.invoke, false, count)?,
        payload_fetch: read_member(alloc, values.payload_fetch, count)?,
        install: read_member(alloc, values.install, count)?,
        text: read_text_member(alloc, values.text)?,
    })
}
