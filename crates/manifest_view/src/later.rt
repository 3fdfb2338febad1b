//! The values that follow the common part in a manifest's map, borrowed from items that were judged
//! before.

ghost use Rattle.std.specs.Prelude.{◌≡◌};
ghost use Rattle.det_cbor.specs.HeadReading.{map_ok};
ghost use Rattle.suit_manifest.specs.ManifestReading.{later_from};
ghost use Rattle.manifest_view.specs.Views.{lent_text, member_of, text_of};

use crate::values::{lend_member, lend_optional, lend_reference, lend_text_member};
use crate::{MemberView, TextView};
use det_cbor::Cursor;
use suit_cursor::LentSequence;
use suit_manifest::LaterValues;
use suit_params::Refusal;

/// The optional members.
#[derive(Drop)]
pub(crate) struct Later<'a> {
    pub(crate) reference: Option<&'a str>,
    pub(crate) validate: Option<LentSequence<'a>>,
    pub(crate) load: Option<LentSequence<'a>>,
    pub(crate) invoke: Option<LentSequence<'a>>,
    pub(crate) payload_fetch: MemberView<'a>,
    pub(crate) install: MemberView<'a>,
    pub(crate) text: TextView<'a>,
}

/// Borrows the values in their order. Component indices must be below `count`.
pub(crate) fn lend_later<'a>(values: LaterValues<'a>, count: u32) -> Result<Later<'a>, Refusal>
    ensures { later_from count values.entry
        ≡ map_ok (λ l. record {
          reference = lent_text l.reference;
          validate = l.validate;
          load = l.load;
          invoke = l.invoke;
          payload_fetch = member_of l.payload_fetch;
          install = member_of l.install;
          text = text_of l.text;
        }) result }
{
    Ok(Later {
        reference: lend_reference(values.reference)?,
        validate: lend_optional(values.validate, false, count)?,
        load: lend_optional(values.load, false, count)?,
        invoke: lend_optional(values.invoke, false, count)?,
        payload_fetch: lend_member(values.payload_fetch, count)?,
        install: lend_member(values.install, count)?,
        text: lend_text_member(values.text)?,
    })
}
