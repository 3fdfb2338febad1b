//! Descriptions without the contents of their severed members.

ghost use Rattle.std.specs.Prelude.{◌≡◌};
ghost use Rattle.serde_json.specs.View.{view};
ghost use Rattle.json_fields.specs.Answers.{Gives};
ghost use Rattle.author.specs.Bare.{no_content, described_bare};

use crate::FileList;
use crate::fields::{Described, Fields, no_fields};
use crate::severing::Severed;
use json_fields::{Draft, JsonFault, object};
use serde_json::Value;
use std::alloc::Global;
use suit_envelope::string_digest;
use suit_manifest::Member;
use suit_params::DigestKind;

/// The fields that have been read, and which members are severed.
#[derive(Drop)]
struct BareFields<'a> {
    fields: Fields<'a>,
    severed: Severed,
}

// The digest of no bytes, in place of a member's content.
fn no_content(kind: DigestKind) -> Member
    ensures { result ≡ no_content kind }
{
    Member::Apart(string_digest(kind, &[]))
}

impl Draft for BareFields<'_> {
    ghost use Rattle.author.specs.Bare.{takes_bare};

    ghost takes = { takes_bare };

    fn take(&mut self, alloc: Global, key: &str, value: &Value) -> Result<(), JsonFault> {
        if value.is_object() {
            self.fields.take(alloc, key, value)
        } else if key == "payload-fetch" && self.severed.payload_fetch {
            self.fields.payload_fetch = no_content(self.severed.kinds.payload_fetch);
            Ok(())
        } else if key == "install" && self.severed.install {
            self.fields.install = no_content(self.severed.kinds.install);
            Ok(())
        } else {
            self.fields.take(alloc, key, value)
        }
    }
}

/// Reads a description's parts without the contents of its severed members, which may be too long to read.
pub(crate) fn read_bare<'a>(
    alloc: Global,
    value: &Value,
    files: &'a FileList,
    severed: Severed,
) -> Result<Described<'a>, JsonFault>
    ensures { Gives (λ p. p) result (described_bare files.now severed (view value.now)) }
{
    let mut bare = BareFields {
        fields: no_fields(alloc, value, files),
        severed,
    };
    object(alloc, value, &mut bare)?;
    Described::of(alloc, bare.fields)
}
