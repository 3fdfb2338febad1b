//! Component identifiers in a description.

ghost use Rattle.std.specs.Prelude.{◌≡◌, ◌++◌, List, IfOk, OnOk};
ghost use Rattle.det_cbor.specs.DataItem.{spell, spell_items, ByteString};
ghost use Rattle.det_cbor.specs.Heads.{head_bytes};
ghost use Rattle.serde_json.specs.View.{view};
ghost use Rattle.json_fields.specs.Answers.{Gives};
ghost use Rattle.suit_manifest.specs.Components.{identifier_item, string_items};
ghost use Rattle.author.specs.Identifiers.{identifiers_of};

use det_cbor::{Bytes, push_count, push_string};
use json_fields::{FlawKind, Form, HexBytes, JsonFault, array, flawed};
use serde_json::Value;
use std::alloc::{AllocError, Global};
use suit_params::{Identifier, Identifiers};

// Appends byte strings as CBOR items.
fn push_strings(out: &mut Bytes, parts: &[Bytes]) -> Result<(), AllocError>
    ensures { OnOk result (out.new ≡ out.old ++ spell_items (string_items parts.now)) }
{
    for part in parts {
        push_string(out, part.as_slice())?;
    }
    Ok(())
}

// Spells an identifier as a manifest does.
#[tactic(auto, using(crate::proofs::Counts::counted_strings))]
fn spelling(alloc: Global, identifier: &Identifier) -> Result<Bytes, AllocError>
    ensures { IfOk result (λ bytes. bytes ≡ spell (identifier_item identifier.now)) }
{
    let parts = identifier.as_slice();
    let mut out = Bytes::new(alloc);
    push_count(&mut out, parts.len() as u64)?;
    push_strings(&mut out, parts)?;
    Ok(out)
}

// An array of byte strings that a manifest spells in at most 64 bytes.
#[derive(Drop)]
struct OneIdentifier;

impl Form for OneIdentifier {
    type Item = Identifier;

    ghost use Rattle.author.specs.Identifiers.{identifier_of};

    ghost reads = { λ _ d. identifier_of d };

    fn read(&self, alloc: Global, value: &Value) -> Result<Identifier, JsonFault> {
        let parts = array(alloc, value, &HexBytes)?;
        let identifier = Identifier::from_vec(parts);
        if spelling(alloc, &identifier)?.len() <= 64 {
            Ok(identifier)
        } else {
            flawed(alloc, FlawKind::Field)
        }
    }
}

/// Reads an array of at least one identifier.
pub(crate) fn identifiers(alloc: Global, value: &Value) -> Result<Identifiers, JsonFault>
    ensures { Gives (λ ids. ids) result (identifiers_of (view value.now)) }
{
    let ids = array(alloc, value, &OneIdentifier)?;
    if ids.len() >= 1 {
        Ok(Identifiers::from_vec(ids))
    } else {
        flawed(alloc, FlawKind::Field)
    }
}
