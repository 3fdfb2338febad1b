//! Identifiers in the description of a component.

ghost use Rattle.serde_json.specs.View.{view};
ghost use Rattle.json_fields.specs.Answers.{Gives};
ghost use Rattle.flash_layout.specs.ComponentFields.{id_of};

use crate::spelling::spell_id;
use json_fields::{FlawKind, HexBytes, JsonFault, array, flawed};
use serde_json::Value;
use std::alloc::Global;
use suit_params::Identifier;

/// Reads an identifier: an array of byte strings, spelled in at most 64 bytes.
pub(crate) fn id(alloc: Global, value: &Value) -> Result<Identifier, JsonFault>
    ensures { Gives (λ id. id) result (id_of (view value.now)) }
{
    let parts = array(alloc, value, &HexBytes)?;
    let id = Identifier::from_vec(parts);
    match spell_id(&id) {
        Ok(_) => Ok(id),
        Err(_) => flawed(alloc, FlawKind::Field),
    }
}
