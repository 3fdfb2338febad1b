//! Component identifiers.

ghost use Rattle.std.specs.Prelude.{◌≡◌, IfOk};
ghost use Rattle.serde_json.specs.View.{view};
ghost use Rattle.describe.specs.ValueData.{identifier_data, identifiers_data};

use crate::values::hex_value;
use serde_json::Value;
use std::alloc::{AllocError, Global};
use suit_params::{Identifier, Identifiers};

fn identifier(alloc: Global, identifier: &Identifier) -> Result<Value, AllocError>
    ensures { IfOk result (λ v. view v ≡ identifier_data identifier.now) }
{
    let mut values = Vec::new(alloc);
    for part in identifier.as_slice() {
        values.push(hex_value(alloc, part.as_slice())?)?;
    }
    Ok(Value::from(values))
}

/// Writes an array of identifiers, each an array of byte strings.
pub(crate) fn identifiers(alloc: Global, identifiers: &Identifiers) -> Result<Value, AllocError>
    ensures { IfOk result (λ v. view v ≡ identifiers_data identifiers.now) }
{
    let mut values = Vec::new(alloc);
    for id in identifiers.as_slice() {
        values.push(identifier(alloc, id)?)?;
    }
    Ok(Value::from(values))
}
