//! Arrays.

ghost use Rattle.std.specs.Prelude.{◌≡◌, Result};
ghost use Rattle.serde_json.specs.View.{view};
ghost use Rattle.json_fields.specs.Answers.{Gives};
ghost use Rattle.json_fields.specs.Arrays.{array_of};

use crate::values::{flawed, hex};
use crate::{FlawKind, JsonFault, at_index};
use det_cbor::Bytes;
use serde_json::Value;
use std::alloc::Global;

/// How the elements of an array are read.
pub trait Form {
    type Item: Drop;

    ghost use Rattle.std.specs.Prelude.{Result};
    ghost use Rattle.serde_json.specs.Data.{Data};
    ghost use Rattle.json_fields.specs.declared.flaw.Flaw.{Flaw};

    ghost reads: { Self → Data → Result Self.Item Flaw };

    fn read(&self, alloc: Global, value: &Value) -> Result<Self::Item, JsonFault>
        ensures { Gives (λ x. x) result (reads self.now (view value.now)) };
}

/// Reads an array, each element by the same form.
pub fn array<F: Form>(alloc: Global, value: &Value, form: &F) -> Result<Vec<F::Item>, JsonFault>
    ensures { Gives (λ v. v.items) result (array_of (F.reads form.now) (view value.now)) }
{
    let Some(values) = value.as_array() else {
        return flawed(alloc, FlawKind::Field);
    };
    let mut items = Vec::new(alloc);
    for (index, element) in values.iter().enumerate() {
        let item = at_index(alloc, index, form.read(alloc, element))?;
        if items.push(item).is_err() {
            return Err(JsonFault::NoMemory);
        }
    }
    Ok(items)
}

/// The form of bytes, which are read by `hex`.
#[derive(Drop)]
pub struct HexBytes;

impl Form for HexBytes {
    type Item = Bytes;

    ghost use Rattle.json_fields.specs.Values.{hex_of};

    ghost reads = { λ _ d. hex_of d };

    fn read(&self, alloc: Global, value: &Value) -> Result<Bytes, JsonFault> {
        hex(alloc, value)
    }
}
