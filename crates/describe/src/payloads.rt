//! Integrated payloads.

ghost use Rattle.std.specs.Prelude.{◌≡◌, IfOk, option_map, map};
ghost use Rattle.serde_json.specs.View.{view};
ghost use Rattle.suit_envelope.specs.PayloadListing.{said_payload};
ghost use Rattle.describe.specs.PayloadData.{payload_data, payloads_data};

use crate::values::{hex_value, one_member};
use serde_json::{Map, Value, put};
use std::alloc::{AllocError, Global};
use suit_envelope::KeyedPayload;

// Writes `{"hex": HEX}`.
fn payload_value(alloc: Global, content: &[u8]) -> Result<Value, AllocError>
    ensures { IfOk result (λ v. view v ≡ payload_data content.now) }
{
    one_member(alloc, "hex", hex_value(alloc, content)?)
}

/// Writes an object from keys to payloads, or nothing if there are none.
pub(crate) fn payloads_value(
    alloc: Global,
    payloads: &[KeyedPayload<'_>],
) -> Result<Option<Value>, AllocError>
    ensures { IfOk result (λ v. option_map view v ≡ payloads_data (map said_payload payloads.now)) }
{
    if payloads.is_empty() {
        return Ok(None);
    }
    let mut object = Map::new(alloc);
    for payload in payloads {
        let value = payload_value(alloc, payload.content)?;
        put(&mut object, alloc, payload.key, value)?;
    }
    Ok(Some(Value::from(object)))
}
