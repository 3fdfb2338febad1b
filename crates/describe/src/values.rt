//! Single values.

ghost use Rattle.std.specs.Prelude.{◌≡◌, IfOk};
ghost use Rattle.serde_json.specs.View.{view};
ghost use Rattle.describe.specs.ValueData.{hex_data, uuid_data, one_member};

use serde_json::{Map, Value, put};
use std::alloc::{AllocError, Global};
use uuid::Uuid;

/// Writes bytes as a text of two lower-case hexadecimal digits each.
pub(crate) fn hex_value(alloc: Global, bytes: &[u8]) -> Result<Value, AllocError>
    ensures { IfOk result (λ v. view v ≡ hex_data bytes.now) }
{
    Ok(Value::from(hex::encode(alloc, bytes)?))
}

/// Writes a UUID (RFC 9562) as a text with hyphens and lower-case digits.
pub(crate) fn uuid_value(alloc: Global, id: [u8; 16]) -> Result<Value, AllocError>
    ensures { IfOk result (λ v. view v ≡ uuid_data id) }
{
    let mut buffer = Uuid::encode_buffer();
    let text = Uuid::from_bytes(id).hyphenated().encode_lower(&mut buffer);
    Value::try_from_str(alloc, text)
}

/// An object with one member.
pub(crate) fn one_member(alloc: Global, key: &str, value: Value) -> Result<Value, AllocError>
    ensures { IfOk result (λ v. view v ≡ one_member key.now (view value)) }
{
    let mut map = Map::new(alloc);
    put(&mut map, alloc, key, value)?;
    Ok(Value::from(map))
}
