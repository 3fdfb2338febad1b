//! Single values.

ghost use Rattle.std.specs.Prelude.{◌≡◌, Err, Result};
ghost use Rattle.serde_json.specs.View.{view};
ghost use Rattle.json_fields.specs.declared.flaw.Flaw.{Flaw};
ghost use Rattle.json_fields.specs.Answers.{Gives};
ghost use Rattle.json_fields.specs.Flaws.{flawed as said_flawed};
ghost use Rattle.json_fields.specs.Values.{number_up_to, flag_of, text_of, hex_of, uuid_of};

use crate::{Flaw, FlawKind, JsonFault};
use det_cbor::{Bytes, Text};
use hex::FromHexError;
use serde_json::Value;
use std::alloc::Global;
use uuid::Uuid;

/// A flaw of the value itself. Allocates nothing.
pub fn flawed<T>(alloc: Global, kind: FlawKind) -> Result<T, JsonFault>
    ensures { Gives (λ x. x) result (said_flawed kind) }
{
    Err(JsonFault::Flawed(Flaw {
        kind,
        pointer: Text::new(alloc),
    }))
}

/// Reads a whole number up to a limit. Allocates nothing.
pub fn number(alloc: Global, value: &Value, limit: u64) -> Result<u64, JsonFault>
    ensures { Gives (λ n. n) result (number_up_to limit (view value.now)) }
{
    match value.as_u64() {
        Some(number) if number <= limit => Ok(number),
        _ => flawed(alloc, FlawKind::Field),
    }
}

/// Reads true or false. Allocates nothing.
pub fn flag(alloc: Global, value: &Value) -> Result<bool, JsonFault>
    ensures { Gives (λ b. b) result (flag_of (view value.now)) }
{
    match value.as_bool() {
        Some(flag) => Ok(flag),
        None => flawed(alloc, FlawKind::Field),
    }
}

/// Reads and copies a text.
pub fn text(alloc: Global, value: &Value) -> Result<Text, JsonFault>
    ensures { Gives (λ t. t) result (text_of (view value.now)) }
{
    match value.as_str() {
        Some(text) => Ok(Text::from_str(alloc, text)?),
        None => flawed(alloc, FlawKind::Field),
    }
}

/// Reads bytes from a text of two hexadecimal digits each, in either case.
pub fn hex(alloc: Global, value: &Value) -> Result<Bytes, JsonFault>
    ensures { Gives (λ b. b) result (hex_of (view value.now)) }
{
    match value.as_str() {
        Some(text) => match hex::decode(alloc, text) {
            Ok(bytes) => Ok(Bytes::from_vec(bytes)),
            Err(FromHexError::OutOfMemory) => Err(JsonFault::NoMemory),
            Err(_) => flawed(alloc, FlawKind::Hex),
        },
        None => flawed(alloc, FlawKind::Field),
    }
}

/// Reads the bytes of a UUID (RFC 9562): 32 hexadecimal digits, plain, hyphenated, in braces, or
/// after `urn:uuid:`. Allocates nothing.
pub fn uuid(alloc: Global, value: &Value) -> Result<[u8; 16], JsonFault>
    ensures { Gives (λ b. b) result (uuid_of (view value.now)) }
{
    match value.as_str() {
        Some(text) => match Uuid::parse_str(text) {
            Ok(id) => Ok(id.into_bytes()),
            Err(_) => flawed(alloc, FlawKind::Uuid),
        },
        None => flawed(alloc, FlawKind::Field),
    }
}
