//! Names of the algorithms of an authentication block.

ghost use Rattle.std.specs.Prelude.{◌≡◌};
ghost use Rattle.serde_json.specs.View.{view};
ghost use Rattle.json_fields.specs.Answers.{Gives};
ghost use Rattle.author.specs.MacNames.{mac_named, mac_kind_of};

use hmac_mac0::MacKind;
use json_fields::{FlawKind, JsonFault, flawed};
use serde_json::Value;
use std::alloc::Global;

fn mac_named(name: &str) -> Option<MacKind>
    ensures { result ≡ mac_named name.now }
{
    match name {
        "hmac256" => Some(MacKind::Hmac256),
        "hmac512" => Some(MacKind::Hmac512),
        _ => None,
    }
}

/// Reads the name of an algorithm.
pub(crate) fn mac_kind(alloc: Global, value: &Value) -> Result<MacKind, JsonFault>
    ensures { Gives (λ kind. kind) result (mac_kind_of (view value.now)) }
{
    let Some(name) = value.as_str() else {
        return flawed(alloc, FlawKind::Field);
    };
    match mac_named(name) {
        Some(kind) => Ok(kind),
        None => flawed(alloc, FlawKind::Field),
    }
}
