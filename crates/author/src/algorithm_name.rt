//! Names of hash functions.

ghost use Rattle.std.specs.Prelude.{◌≡◌};
ghost use Rattle.serde_json.specs.View.{view};
ghost use Rattle.json_fields.specs.Answers.{Gives};
ghost use Rattle.author.specs.AlgorithmNames.{algorithm_named, algorithm_of};

use json_fields::{FlawKind, JsonFault, flawed};
use serde_json::Value;
use std::alloc::Global;
use suit_params::DigestKind;

fn algorithm_named(name: &str) -> Option<DigestKind>
    ensures { result ≡ algorithm_named name.now }
{
    match name {
        "sha256" => Some(DigestKind::Sha256),
        "sha384" => Some(DigestKind::Sha384),
        "sha512" => Some(DigestKind::Sha512),
        _ => None,
    }
}

/// Reads the name of a hash function.
pub(crate) fn algorithm(alloc: Global, value: &Value) -> Result<DigestKind, JsonFault>
    ensures { Gives (λ kind. kind) result (algorithm_of (view value.now)) }
{
    let Some(name) = value.as_str() else {
        return flawed(alloc, FlawKind::Field);
    };
    match algorithm_named(name) {
        Some(kind) => Ok(kind),
        None => flawed(alloc, FlawKind::Field),
    }
}
