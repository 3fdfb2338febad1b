//! The stage that reads a JSON text.

ghost use Rattle.suit_cli.specs.Json.{data_or_stop, json_in};
ghost use Rattle.suit_cli.specs.Stages.{Finds};

use crate::reply::{Outcome, Reply, Stop, declined};
use serde_json::Value;
use std::alloc::Global;

/// The value that a file's bytes spell in JSON.
pub(crate) fn json_in(alloc: Global, bytes: &[u8]) -> Result<Value, Stop>
    ensures { Finds (json_in bytes.now) (data_or_stop result) }
{
    match Value::from_slice(alloc, bytes) {
        Ok(value) => Ok(value),
        Err(error) => {
            if error.is_memory() {
                Err(Stop::NoMemory)
            } else {
                Err(declined(Reply::fixed(alloc, Outcome::Refused, "bad json\n")))
            }
        }
    }
}
