//! Descriptions.

ghost use Rattle.std.specs.Prelude.{◌≡◌};
ghost use Rattle.serde_json.specs.View.{view};
ghost use Rattle.author.specs.Faults.{IsDescription};
ghost use Rattle.author.specs.FileNames.{file_names};

use det_cbor::Names;
use serde_json::Value;

/// A description of an envelope, as it was accepted.
#[derive(Drop)]
pub struct Description {
    pub(crate) value: Value,
    pub(crate) names: Names,
    ghost accepted: { ∥ IsDescription (view value) ∥₁ },
    ghost named: { names ≡ file_names (view value) },
}

impl Description {
    ghost use Rattle.author.specs.Held.{value_of};

    /// The names of the files in the description, each once, in the order in which they are read.
    pub fn files(&self) -> &Names
        ensures { result.now ≡ file_names (value_of self.now) }
    {
        &self.names
    }
}
