//! The descriptions of shapes, as JSON values.

ghost use Rattle.std.specs.Prelude.{◌≡◌, Some, IfOk, IsSome};
ghost use Rattle.serde_json.specs.Read.{read};
ghost use Rattle.serde_json.specs.View.{view};
ghost use Rattle.conformance.specs.Shapes.{shape_data, with_sequence};
ghost use Rattle.conformance.specs.ShapeTexts.{IsTextOf};

use crate::Shape;
use serde_json::Value;
use std::alloc::{AllocError, Global};

const FETCHED: &str = r#"{
    "components": [["00"]],
    "shared": [["set", {"digest": {"file": "img.bin"}, "size": {"file": "img.bin"}}]],
    "install": [["set", {"uri": "img"}], ["fetch", 15]],
    "validate": [["match", 15]],
    "invoke": [["invoke", 15]]
}"#;

const INTEGRATED: &str = r##"{
    "components": [["00"]],
    "shared": [["set", {"digest": {"file": "img.bin"}, "size": {"file": "img.bin"}}]],
    "install": [["set", {"uri": "#img"}], ["fetch", 15]],
    "validate": [["match", 15]],
    "invoke": [["invoke", 15]],
    "payloads": {"#img": {"file": "got.bin"}}
}"##;

const LOADED: &str = r#"{
    "components": [["00"], ["01"]],
    "shared": [
        ["index", true],
        ["set", {"digest": {"file": "img.bin"}, "size": {"file": "img.bin"}}]
    ],
    "install": [["set", {"uri": "img"}], ["fetch", 15]],
    "validate": [["match", 15]],
    "load": [["index", 1], ["set", {"source": 0}], ["copy", 15], ["match", 15]],
    "invoke": [["index", 1], ["invoke", 15]]
}"#;

const FETCHED_IF_OTHER: &str = r#"{
    "components": [["00"]],
    "shared": [["set", {"digest": {"file": "img.bin"}, "size": {"file": "img.bin"}}]],
    "install": [["set", {"uri": "img"}], ["try", [[["match", 15]], [["fetch", 15]]]]],
    "validate": [["match", 15]],
    "invoke": [["invoke", 15]]
}"#;

// Reads the value that a text spells.
fn spelled(alloc: Global, text: &str) -> Result<Value, AllocError>
    requires { IsSome (read text.now) }
    ensures { IfOk result (λ v. read text.now ≡ Some (view v)) }
{
    match Value::from_str(alloc, text) {
        Ok(value) => Ok(value),
        Err(error) if error.is_memory() => Err(AllocError),
        Err(_) => unreachable!(),
    }
}

// Sets the sequence number of a value, if it is an object.
fn with_sequence(alloc: Global, value: Value, sequence: u64) -> Result<Value, AllocError>
    ensures { IfOk result (λ v. view v ≡ with_sequence sequence (view value)) }
{
    match value {
        Value::Object(mut members) => {
            let name = String::from_str(alloc, "sequence")?;
            members.insert(name, Value::from(sequence))?;
            Ok(Value::Object(members))
        }
        other => Ok(other),
    }
}

// The text of a shape's description without its sequence number.
fn text_of(shape: Shape) -> &'static str
    ensures { IsTextOf shape result.now }
{
    match shape {
        Shape::Fetched => FETCHED,
        Shape::Integrated => INTEGRATED,
        Shape::Loaded => LOADED,
        Shape::FetchedIfOther => FETCHED_IF_OTHER,
    }
}

/// The description of a shape, with this sequence number.
pub(crate) fn shape_value(alloc: Global, shape: Shape, sequence: u64) -> Result<Value, AllocError>
    ensures { IfOk result (λ v. view v ≡ shape_data shape sequence) }
{
    let value = spelled(alloc, text_of(shape))?;
    with_sequence(alloc, value, sequence)
}
