//! The place of a part in the whole (RFC 6901).

ghost use Rattle.std.specs.Prelude.{◌≡◌, ◌++◌, Result, IfOk, string_bytes};
ghost use Rattle.json_fields.specs.declared.flaw.Flaw.{Flaw};
ghost use Rattle.json_fields.specs.Answers.{Gives};
ghost use Rattle.json_fields.specs.Flaws.{under};
ghost use Rattle.json_fields.specs.Pointers.{escape, key_token, index_token, step_token};

use crate::{Flaw, JsonFault};
use det_cbor::Text;
use std::alloc::{AllocError, Global};

// A name as it appears in a pointer, without the slash before it.
fn escaped(alloc: Global, key: &str) -> Result<String, AllocError>
    ensures { IfOk result (λ s. string_bytes s ≡ escape key.now) }
{
    let mut bytes = Vec::new(alloc);
    for byte in key.as_bytes() {
        match *byte {
            b'~' => bytes.extend_from_slice(b"~0")?,
            b'/' => bytes.extend_from_slice(b"~1")?,
            other => bytes.push(other)?,
        }
    }
    match String::from_utf8(bytes) {
        Ok(text) => Ok(text),
        Err(_) => unreachable!(),
    }
}

// A step from a value to one of its parts.
#[derive(Clone, Copy)]
enum Step<'a> {
    Key(&'a str),
    Index(usize),
}

// Puts a step in front of a pointer.
fn step_below(alloc: Global, step: Step<'_>, pointer: &Text) -> Result<Text, AllocError>
    ensures { IfOk result (λ p. p ≡ step_token step.entry ++ pointer.now) }
{
    let below = pointer.as_str();
    match step {
        Step::Key(key) => {
            let name = escaped(alloc, key)?;
            Ok(Text::from_string(format!(in alloc; "/{name}{below}")?))
        }
        Step::Index(index) => Ok(Text::from_string(format!(in alloc; "/{index}{below}")?)),
    }
}

// Passes on what was read of a part, with the place of a flaw counted from the whole.
fn at_step<T>(alloc: Global, step: Step<'_>, read: Result<T, JsonFault>) -> Result<T, JsonFault>
    ensures { (said : Result T Flaw) → Gives (λ x. x) read said
        → Gives (λ x. x) result (under (step_token step.entry) said) }
{
    match read {
        Ok(x) => Ok(x),
        Err(JsonFault::NoMemory) => Err(JsonFault::NoMemory),
        Err(JsonFault::Flawed(flaw)) => match step_below(alloc, step, &flaw.pointer) {
            Ok(pointer) => Err(JsonFault::Flawed(Flaw {
                kind: flaw.kind,
                pointer,
            })),
            Err(_) => Err(JsonFault::NoMemory),
        },
    }
}

/// Passes on what was read of a member, with the place of a flaw counted from the object.
pub fn at_key<T>(alloc: Global, key: &str, read: Result<T, JsonFault>) -> Result<T, JsonFault>
    ensures { (said : Result T Flaw) → Gives (λ x. x) read said
        → Gives (λ x. x) result (under (key_token key.now) said) }
{
    at_step(alloc, Step::Key(key), read)
}

/// Passes on what was read of an element, with the place of a flaw counted from the array.
pub fn at_index<T>(alloc: Global, index: usize, read: Result<T, JsonFault>) -> Result<T, JsonFault>
    ensures { (said : Result T Flaw) → Gives (λ x. x) read said
        → Gives (λ x. x) result (under (index_token index) said) }
{
    at_step(alloc, Step::Index(index), read)
}
