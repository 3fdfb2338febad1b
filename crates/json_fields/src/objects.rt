//! Objects.

ghost use Rattle.std.specs.Prelude.{◌≡◌, Option, Result};
ghost use Rattle.serde_json.specs.View.{view};
ghost use Rattle.json_fields.specs.Answers.{Gives};
ghost use Rattle.json_fields.specs.Objects.{object_of, required as said_required};

use crate::values::flawed;
use crate::{FlawKind, JsonFault, at_key};
use serde_json::Value;
use std::alloc::Global;

/// An object whose members are being read.
pub trait Draft {
    ghost use Rattle.json_fields.specs.Objects.{Takes};

    ghost takes: { Takes Self };

    /// Takes the next member. An unknown key is a flaw of its value. After a fault the draft may
    /// hold anything.
    fn take(&mut self, alloc: Global, key: &str, value: &Value) -> Result<(), JsonFault>
        ensures { Gives (λ _. self.new) result (takes self.old key.now (view value.now)) };
}

/// Reads an object's members into a draft, in the bytewise order of their keys. After a fault the
/// draft may hold anything.
pub fn object<D: Draft>(alloc: Global, value: &Value, draft: &mut D) -> Result<(), JsonFault>
    ensures { Gives (λ _. draft.new) result (object_of D.takes draft.old (view value.now)) }
{
    let Some(members) = value.as_object() else {
        return flawed(alloc, FlawKind::Field);
    };
    for (key, member) in members.iter() {
        let key = key.as_str();
        match draft.take(alloc, key, member) {
            Ok(()) => {}
            Err(fault) => return at_key(alloc, key, Err(fault)),
        }
    }
    Ok(())
}

/// A required field of an object, which has this key.
pub fn required<T: Drop>(alloc: Global, key: &str, field: Option<T>) -> Result<T, JsonFault>
    ensures { Gives (λ x. x) result (said_required key.now field) }
{
    match field {
        Some(x) => Ok(x),
        None => at_key(alloc, key, flawed(alloc, FlawKind::Field)),
    }
}
