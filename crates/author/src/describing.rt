//! Reads JSON values as descriptions.

ghost use Rattle.std.specs.Prelude.{IfOk, IfErr, MatchResult};
ghost use Rattle.serde_json.specs.View.{view};
ghost use Rattle.author.specs.declared.fault.DescriptionFault.{DescriptionFault};
ghost use Rattle.author.specs.Faults.{AreFewAndApart, RefusesComponents, IsDescription, RefusesDescription, IsFaultOf, IsAccepted, IsRefusedFor};
ghost use Rattle.author.specs.Held.{IsDescriptionOf};

use crate::fields::Described;
use crate::file_names::file_names;
use crate::{Description, DescriptionFault, FileList};
use serde_json::Value;
use std::alloc::Global;
use suit_params::{Identifiers, first_alike};

// Refuses more than eight components, and then two with the same identifier.
fn judge_components(components: &Identifiers) -> Result<(), DescriptionFault>
    ensures { MatchResult result (λ _. AreFewAndApart components.now)
        (RefusesComponents components.now) }
{
    if components.len() > 8 {
        return Err(DescriptionFault::TooMany(components.len() as u64));
    }
    match first_alike(components.as_slice()) {
        Some((first, second)) => Err(DescriptionFault::TwoAlike { first, second }),
        None => Ok(()),
    }
}

// Reads and judges a value whose files are all empty. The judgement is the same for all contents of the files.
fn judged(alloc: Global, value: &Value) -> Result<(), DescriptionFault>
    ensures { MatchResult result (λ _. IsDescription (view value.now))
        (IsFaultOf (view value.now)) }
{
    let none = FileList::new(alloc);
    let parts = Described::read(alloc, value, &none)?;
    judge_components(&parts.manifest.components)
}

// Does the work of `description`.
fn read_description(alloc: Global, value: &Value) -> Result<Description, DescriptionFault>
    ensures ok { IfOk result (IsDescriptionOf (view value.now)) }
    ensures refused { IfErr result (IsFaultOf (view value.now)) }
{
    judged(alloc, value)?;
    let names = file_names(alloc, value)?;
    let value = value.clone()?;
    Ok(Description { value, names })
}

/// Reads a JSON value as a description. The value is copied.
///
/// The members of an object are judged in the order of their keys' bytes and the elements of an array by index, each
/// value whole before the next, and then missing fields. After all fields come the number of components, and whether
/// two are alike. The error tells the first fault.
pub fn description(alloc: Global, value: &Value) -> Result<Description, DescriptionFault>
    ensures ok { IfOk result (IsDescriptionOf (view value.now)) }
    ensures refused { IfErr result (IsFaultOf (view value.now)) }
    ensures every_description { IsDescription (view value.now) → IsAccepted result }
    ensures every_fault { (fault : DescriptionFault) → RefusesDescription (view value.now) fault
        → IsRefusedFor fault result }
{
    read_description(alloc, value)
}
