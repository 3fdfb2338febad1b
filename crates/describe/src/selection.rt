//! Which components are selected.

ghost use Rattle.std.specs.Prelude.{◌≡◌, IfOk};
ghost use Rattle.serde_json.specs.View.{view};
ghost use Rattle.describe.specs.ValueData.{number_data, array_data};
ghost use Rattle.describe.specs.CommandData.{selection_data};

use serde_json::Value;
use std::alloc::{AllocError, Global};
use suit_commands::{IndexList, Selection};

fn indices(alloc: Global, list: &IndexList) -> Result<Value, AllocError>
    ensures { IfOk result (λ v. view v ≡ array_data number_data list.now) }
{
    let mut values = Vec::new(alloc);
    for index in list.as_slice() {
        values.push(Value::from(*index))?;
    }
    Ok(Value::from(values))
}

/// Writes the index of a component, `true` for all of them, or an array of indices.
pub(crate) fn selection(alloc: Global, selection: &Selection) -> Result<Value, AllocError>
    ensures { IfOk result (λ v. view v ≡ selection_data selection.now) }
{
    match selection {
        Selection::One(component) => Ok(Value::from(*component)),
        Selection::All => Ok(Value::from(true)),
        Selection::Listed(list) => indices(alloc, list),
    }
}
