//! The argument of the command `index`.

ghost use Rattle.std.specs.Prelude.{◌≡◌};
ghost use Rattle.serde_json.specs.View.{view};
ghost use Rattle.json_fields.specs.Answers.{Gives};
ghost use Rattle.author.specs.Elements.{items_in};
ghost use Rattle.author.specs.Selections.{is_list, selection_of};

use crate::elements::elements;
use crate::param_fields::index;
use json_fields::{Form, JsonFault, array};
use serde_json::Value;
use std::alloc::Global;
use suit_commands::{IndexList, Selection};

// The index of a component, below a count.
#[derive(Drop)]
struct IndexBelow {
    count: u32,
}

impl Form for IndexBelow {
    type Item = u32;

    ghost use Rattle.author.specs.ParamValues.{index_of};

    ghost reads = { λ form d. index_of form.count d };

    fn read(&self, alloc: Global, value: &Value) -> Result<u32, JsonFault> {
        index(alloc, value, self.count)
    }
}

// Whether a value is an array of at least one element.
fn is_list(value: &Value) -> bool
    ensures { result ≡ is_list (items_in (view value.now)) }
{
    !elements(value).is_empty()
}

/// Reads which components a command selects, out of `count`.
pub(crate) fn selection(alloc: Global, value: &Value, count: u32) -> Result<Selection, JsonFault>
    ensures { Gives (λ s. s) result (selection_of count (view value.now)) }
{
    if value.as_bool().unwrap_or(false) {
        return Ok(Selection::All);
    }
    if is_list(value) {
        let indices = array(alloc, value, &IndexBelow { count })?;
        Ok(Selection::Listed(IndexList::from_vec(indices)))
    } else {
        Ok(Selection::One(index(alloc, value, count)?))
    }
}
