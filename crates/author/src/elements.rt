//! The elements of a value.

ghost use Rattle.std.specs.Prelude.{◌≡◌, option_map};
ghost use Rattle.serde_json.specs.View.{view, items_view};
ghost use Rattle.author.specs.Elements.{items_in, pair_in};

use serde_json::Value;

/// The elements of an array, or none for any other value.
pub(crate) fn elements(value: &Value) -> &[Value]
    ensures { items_view result.now ≡ items_in (view value.now) }
{
    match value.as_array() {
        Some(values) => values.as_slice(),
        None => &[],
    }
}

/// The elements of an array of exactly two.
pub(crate) fn pair(value: &Value) -> Option<(&Value, &Value)>
    ensures { option_map (λ p. (view p.0.now, view p.1.now)) result
        ≡ pair_in (items_in (view value.now)) }
{
    let values = elements(value);
    if values.len() == 2 {
        Some((&values[0], &values[1]))
    } else {
        None
    }
}
