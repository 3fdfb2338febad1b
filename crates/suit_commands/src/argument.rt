//! Reading the arguments of commands that hold no sequence, from items that were judged before.

ghost use Rattle.std.specs.Prelude.{◌≡◌};
ghost use Rattle.det_cbor.specs.HeadReading.{map_ok};
ghost use Rattle.suit_params.specs.Answering.{Gives};
ghost use Rattle.suit_params.specs.ParamJudging.{judge_index};
ghost use Rattle.suit_params.specs.ParamReading.{next_params};
ghost use Rattle.suit_commands.specs.SequenceReading.{report_from, element_from, indices_from, selection_from, override_from};

use crate::scope::Scope;
use crate::{IndexList, Selection};
use det_cbor::{Cursor, HeadKind};
use std::alloc::Global;
use suit_params::{
    Fault, ParamList, Refusal, Why, component_index, params_of, read_head, read_item, read_kind,
    refused, same_place,
};

/// Reads a reporting policy (draft-ietf-suit-manifest-25, section 8.4.7), from an item that was
/// judged before.
#[tactic(auto, unfolding(crate::specs::SequenceReading::report_from))]
pub fn read_report(cursor: &mut Cursor<'_>) -> Result<u8, Refusal>
    ensures { map_ok (λ n. (n, cursor.new)) result ≡ report_from cursor.old }
{
    let place = cursor.place();
    let report = read_kind(cursor, HeadKind::Unsigned, Why::BadArgument)?;
    if report < 16 {
        Ok(report as u8)
    } else {
        refused(place, Why::BadArgument)
    }
}

/// Reads an element of a list of component indices, which must be below `count`. `list` is the
/// place of the list.
#[tactic(auto, unfolding(crate::specs::SequenceReading::element_from))]
pub fn read_element(cursor: &mut Cursor<'_>, list: u64, count: u32) -> Result<u32, Refusal>
    ensures { map_ok (λ i. (i, cursor.new)) result ≡ element_from count list cursor.old }
{
    let place = cursor.place();
    let head = read_head(cursor)?;
    match head.kind {
        HeadKind::Unsigned => component_index(place, head.value, count),
        _ => refused(list, Why::BadArgument),
    }
}

// Reads `elements` elements of the list whose place is `list`.
fn read_indices(
    cursor: &mut Cursor<'_>,
    list: u64,
    elements: u64,
    scope: Scope,
) -> Result<IndexList, Fault>
    ensures { Gives (λ is. (is, cursor.new)) result
        (indices_from scope.count list elements cursor.old) }
{
    let mut indices = IndexList::new(scope.alloc);
    for _ in 0..elements {
        let index = read_element(cursor, list, scope.count)?;
        indices.push(index)?;
    }
    Ok(indices)
}

/// Reads the argument of a set component index.
#[tactic(auto, unfolding(crate::specs::SequenceReading::selection_from))]
pub(crate) fn read_selection(cursor: &mut Cursor<'_>, scope: Scope) -> Result<Selection, Fault>
    ensures { Gives (λ s. (s, cursor.new)) result (selection_from scope.count cursor.old) }
{
    let place = cursor.place();
    let head = read_head(cursor)?;
    match head.kind {
        HeadKind::Unsigned => Ok(Selection::One(component_index(place, head.value, scope.count)?)),
        HeadKind::Bool => {
            if head.value == 1 {
                Ok(Selection::All)
            } else {
                Ok(refused(place, Why::BadArgument)?)
            }
        }
        HeadKind::Array => {
            if head.value == 0 {
                Ok(refused(place, Why::BadArgument)?)
            } else {
                let indices = read_indices(cursor, place, head.value, scope)?;
                Ok(Selection::Listed(indices))
            }
        }
        _ => Ok(refused(place, Why::BadArgument)?),
    }
}

// Reads the next item, which is a map, as parameters.
fn read_map(alloc: Global, cursor: &mut Cursor<'_>, count: u32) -> Result<ParamList, Fault>
    ensures { Gives (λ list. (list, cursor.new)) result (next_params count cursor.old) }
{
    let item = read_item(cursor)?;
    params_of(alloc, item, count)
}

/// Reads the parameters of an override.
#[tactic(auto, unfolding(crate::specs::SequenceReading::override_from))]
pub(crate) fn read_override(cursor: &mut Cursor<'_>, scope: Scope) -> Result<ParamList, Fault>
    ensures { Gives (λ list. (list, cursor.new)) result (override_from scope.count cursor.old) }
{
    let mut ahead = same_place(cursor);
    read_kind(&mut ahead, HeadKind::Map, Why::BadArgument)?;
    read_map(scope.alloc, cursor, scope.count)
}
