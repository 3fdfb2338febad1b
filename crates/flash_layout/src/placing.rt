//! Finding a manifest's components in a layout.

ghost use Rattle.std.specs.Prelude.{◌≤◌, length, IfOk, IfErr, MatchOption};
ghost use Rattle.flash_layout.specs.Placement.{ArePlaces, HasPlace, HaveOtherPlaces, IsFirstUnknown, IsUnknown};

use crate::frame::MOST_ENTRIES;
use crate::place::MAX_COMPONENTS;
use crate::{Entry, Layout, Places, Unknown};
use suit_params::{Identifier, Identifiers};

// The index of the component with this identifier.
fn find(entries: &[Entry], identifier: &Identifier) -> Option<usize>
    ensures { MatchOption result (IsUnknown entries.now identifier.now)
        (HasPlace entries.now identifier.now) }
{
    for i in 0..entries.len() {
        if entries[i].identifier.is_same(identifier) {
            return Some(i);
        }
    }
    None
}

/// Finds a manifest's components in a layout, or else the first one that the layout does not have.
pub fn places(layout: &Layout, components: &Identifiers) -> Result<Places, Unknown>
    requires entries { length layout.now ≤ MOST_ENTRIES }
    requires components { length components.now ≤ MAX_COMPONENTS }
    ensures ok { IfOk result (ArePlaces layout.now components.now) }
    ensures other { IfOk result (HaveOtherPlaces components.now) }
    ensures unknown { IfErr result (λ u. IsFirstUnknown layout.now components.now u.component) }
{
    let entries = layout.as_slice();
    let ids = components.as_slice();
    let mut layout_index = [0u32; MAX_COMPONENTS];
    for k in 0..ids.len() {
        match find(entries, &ids[k]) {
            Some(i) => layout_index[k] = i as u32,
            None => return Err(Unknown {
                component: k as u32,
            }),
        }
    }
    Ok(Places {
        count: ids.len() as u32,
        layout_index,
    })
}
