//! Where the layout has the components of a manifest that is lent.

ghost use Rattle.std.specs.Prelude.{◌≡◌, ◌↔◌, ◌≤◌, ◌<◌, [], get_or, length, IfErr, IfOk, IsTrue, MatchOption};
ghost use Rattle.flash_layout.specs.Placement.{ArePlaces, HasPlace, HaveOtherPlaces, IsFirstUnknown, IsUnknown};

use flash_layout::{Entry, Layout, MAX_COMPONENTS, MOST_ENTRIES, Places, Unknown};
use manifest_view::{LentIdentifier, LentIdentifiers};
use suit_params::Identifier;

// Whether the lent identifier is this one.
fn is_lent(identifier: &Identifier, mut lent: LentIdentifier<'_>) -> bool
    ensures { IsTrue result ↔ (identifier.now ≡ lent.entry) }
{
    for part in identifier.as_slice() {
        match lent.next() {
            Some(found) => {
                if found != part.as_slice() {
                    return false;
                }
            }
            None => return false,
        }
    }
    lent.next().is_none()
}

// The index of the component in the layout whose identifier is the next one lent, if there is one.
fn find_next(entries: &[Entry], ids: &mut LentIdentifiers<'_>) -> Option<usize>
    requires { 0 < length ids.old }
    ensures found { MatchOption result (IsUnknown entries.now (get_or ids.old 0 []))
        (HasPlace entries.now (get_or ids.old 0 [])) }
    ensures same { ids.new ≡ ids.old }
{
    for i in 0..entries.len() {
        let mut again = ids.copy();
        let next = again.next().unwrap();
        if is_lent(&entries[i].identifier, next) {
            return Some(i);
        }
    }
    None
}

/// Finds the components of a manifest in the layout. The error has the first one that the layout lacks. Does not
/// allocate.
pub(crate) fn places_lent(layout: &Layout, mut ids: LentIdentifiers<'_>) -> Result<Places, Unknown>
    requires entries { length layout.now ≤ MOST_ENTRIES }
    requires components { length ids ≤ MAX_COMPONENTS }
    ensures ok { IfOk result (ArePlaces layout.now ids.entry) }
    ensures other { IfOk result (HaveOtherPlaces ids.entry) }
    ensures unknown { IfErr result (λ u. IsFirstUnknown layout.now ids.entry u.component) }
{
    let entries = layout.as_slice();
    let count = ids.len() as usize;
    let mut layout_index = [0u32; MAX_COMPONENTS];
    for k in 0..count {
        match find_next(entries, &mut ids) {
            Some(i) => layout_index[k] = i as u32,
            None => return Err(Unknown {
                component: k as u32,
            }),
        }
        ids.next();
    }
    Ok(Places {
        count: count as u32,
        layout_index,
    })
}
