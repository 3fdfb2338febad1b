//! The state of a running sequence.

ghost use Rattle.path_model.specs.Runs.{entry_state};
ghost use Rattle.std.specs.Prelude.{◌≡◌};
ghost use Rattle.step_machine.specs.Running.{selected_list, state_of};
ghost use Rattle.suit_commands.specs.Selections.{selected_by};
ghost use Rattle.suit_cursor.specs.Lending.{LendsIndex, selection_of};

use suit_cursor::{LentIndices, LentSelection, SliceParams};

/// The selected components that are left, in order.
#[derive(Drop)]
pub(crate) enum Selected<'p> {
    One(u32),
    /// The components from the first number up to the second, which is excluded.
    Range(u32, u32),
    Listed(LentIndices<'p>),
}

/// The parameters in force, the selected components, and soft failure.
#[derive(Drop)]
pub(crate) struct Progress<'p> {
    pub params: SliceParams<'p>,
    pub selected: Selected<'p>,
    pub soft_failure: bool,
}

impl<'p> Selected<'p> {
    /// The components that a command selects, out of `count`.
    pub(crate) fn by(selection: LentSelection<'p>, count: u32) -> Selected<'p>
        ensures { selected_list result ≡ selected_by (selection_of selection.entry) count }
    {
        match selection {
            LentSelection::One(component) => Selected::One(component),
            LentSelection::All => Selected::Range(0, count),
            LentSelection::Listed(list) => Selected::Listed(list),
        }
    }

    /// The same components, lent again.
    pub(crate) fn copy(&mut self) -> Selected<'p>
        ensures copied { result ≡ self.old }
        ensures same { self.new ≡ self.old }
    {
        match self {
            Selected::One(component) => Selected::One(*component),
            Selected::Range(first, end) => Selected::Range(*first, *end),
            Selected::Listed(list) => Selected::Listed(list.copy()),
        }
    }

    /// Takes the next component, or returns `None` at the end.
    pub(crate) fn next(&mut self) -> Option<u32>
        ensures { LendsIndex (selected_list self.old) (selected_list self.new) result }
    {
        match self {
            Selected::One(component) => {
                let component = *component;
                *self = Selected::Range(0, 0);
                Some(component)
            }
            Selected::Range(first, end) => {
                if *first < *end {
                    let component = *first;
                    *first = component + 1;
                    Some(component)
                } else {
                    None
                }
            }
            Selected::Listed(list) => list.next(),
        }
    }
}

impl<'p> Progress<'p> {
    /// Begins an inner sequence, with one component selected. Returns the state of the outer one.
    pub(crate) fn enter(&mut self, component: u32, soft_failure: bool) -> Progress<'p>
        ensures outer { result ≡ self.old }
        ensures inner { state_of self.new ≡ entry_state (state_of self.old) component soft_failure }
    {
        let selected = self.selected.copy();
        self.selected = Selected::One(component);
        let outer_soft_failure = self.soft_failure;
        self.soft_failure = soft_failure;
        Progress {
            params: self.params.copy(),
            selected,
            soft_failure: outer_soft_failure,
        }
    }

    /// Goes on with the outer sequence after an inner one that completed. The parameters of the inner one stay in
    /// force.
    pub(crate) fn leave(&mut self, outer: &mut Progress<'p>)
        ensures { self.new ≡ record outer.old { params = self.old.params } }
    {
        self.selected = outer.selected.copy();
        self.soft_failure = outer.soft_failure;
    }
}
