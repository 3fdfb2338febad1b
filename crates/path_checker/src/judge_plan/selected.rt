//! The selected components.

ghost use Rattle.std.specs.Prelude.{◌≡◌, ◌<◌, ◌≤◌, [], ◌∷◌, IsTrue, IfOk, IfSome, length, get_or};
ghost use Rattle.std.specs.List.{range_with_len};
ghost use Rattle.suit_commands.specs.Selections.{selected_by};
ghost use Rattle.path_checker.specs.Selecting.{components_of};
ghost use Rattle.path_checker.specs.Small.{AreSmall, SelectsSmall};

use std::alloc::{AllocError, Global};
use std::marker::Model;
use suit_commands::Selection;

/// Some of the components: one, the first few, or those that a command lists.
#[derive(Clone, Copy, Debug)]
pub(crate) enum Components<'a> {
    One(u32),
    First(u32),
    Listed(&'a [u32]),
}

/// The selected components, in order, each of them below 8. Does not allocate.
#[derive(Debug, Drop)]
pub(crate) struct Selected<'a> {
    held: Components<'a>,
}

impl<'a> Model for Selected<'a> {
    ghost use Rattle.std.specs.Prelude.{List, ℕ};

    ghost Value = { List ℕ };

    ghost use Rattle.path_checker.specs.Selecting.{components_of};

    ghost view = { λ a. components_of a.held };

    ghost use Rattle.path_checker.specs.Small.{AreSmall};

    ghost invariant = { λ a. AreSmall (components_of a.held) };
}

// The numbers below a count, ascending.
fn numbers(alloc: Global, count: u32) -> Result<Vec<u32>, AllocError>
    ensures { IfOk result (λ held. held.items ≡ range_with_len 0 count) }
{
    let mut held = Vec::new(alloc);
    for component in 0..count {
        held.push(component)?;
    }
    Ok(held)
}

/// The components, in a new list.
pub(crate) fn listed(alloc: Global, held: Components<'_>) -> Result<Vec<u32>, AllocError>
    ensures { IfOk result (λ list. list.items ≡ components_of held.entry) }
{
    match held {
        Components::One(component) => Vec::from_slice(alloc, &[component]),
        Components::First(count) => numbers(alloc, count),
        Components::Listed(components) => Vec::from_slice(alloc, components),
    }
}

// Whether both are the same components, in the same order. May be `false` if they are represented differently.
fn same_components(some: &Components<'_>, others: &Components<'_>) -> bool
    ensures { IsTrue result → components_of some.now ≡ components_of others.now }
{
    match (some, others) {
        (Components::One(component), Components::One(other)) => *component == *other,
        (Components::First(count), Components::First(other)) => *count == *other,
        (Components::Listed(components), Components::Listed(other)) => *components == *other,
        _ => false,
    }
}

impl<'a> Selected<'a> {
    /// Selects one component.
    pub(crate) fn one(component: u32) -> Selected<'a>
        requires room { component < 8 }
        ensures { result ≡ component ∷ [] }
    {
        Selected {
            held: Components::One(component),
        }
    }

    /// The components that a command selects, out of `count`.
    pub(crate) fn by(selection: &'a Selection, count: u32) -> Selected<'a>
        requires { SelectsSmall count selection.now }
        ensures { result ≡ selected_by selection.now count }
    {
        match selection {
            Selection::One(component) => Selected::one(*component),
            Selection::All => Selected::first(count),
            Selection::Listed(indices) => Selected {
                held: Components::Listed(indices.as_slice()),
            },
        }
    }

    // Selects the first `count` components.
    fn first(count: u32) -> Selected<'a>
        requires { count ≤ 8 }
        ensures { result ≡ range_with_len 0 count }
    {
        Selected {
            held: Components::First(count),
        }
    }

    pub(crate) fn copy(&self) -> Selected<'a>
        ensures { result ≡ self.now }
    {
        Selected { held: self.held }
    }

    /// Whether the same components are selected, in the same order. May be `false` if they are represented differently.
    pub(crate) fn is_same(&self, other: &Selected<'_>) -> bool
        ensures { IsTrue result → self.now ≡ other.now }
    {
        same_components(&self.held, &other.held)
    }

    /// How the selection is represented.
    pub(crate) fn components(&self) -> Components<'a>
        ensures { components_of result ≡ self.now }
    {
        self.held
    }

    /// The selected component, if there is just one.
    pub(crate) fn sole(&self) -> Option<u32>
        ensures sole { IfSome result (λ component. self.now ≡ component ∷ []) }
        ensures small { IfSome result (λ component. component < 8) }
    {
        match self.held {
            Components::One(component) => Some(component),
            Components::First(1) => Some(0),
            Components::Listed([component]) => Some(*component),
            _ => None,
        }
    }

    /// How many are selected.
    pub(crate) fn len(&self) -> usize
        ensures { result ≡ length self.now }
    {
        match self.held {
            Components::One(_) => 1,
            Components::First(count) => count as usize,
            Components::Listed(components) => components.len(),
        }
    }

    /// The selected component at an index.
    pub(crate) fn at(&self, index: usize) -> u32
        requires within { index < length self.now }
        ensures value { result ≡ get_or self.now index result }
        ensures small { result < 8 }
    {
        match self.held {
            Components::One(component) => component,
            Components::First(_count) => index as u32,
            Components::Listed(components) => match components.get(index) {
                Some(component) => *component,
                None => 0,
            },
        }
    }

    /// The selected components, in a new list.
    pub(crate) fn listed(&self, alloc: Global) -> Result<Vec<u32>, AllocError>
        ensures value { IfOk result (λ held. held.items ≡ self.now) }
        ensures small { IfOk result (λ held. AreSmall held.items) }
    {
        listed(alloc, self.held)
    }
}
