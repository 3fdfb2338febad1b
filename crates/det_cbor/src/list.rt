//! Growable lists.

ghost use Rattle.std.specs.Prelude.{◌≡◌, [], ◌∷◌, ◌++◌, length, OnOk, OnErr, IsTrue, ◌↔◌, IfOk, slice_get};
ghost use Rattle.std.specs.Option.{option_copied};

use crate::{Bytes, Duplicate, Text};
use std::alloc::{AllocError, Global};
use std::marker::Model;

/// A growable list.
#[derive(Debug, Drop)]
pub struct List<T> {
    pub(crate) held: Vec<T>,
}

/// A list of texts, such as the words of a command line.
pub type Names = List<Text>;

fn are_same(a: &[Bytes], b: &[Bytes]) -> bool
    ensures { IsTrue result ↔ (a.now ≡ b.now) }
{
    if a.len() != b.len() {
        return false;
    }
    for i in 0..a.len() {
        if a[i].as_slice() != b[i].as_slice() {
            return false;
        }
    }
    true
}

impl<T> Model for List<T> {
    ghost use Rattle.std.specs.Prelude.{List as ListOf};

    ghost Value = { ListOf T };

    ghost view = { λ list. list.held.items };
}

impl<T: Drop> List<T> {
    /// An empty list; allocates nothing until it grows.
    pub fn new(alloc: Global) -> List<T>
        ensures { result ≡ [] }
    {
        List {
            held: Vec::new(alloc),
        }
    }

    /// Wraps a vector. Allocates and copies nothing.
    pub fn from_vec(elements: Vec<T>) -> List<T>
        ensures { result ≡ elements.items }
    {
        List { held: elements }
    }

    /// Unwraps the vector. Allocates and copies nothing.
    pub fn into_vec(self) -> Vec<T>
        ensures { result.items ≡ self }
    {
        self.held
    }

    /// Appends an element. If memory runs out, the element is dropped.
    pub fn push(&mut self, element: T) -> Result<(), AllocError>
        ensures ok { OnOk result (self.new ≡ self.old ++ element ∷ []) }
        ensures err { OnErr result (self.new ≡ self.old) }
    {
        Ok(self.held.push(element)?)
    }

    /// The number of elements.
    pub fn len(&self) -> usize
        ensures { result ≡ length self.now }
    {
        self.held.len()
    }

    /// Whether the list is empty.
    pub fn is_empty(&self) -> bool
        ensures { IsTrue result ↔ (self.now ≡ []) }
    {
        self.held.is_empty()
    }

    /// The element at `index`, or `None` past the end.
    pub fn get(&self, index: usize) -> Option<&T>
        ensures { option_copied result ≡ slice_get self.now index }
    {
        self.held.get(index)
    }

    /// Borrows the elements.
    pub fn as_slice(&self) -> &[T]
        ensures { result.now ≡ self.now }
    {
        self.held.as_slice()
    }
}

impl<T: Duplicate> List<T> {
    /// Copies the list and each of its elements.
    pub fn copy(&self, alloc: Global) -> Result<List<T>, AllocError>
        ensures { IfOk result (λ other. other ≡ self.now) }
    {
        Ok(List {
            held: T::copy_all(self.held.as_slice(), alloc)?,
        })
    }
}

impl<T: Duplicate> Duplicate for List<T> {
    fn copy(&self, alloc: Global) -> Result<List<T>, AllocError> {
        List::copy(self, alloc)
    }
}

impl List<Bytes> {
    /// Whether the other list holds the same byte strings, in the same order.
    pub fn is_same(&self, other: &List<Bytes>) -> bool
        ensures { IsTrue result ↔ (self.now ≡ other.now) }
    {
        are_same(self.as_slice(), other.as_slice())
    }
}
