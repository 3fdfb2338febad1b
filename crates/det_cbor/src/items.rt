//! Lists of data items.

ghost use Rattle.std.specs.Prelude.{◌≡◌, [], ◌∷◌, ◌++◌, length, OnOk, OnErr};
ghost use Rattle.det_cbor.specs.ItemTree.{tree_of, trees_of};

use crate::Item;
use std::alloc::{AllocError, Global};
use std::marker::Model;

/// The items of an array.
#[cycle(item)]
#[derive(Debug, Drop)]
pub struct Items {
    pub(crate) held: Vec<Item>,
}

impl Model for Items {
    ghost use Rattle.std.specs.Prelude.{List};
    ghost use Rattle.det_cbor.specs.DataCode.{DataItem, coded_items, list_size};

    ghost Value = { List DataItem };

    ghost coded = { coded_items };

    ghost use Rattle.det_cbor.specs.ItemTree.{trees_of};

    ghost view = { λ a. trees_of a.held.items };

    ghost size = { list_size };

    ghost use Rattle.det_cbor.specs.ItemDepth.{items_fall};

    ghost size_decreases = { λ a h. items_fall a.held.items };
}

impl Items {
    /// An empty list; allocates nothing until it grows.
    pub fn new(alloc: Global) -> Items
        ensures { result ≡ [] }
    {
        Items {
            held: Vec::new(alloc),
        }
    }

    /// Wraps a vector. Allocates and copies nothing.
    pub fn from_vec(items: Vec<Item>) -> Items
        ensures { result ≡ trees_of items.items }
    {
        Items { held: items }
    }

    /// Unwraps the vector. Allocates and copies nothing.
    pub fn into_vec(self) -> Vec<Item>
        ensures { trees_of result.items ≡ self }
    {
        self.held
    }

    /// Appends an item. If memory runs out, the item is dropped.
    pub fn push(&mut self, item: Item) -> Result<(), AllocError>
        ensures ok { OnOk result (self.new ≡ self.old ++ tree_of item ∷ []) }
        ensures err { OnErr result (self.new ≡ self.old) }
    {
        Ok(self.held.push(item)?)
    }

    /// The number of items.
    pub fn len(&self) -> usize
        ensures { result ≡ length self.now }
    {
        self.held.len()
    }

    /// Borrows the items.
    pub fn as_slice(&self) -> &[Item]
        ensures { trees_of result.now ≡ self.now }
    {
        self.held.as_slice()
    }
}
