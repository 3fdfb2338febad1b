//! Lists of pairs of data items.

ghost use Rattle.std.specs.Prelude.{◌≡◌, [], ◌∷◌, ◌++◌, length, OnOk, OnErr};
ghost use Rattle.det_cbor.specs.ItemTree.{tree_of, pair_trees_of};

use crate::Item;
use std::alloc::{AllocError, Global};
use std::marker::Model;

/// The pairs of a map, each a key and its value, in the order in which they are written.
#[cycle(item)]
#[derive(Debug, Drop)]
pub struct Pairs {
    pub(crate) held: Vec<(Item, Item)>,
}

impl Model for Pairs {
    ghost use Rattle.std.specs.Prelude.{List};
    ghost use Rattle.det_cbor.specs.DataCode.{DataItem, coded_pairs, pair_list_size};

    ghost Value = { List (DataItem × DataItem) };

    ghost coded = { coded_pairs };

    ghost use Rattle.det_cbor.specs.ItemTree.{pair_trees_of};

    ghost view = { λ a. pair_trees_of a.held.items };

    ghost size = { pair_list_size };

    ghost use Rattle.det_cbor.specs.ItemDepth.{pairs_fall};

    ghost size_decreases = { λ a h. pairs_fall a.held.items };
}

impl Pairs {
    /// An empty list; allocates nothing until it grows.
    pub fn new(alloc: Global) -> Pairs
        ensures { result ≡ [] }
    {
        Pairs {
            held: Vec::new(alloc),
        }
    }

    /// Wraps a vector. Allocates and copies nothing.
    pub fn from_vec(pairs: Vec<(Item, Item)>) -> Pairs
        ensures { result ≡ pair_trees_of pairs.items }
    {
        Pairs { held: pairs }
    }

    /// Unwraps the vector. Allocates and copies nothing.
    pub fn into_vec(self) -> Vec<(Item, Item)>
        ensures { pair_trees_of result.items ≡ self }
    {
        self.held
    }

    /// Appends a pair. If memory runs out, the pair is dropped.
    pub fn push(&mut self, key: Item, value: Item) -> Result<(), AllocError>
        ensures ok { OnOk result (self.new ≡ self.old ++ (tree_of key, tree_of value) ∷ []) }
        ensures err { OnErr result (self.new ≡ self.old) }
    {
        Ok(self.held.push((key, value))?)
    }

    /// The number of pairs.
    pub fn len(&self) -> usize
        ensures { result ≡ length self.now }
    {
        self.held.len()
    }

    /// Borrows the pairs, each a key and its value.
    pub fn as_slice(&self) -> &[(Item, Item)]
        ensures { pair_trees_of result.now ≡ self.now }
    {
        self.held.as_slice()
    }
}
