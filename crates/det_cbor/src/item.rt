//! Data items of CBOR (RFC 8949, section 2).

ghost use Rattle.std.specs.Prelude.{◌≡◌, IfOk};
ghost use Rattle.det_cbor.specs.ItemTree.{tree_of};

use crate::{Bytes, Items, Pairs, Text};
use std::alloc::{AllocError, Global};
use std::marker::Model;

/// A data item. `Negative(n)` stands for the integer -1 - n.
#[cycle(item)]
#[derive(Debug, Drop)]
pub enum Item {
    Unsigned(u64),
    Negative(u64),
    Bytes(Bytes),
    Text(Text),
    Array(Items),
    Map(Pairs),
    Tagged(u64, Inner),
    Bool(bool),
    Null,
}

/// The item inside a tag, in a box.
#[cycle(item)]
#[derive(Debug, Drop)]
pub struct Inner {
    pub(crate) held: Box<Item>,
}

impl Model for Inner {
    ghost use Rattle.det_cbor.specs.DataCode.{DataItem, coded_item, item_size};

    ghost Value = { DataItem };

    ghost coded = { coded_item };

    ghost use Rattle.det_cbor.specs.ItemTree.{tree_of};

    ghost view = { λ a. tree_of a.held.value };

    ghost size = { item_size };

    ghost use Rattle.det_cbor.specs.ItemDepth.{item_falls};

    ghost size_decreases = { λ a h. item_falls a.held.value };
}

impl Inner {
    /// Boxes an item.
    pub fn new(alloc: Global, item: Item) -> Result<Inner, AllocError>
        ensures { IfOk result (λ inner. inner ≡ tree_of item) }
    {
        let held = Box::new(alloc, item)?;
        Ok(Inner { held })
    }

    /// Borrows the item.
    pub fn as_item(&self) -> &Item
        ensures { tree_of result.now ≡ self.now }
    {
        &self.held
    }
}
