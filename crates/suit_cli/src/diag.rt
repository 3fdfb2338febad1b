//! The command `diag`: prints an item of deterministic CBOR in diagnostic notation.

ghost use Rattle.std.specs.Prelude.{IfOk};
ghost use Rattle.det_cbor.specs.DataItem.{IsValid, Spells};
ghost use Rattle.det_cbor.specs.HeadReading.{map_ok};
ghost use Rattle.det_cbor.specs.ItemTree.{tree_of};
ghost use Rattle.det_cbor.specs.OneReading.{IsItem};
ghost use Rattle.suit_cli.specs.Outside.{Flashed};
ghost use Rattle.suit_cli.specs.Stages.{Finds, Tells, ending_of};
ghost use Rattle.suit_cli.specs.Diagnosing.{item_in, IsNotated};
ghost use Rattle.suit_cli.specs.Commands.{diagnoses_file, diagnoses};

use crate::input::{LONGEST_FILE, read};
use crate::outside::SeenHost;
use crate::reply::{Outcome, Reply, Stop, declined};
use cbor_diag::notation;
use det_cbor::{CborFault, Cursor, Item, decode};
use std::alloc::{AllocError, Global};
use suit_edge::Host;
use suit_params::only_item;

// Decodes bytes that spell one item.
fn decoded(alloc: Global, bytes: &[u8]) -> Result<Item, AllocError>
    requires { IsItem bytes.now }
    ensures { IfOk result (λ item. Spells (tree_of item) bytes.now) }
{
    match decode(alloc, bytes) {
        Ok((item, _)) => Ok(item),
        Err(CborFault::NoMemory) => Err(AllocError),
        Err(CborFault::Refused { .. }) => unreachable!(),
    }
}

// The one item that a file's bytes spell. They are judged before anything is allocated.
fn item_in(alloc: Global, bytes: &[u8]) -> Result<Item, Stop>
    ensures { Finds (item_in bytes.now) (map_ok tree_of result) }
{
    match only_item(Cursor::new(bytes, 0)) {
        Ok(_) => Ok(decoded(alloc, bytes)?),
        Err(refusal) => Err(declined(Reply::refused(alloc, &refusal))),
    }
}

// An item's notation, as a line.
fn notated(alloc: Global, item: &Item) -> Result<Reply, AllocError>
    requires { IsValid (tree_of item.now) }
    ensures { IfOk result (IsNotated (tree_of item.now)) }
{
    let mut text = notation(alloc, item)?;
    text.push_str("\n")?;
    Ok(Reply {
        outcome: Outcome::Done,
        text,
    })
}

// The notation of a file's bytes.
fn diag_file(alloc: Global, bytes: &[u8]) -> Result<Reply, Stop>
    ensures { Tells (diagnoses_file bytes.now) result }
{
    let item = item_in(alloc, bytes)?;
    Ok(notated(alloc, &item)?)
}

/// The reply to `diag NAME`.
pub(crate) fn diag<H: Host>(alloc: Global, name: &str, host: &mut H) -> Result<Reply, Stop>
    ensures { (flash : Flashed) → diagnoses name.now
        (⟦<H as SeenHost>⟧.seen host.old flash) (⟦<H as SeenHost>⟧.seen host.new flash)
        (ending_of result) }
{
    let bytes = read(alloc, name, LONGEST_FILE, host)?;
    diag_file(alloc, bytes.as_slice())
}
