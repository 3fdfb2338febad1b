//! The identities that are reported with a path.

ghost use Rattle.std.specs.Prelude.{◌≡◌, IfSome, IfOk, Some, length};
ghost use Rattle.path_model.specs.Path.{IsIdentifier, IsIdentity};
ghost use Rattle.path_checker.specs.Knowing.{Agrees, AllowsOne};
ghost use Rattle.path_checker.specs.Choosing.{IsLeastOutside, IsChosen};

use crate::judge_plan::facts::{Facts, Knowledge};
use crate::judge_plan::known::{Known, is_among};
use path_model::{Identities, Identity};
use std::alloc::{AllocError, Global};

// The least number that is not one of `numbers`. It is at most their count.
pub(crate) fn least_outside(numbers: &[u64]) -> u64
    ensures { IsLeastOutside numbers.now result }
{
    let mut number: u64 = 0;
    while is_among(numbers, &number) {
        number += 1;
    }
    number
}

// Does nothing. Its contract says that sixteen bytes are an identifier.
fn identifier_bounds(id: &[u8])
    requires { length id.now ≡ 16 }
    ensures { IsIdentifier id.now }
{}

fn chosen_identifier(known: &Known<[u8; 16]>) -> Option<[u8; 16]>
    ensures agrees { Agrees known.now result }
    ensures bounds { IfSome result IsIdentifier }
{
    let chosen = known.identifier();
    if let Some(id) = &chosen {
        identifier_bounds(&id[..]);
    }
    chosen
}

// An identity that the knowledge allows. An unknown identifier is absent, and an unknown slot is the least number that
// is not ruled out.
fn chosen_one(known: &Knowledge) -> Identity
    ensures allowed { AllowsOne known.now result }
    ensures bounds { IsIdentity result }
{
    Identity {
        vendor: chosen_identifier(&known.vendor),
        class: chosen_identifier(&known.class),
        device: chosen_identifier(&known.device),
        slot: known.slot.slot(),
    }
}

/// Identities that the facts allow.
pub(crate) fn chosen_identities(alloc: Global, facts: &Facts) -> Result<Identities, AllocError>
    ensures { IfOk result (IsChosen facts.now) }
{
    let mut identities = Identities::new(alloc);
    for known in facts.as_slice() {
        identities.push(chosen_one(known.known()))?;
    }
    Ok(identities)
}
