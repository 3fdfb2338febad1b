//! Slots in the description of a component.

ghost use Rattle.std.specs.Prelude.{◌≡◌};
ghost use Rattle.serde_json.specs.View.{view};
ghost use Rattle.json_fields.specs.Answers.{Gives};
ghost use Rattle.flash_layout.specs.ComponentFields.{no_starts, one_or_two, flash_starts, starts_of};

use crate::Memory;
use json_fields::{FlawKind, Form, JsonFault, array, flawed, number};
use serde_json::Value;
use std::alloc::Global;

/// Where the slots of a component start, and how many there are.
#[derive(Clone, Copy)]
pub(crate) struct Starts {
    pub(crate) count: u8,
    /// The start of each slot, or 0 where there is none.
    pub(crate) places: [u64; 2],
}

impl Starts {
    /// The starts in working memory: one slot, without a place.
    pub(crate) fn none() -> Starts
        ensures { result ≡ no_starts }
    {
        Starts {
            count: 1,
            places: [0, 0],
        }
    }
}

// The form of a place in the flash.
#[derive(Drop)]
struct Place;

impl Form for Place {
    type Item = u64;

    ghost use Rattle.std.specs.Prelude.{◌^◌, ◌-◌};
    ghost use Rattle.json_fields.specs.Values.{number_up_to};

    ghost reads = { λ _ d. number_up_to (2 ^ 64 - 1) d };

    fn read(&self, alloc: Global, value: &Value) -> Result<u64, JsonFault> {
        number(alloc, value, u64::MAX)
    }
}

// One or two starts.
fn one_or_two(alloc: Global, starts: &[u64]) -> Result<Starts, JsonFault>
    ensures { Gives (λ s. s) result (one_or_two starts.now) }
{
    if starts.len() == 1 {
        Ok(Starts {
            count: 1,
            places: [starts[0], 0],
        })
    } else if starts.len() == 2 {
        Ok(Starts {
            count: 2,
            places: [starts[0], starts[1]],
        })
    } else {
        flawed(alloc, FlawKind::Field)
    }
}

// Reads an array of one or two starts.
fn flash_starts(alloc: Global, value: &Value) -> Result<Starts, JsonFault>
    ensures { Gives (λ s. s) result (flash_starts (view value.now)) }
{
    let starts = array(alloc, value, &Place)?;
    let starts = one_or_two(alloc, starts.as_slice())?;
    Ok(starts)
}

/// Reads an array of one or two starts, which working memory may not have.
pub(crate) fn starts_of(
    alloc: Global,
    value: &Value,
    memory: Option<Memory>,
) -> Result<Starts, JsonFault>
    ensures { Gives (λ s. s) result (starts_of memory (view value.now)) }
{
    match memory {
        Some(Memory::Ram) => flawed(alloc, FlawKind::Field),
        Some(Memory::Flash) => flash_starts(alloc, value),
        None => flash_starts(alloc, value),
    }
}
