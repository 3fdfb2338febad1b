//! Makes rounds from what is drawn.

ghost use Rattle.std.specs.Prelude.{◌≡◌, IfOk, IsTrue};
ghost use Rattle.author.specs.FileNames.{file_names};
ghost use Rattle.author.specs.Files.{has_files};
ghost use Rattle.author.specs.Held.{value_of};
ghost use Rattle.conformance.specs.Rounds.{round_of, said_by};
ghost use Rattle.conformance.specs.Shapes.{shape_data};

use crate::files::files_of;
use crate::values::shape_value;
use crate::{Draw, Round, Shape, draw_round, shape_laws};
use author::{Description, DescriptionFault, description};
use std::alloc::{AllocError, Global};

// Makes the description of a shape.
fn describe(alloc: Global, shape: Shape, sequence: u64) -> Result<Description, AllocError>
    ensures { IfOk result (λ d. value_of d ≡ shape_data shape sequence) }
{
    shape_laws();
    let value = shape_value(alloc, shape, sequence)?;
    match description(alloc, &value) {
        Ok(description) => Ok(description),
        Err(DescriptionFault::NoMemory) => Err(AllocError),
        Err(_) => unreachable!(),
    }
}

/// Draws a round whose manifest has this sequence number. After an error, it is not known what `draw` gives next.
pub fn round(alloc: Global, draw: &mut Draw, sequence: u64) -> Result<Round, AllocError>
    ensures says { IfOk result (λ r. (said_by r, draw.new) ≡ round_of draw.old sequence) }
    ensures files { IfOk result
        (λ r. IsTrue (has_files r.files (file_names (value_of r.description)))) }
{
    let drawn = draw_round(alloc, draw)?;
    let cut = if drawn.wants_cut {
        Some(drawn.passes)
    } else {
        None
    };
    Ok(Round {
        description: describe(alloc, drawn.shape, sequence)?,
        files: files_of(alloc, drawn.wrong_payload, drawn.payload)?,
        words: drawn.shape.words(alloc)?,
        wrong_payload: drawn.wrong_payload,
        cut,
        choice: drawn.choice,
    })
}
