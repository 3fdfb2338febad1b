//! The draws of a round.

ghost use Rattle.std.specs.Prelude.{◌≡◌, ◌*◌, ◌+◌, ◌^◌, IfOk, OnOk};
ghost use Rattle.conformance.specs.Draws.{nth_draw, state_after};
ghost use Rattle.conformance.specs.Drawing.{bytes_drawn, drawn_from, state_behind};

use crate::{Draw, Shape};
use det_cbor::Bytes;
use std::alloc::{AllocError, Global};

/// The longest payload, in bytes.
const LONGEST_PAYLOAD: u64 = 60_000;

/// What is drawn for a round.
#[derive(Debug, Drop)]
pub struct Drawn {
    /// How the envelope installs and invokes its image.
    pub shape: Shape,
    /// The payload, as it is described.
    pub payload: Bytes,
    /// Whether other bytes come when the payload is fetched.
    pub wrong_payload: bool,
    /// Whether the power is lost during the update.
    pub wants_cut: bool,
    /// How many calls of the flash pass before the loss.
    pub passes: u64,
    /// Which of the pending writes survive the loss.
    pub choice: u64,
}

// Draws `count` bytes.
fn draw_bytes(alloc: Global, draw: &mut Draw, count: u64) -> Result<Bytes, AllocError>
    ensures bytes { IfOk result (λ bytes. bytes ≡ bytes_drawn count draw.old) }
    ensures state { OnOk result (draw.new ≡ state_after count draw.old) }
{
    let mut bytes = Bytes::new(alloc);
    for _ in 0..count {
        bytes.push((draw.next() % 256) as u8)?;
    }
    Ok(bytes)
}

// Draws a number of 62 bits. Its upper half is drawn first.
fn draw_long(draw: &mut Draw) -> u64
    ensures drawn { result ≡ nth_draw draw.old 0 * 2 ^ 31 + nth_draw draw.old 1 }
    ensures state { draw.new ≡ state_after 2 draw.old }
{
    let high = draw.next();
    let low = draw.next();
    (high << 31) + low
}

/// Draws a round. Each draw is made every time, so that the draws of the next round do not depend on what this one
/// decides.
pub fn draw_round(alloc: Global, draw: &mut Draw) -> Result<Drawn, AllocError>
    ensures drawn { IfOk result (λ drawn. drawn ≡ drawn_from draw.old) }
    ensures state { OnOk result (draw.new ≡ state_behind draw.old) }
{
    let shape = Shape::of(draw.next());
    let length = draw.next() % (LONGEST_PAYLOAD + 1);
    let payload = draw_bytes(alloc, draw, length)?;
    let wrong_payload = draw.next() % 4 == 0;
    let wants_cut = draw.next() % 2 == 0;
    let passes = draw.next() % 200;
    let choice = draw_long(draw);
    Ok(Drawn {
        shape,
        payload,
        wrong_payload,
        wants_cut,
        passes,
        choice,
    })
}
