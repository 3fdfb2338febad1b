//! Laws of NOR flash in memory. The call here does nothing: its contract is the law.

ghost use Rattle.nor_flash.specs.NorLossLaws.{NorLossLaw};

/// The images that a power loss may leave of NOR flash in memory: any bytes in the range of the
/// call that it interrupts, and elsewhere what was there.
pub fn nor_loss_laws()
    ensures { NorLossLaw }
{}
