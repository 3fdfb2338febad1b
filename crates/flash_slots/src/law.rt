//! Laws of contents in working memory. The call here does nothing: its contract is the law.

ghost use Rattle.flash_slots.specs.RamLaws.{RamLaws};

/// Room that was made for a layout stays room for it, and the content of each component is its own.
pub fn ram_laws()
    ensures { RamLaws }
{}
