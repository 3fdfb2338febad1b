//! Laws of the flash's frame and of the configuration page. Each call here does nothing: its contract is the law.

ghost use Rattle.std.specs.Prelude.{◌≡◌, ℕ, slice_index, slice_range};
ghost use Rattle.flash_layout.specs.ConfigLaws.{OneAnswer, OneConfig};
ghost use Rattle.flash_layout.specs.FrameLaws.{FrameLaws, RootLaws, SecondLaws};
ghost use Rattle.flash_layout.specs.LoadLaws.{LoadLaws};
ghost use Rattle.flash_layout.specs.PagePlaces.{IsIdentifierField, IsIdField, IsMemoryByte, IsNumberField, OfEachEntry, PagePlaces};
ghost use Rattle.flash_layout.specs.SlotLaws.{SlotLaws};

/// Where the parts of a flash are, and which frame a root gives.
pub fn frame_laws()
    ensures first { FrameLaws }
    ensures second { (base : ℕ) → SecondLaws base }
    ensures root { RootLaws }
{}

/// Where the fields of a configuration page are, and those of each component in its bytes.
pub fn page_laws()
    ensures places { PagePlaces }
    ensures memory { OfEachEntry (λ e bytes. IsMemoryByte e.memory (slice_index bytes 0)) }
    ensures slots { OfEachEntry (λ e bytes. slice_index bytes 1 ≡ e.slots) }
    ensures identifier { OfEachEntry (λ e bytes.
        IsIdentifierField (slice_index bytes 2) e.identifier (slice_range bytes 3 67)) }
    ensures vendor { OfEachEntry (λ e bytes. IsIdField e.vendor (slice_range bytes 67 84)) }
    ensures class { OfEachEntry (λ e bytes. IsIdField e.class (slice_range bytes 84 101)) }
    ensures device { OfEachEntry (λ e bytes. IsIdField e.device (slice_range bytes 101 118)) }
    ensures capacity { OfEachEntry (λ e bytes.
        IsNumberField e.capacity (slice_range bytes 118 126)) }
    ensures first { OfEachEntry (λ e bytes.
        IsNumberField (slice_index e.starts 0) (slice_range bytes 126 134)) }
    ensures second { OfEachEntry (λ e bytes.
        IsNumberField (slice_index e.starts 1) (slice_range bytes 134 142)) }
{}

/// A page holds at most one layout and key, and an image has at most one configuration.
pub fn config_laws()
    ensures page { OneConfig }
    ensures answer { OneAnswer }
{}

/// A layout that is loaded is allowed, and is the only answer; only a fault raises the count.
pub fn load_laws()
    ensures { LoadLaws }
{}

/// Two slots are clear of each other if and only if they share no byte.
pub fn slot_laws()
    ensures { SlotLaws }
{}
