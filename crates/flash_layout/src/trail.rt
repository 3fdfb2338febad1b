//! Trails: the outcomes of a procedure's free steps, kept so that a power loss does not undo them.

ghost use Rattle.flash_layout.specs.Trails.{HoldsNow, IsTaken, LieWithin, list_after, list_with};
ghost use Rattle.std.specs.Prelude.{◌≡◌, ◌<◌, ◌⊎◌, ◌∷◌, ◌++◌, [], ℕ, Bool, IfSome, IsTrue, List, None, Option, false, length, true};
ghost use Rattle.suit_edge.specs.Edge.{IfDone};
ghost use Rattle.suit_edge.specs.Faults.{EdgeCounts};
ghost use Rattle.suit_edge.specs.Flash.{Grows, IsFirmOn, Keeps, Passes};
ghost use Rattle.suit_edge.specs.Ranges.{InSome, OutsideEach, Range, SameOn};
ghost use Rattle.suit_edge.specs.declared.edge.Edge.TheVariants as edge;

use suit_edge::{Disk, Edge};

/// The outcomes of free steps, in order: those that are still to be recalled, and the list of those
/// that were recalled or kept so far. A step is free if it looks at a content, makes one, or
/// launches.
pub trait Trail {
    /// Whether the contracts of this type say what its list is.
    ghost told: { Bool };

    /// Whether keeping an outcome never calls the disk, and never fails.
    ghost silent: { Bool };

    /// The outcomes that are still to be recalled.
    ghost left: { Self → List Bool };

    /// The outcomes that were recalled or kept so far.
    ghost list: { Self → List Bool };

    /// How many outcomes there is room for, if there is a limit.
    ghost room: { Self → Option ℕ };

    /// The places of the disk at which outcomes are kept.
    ghost ranges: { Self → List Range };

    /// The image holds this list, whatever else is in it.
    ghost holds: { Self → List Bool → List ℕ → Type 0 };

    /// How many outcomes were recalled or kept so far.
    fn kept(&self) -> u64
        ensures { IsTrue told → result ≡ length (list self.now) };

    /// Takes the next outcome that is to be recalled.
    fn recalled(&mut self) -> Option<bool>
        ensures taken { IsTaken result (left self.old) (left self.new) }
        ensures list { IsTrue told → list self.new ≡ list_with (list self.old) result }
        ensures holds { (image : List ℕ) → holds self.old (list self.old) image
            → holds self.new (list self.new) image }
        ensures room { room self.new ≡ room self.old }
        ensures ranges { ranges self.new ≡ ranges self.old };

    /// Keeps an outcome. Once this is done it survives a power loss; a loss meanwhile leaves the
    /// list as it was, or with this outcome. If it fails, the list is as it was, and the disk may
    /// hold either.
    fn keep<D: Disk>(&mut self, disk: &mut D, passed: bool) -> Edge
        requires all_recalled { left self.old ≡ [] }
        requires holds { IsTrue D.told
            → HoldsNow (holds self.old (list self.old)) (D.flash disk.old) }
        requires room { IsTrue told → IfSome (room self.old) (λ n. length (list self.old) < n) }
        requires within { LieWithin (D.extent disk.old) (ranges self.old) }
        ensures size { D.extent disk.new ≡ D.extent disk.old }
        ensures counts { EdgeCounts result (D.faults disk.old) (D.faults disk.new) }
        ensures left { left self.new ≡ [] }
        ensures list { IsTrue told → list self.new ≡ list_after (list self.old) result passed }
        ensures holds { IsTrue D.told
            → IfDone result (HoldsNow (holds self.new (list self.new)) (D.flash disk.new)) }
        ensures firm { IsTrue D.told
            → IfDone result (IsFirmOn (InSome (ranges self.old)) (D.flash disk.new)) }
        ensures moments { IsTrue D.told → Passes (D.flash disk.old) (D.flash disk.new)
            (λ image. holds self.old (list self.old) image
            ⊎ holds self.old (list self.old ++ passed ∷ []) image) }
        ensures keeps { IsTrue D.told
            → Keeps (OutsideEach (ranges self.old)) (D.flash disk.old) (D.flash disk.new) }
        ensures grows { IsTrue D.told → Grows (D.flash disk.old) (D.flash disk.new) }
        ensures room { room self.new ≡ room self.old }
        ensures ranges { ranges self.new ≡ ranges self.old }
        ensures silent { IsTrue silent → (result ≡ edge.Done) × (disk.new ≡ disk.old) };

    ghost rests: { (trail : Self) (outcomes : List Bool) (image other : List ℕ)
        → SameOn (InSome (ranges trail)) image other → holds trail outcomes image
        → holds trail outcomes other };
}

/// The trail of a procedure that starts again from its beginning: nothing is recalled, and nothing
/// is kept.
#[derive(Clone, Copy, Debug)]
pub struct NoTrail;

impl Trail for NoTrail {
    ghost told = { false };

    ghost silent = { true };

    ghost left = { λ trail. [] };

    ghost list = { λ trail. [] };

    ghost room = { λ trail. None };

    ghost ranges = { λ trail. [] };

    ghost holds = { λ trail outcomes image. Unit {0} };

    ghost rests = { λ trail outcomes image other same holds. tt };

    fn kept(&self) -> u64 {
        u64::MAX
    }

    fn recalled(&mut self) -> Option<bool> {
        None
    }

    fn keep<D: Disk>(&mut self, disk: &mut D, passed: bool) -> Edge {
        let _ = disk;
        let _ = passed;
        Edge::Done
    }
}
