//! Saturating arithmetic on numbers of 64 bits.

ghost use Rattle.std.specs.Prelude.{◌≡◌, ◌+◌, ◌*◌};
ghost use Rattle.suit_commands.specs.Capped.{capped};

/// Adds, saturating at 64 bits.
#[tactic(auto, unfolding(crate::specs::Capped::capped))]
pub(crate) fn plus(left: u64, right: u64) -> u64
    ensures { result ≡ capped (left + right) }
{
    left.saturating_add(right)
}

/// Multiplies, saturating at 64 bits.
#[tactic(auto, unfolding(crate::specs::Capped::capped))]
pub(crate) fn product(left: u64, right: u64) -> u64
    ensures { result ≡ capped (left * right) }
{
    left.saturating_mul(right)
}
