//! Judging maps of parameters without keeping them.

ghost use Rattle.std.specs.Prelude.{◌≡◌, ℕ};
ghost use Rattle.det_cbor.specs.HeadReading.{map_ok};
ghost use Rattle.suit_params.specs.ParamReading.{params_from, params_at};

use crate::Refusal;
use crate::param_slice::lend_param;
use crate::reading::read_map;
use det_cbor::Cursor;

// Judges the next `pairs` pairs of a map.
fn judge_pairs(mut map: Cursor<'_>, pairs: u64, count: u32) -> Result<(), Refusal>
    ensures { result ≡ map_ok (λ _. tt) (params_from count pairs map.entry) }
{
    for _ in 0..pairs {
        match lend_param(&mut map, count) {
            Ok(_) => {}
            Err(refusal) => return Err(refusal),
        }
    }
    Ok(())
}

/// Judges a map of parameters as `params_of` does, without allocating.
#[tactic(auto, unfolding(crate::specs::ParamReading::params_at))]
pub fn judge_params(mut item: Cursor<'_>, count: u32) -> Result<(), Refusal>
    ensures { result ≡ map_ok (λ _. tt) (params_at count item.entry) }
{
    let pairs = read_map(&mut item)?;
    judge_pairs(item, pairs, count)
}
