//! The parameters of an override.

ghost use Rattle.std.specs.Prelude.{◌≡◌, IsOk, Ok};
ghost use Rattle.suit_params.specs.ParamReading.{next_params};
ghost use Rattle.suit_commands.specs.SequenceReading.{override_from};
ghost use Rattle.suit_cursor.specs.Lending.{LendsParam};

use crate::judged::Judged;
use crate::passing::take_map;
use crate::taking::take_param;
use det_cbor::{Cursor, HeadKind};
use std::marker::Model;
use suit_params::{ParamSlice, Why};

/// The parameters of an override that are left, in ascending order of the numbers of their keys
/// (draft-ietf-suit-manifest-25, section 8.4.10.3), borrowed from bytes that were judged.
#[derive(Drop)]
pub struct ParamView<'a> {
    map: Judged<'a>,
    left: u64,
    count: u32,
}

impl<'a> Model for ParamView<'a> {
    ghost use Rattle.std.specs.Prelude.{List};
    ghost use Rattle.suit_params.specs.declared.param.Param.{Param};

    ghost Value = { List Param };

    ghost use Rattle.suit_cursor.specs.LentParts.{lent_params, AreParams};

    ghost view = { λ p. lent_params p.count p.left p.map };

    ghost invariant = { λ p. AreParams p.count p.left p.map };
}

// Borrows the parameters of the next item, which is a map.
#[tactic(auto, unfolding(suit_params::specs::ParamReading::params_at, suit_params::specs::Reading::map_from))]
fn lend_map<'a>(cursor: &mut Cursor<'a>, count: u32) -> ParamView<'a>
    requires { IsOk (next_params count cursor.old) }
    ensures { next_params count cursor.old ≡ Ok (result, cursor.new) }
{
    let mut map = take_map(cursor, count);
    let pairs = map.value(HeadKind::Map, Why::Shape);
    ParamView {
        map,
        left: pairs,
        count,
    }
}

/// Borrows the parameters of the override whose map is at the cursor.
pub(crate) fn lend_override<'a>(cursor: &mut Cursor<'a>, count: u32) -> ParamView<'a>
    requires { IsOk (override_from count cursor.old) }
    ensures { override_from count cursor.old ≡ Ok (result, cursor.new) }
{
    lend_map(cursor, count)
}

impl<'a> ParamView<'a> {
    /// A copy, which borrows the same parameters.
    pub fn copy(&mut self) -> ParamView<'a>
        ensures copied { result ≡ self.old }
        ensures same { self.new ≡ self.old }
    {
        ParamView {
            map: self.map.copy(),
            left: self.left,
            count: self.count,
        }
    }

    /// The next parameter, which borrows its bytes, or `None` at the end.
    #[inline(always)]
    pub fn next(&mut self) -> Option<ParamSlice<'a>>
        ensures { LendsParam self.old self.new result }
    {
        if self.left == 0 {
            return None;
        }
        let param = take_param(&mut self.map, self.count);
        self.left -= 1;
        Some(param)
    }
}
