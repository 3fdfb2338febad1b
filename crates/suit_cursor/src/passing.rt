//! Skipping the maps of overrides.

ghost use Rattle.std.specs.Prelude.{◌≡◌, IsOk, Ok};
ghost use Rattle.suit_params.specs.Reading.{inner_from};
ghost use Rattle.suit_params.specs.ParamReading.{next_params};
ghost use Rattle.suit_cursor.specs.Passing.{behind_plain, behind_pair, behind_pairs};

use crate::judged::Judged;
use det_cbor::{Cursor, HeadKind};
use suit_params::{bytes_left, same_place};

// Skips an item that holds no other items.
#[inline(always)]
#[tactic(auto, unfolding(crate::specs::Passing::behind_plain))]
fn pass_plain(map: &mut Judged<'_>)
    requires { IsOk (behind_plain map.old) }
    ensures { behind_plain map.old ≡ Ok map.new }
{
    let head = map.head();
    match head.kind {
        HeadKind::Bytes | HeadKind::Text => {
            map.bytes(head.value);
        }
        _ => {}
    }
}

// Skips a number, and an item that holds no other items.
#[inline(always)]
fn pass_pair(map: &mut Judged<'_>)
    requires { IsOk (behind_pair map.old) }
    ensures { behind_pair map.old ≡ Ok map.new }
{
    let _key = map.head();
    pass_plain(map);
}

fn pass_pairs(map: &mut Judged<'_>, pairs: u64)
    requires { IsOk (behind_pairs pairs map.old) }
    ensures { behind_pairs pairs map.old ≡ Ok map.new }
{
    for _ in 0..pairs {
        pass_pair(map);
    }
}

/// Takes the map of parameters at the cursor, and moves the cursor past it. Only the heads are
/// read.
pub(crate) fn take_map<'a>(cursor: &mut Cursor<'a>, count: u32) -> Judged<'a>
    requires { IsOk (next_params count cursor.old) }
    ensures { inner_from cursor.old ≡ Ok (result, cursor.new) }
{
    let _ = count;
    let place = cursor.place();
    let rest = bytes_left(same_place(cursor));
    let mut map = Judged::new(rest, place);
    let pairs = map.head().value;
    pass_pairs(&mut map, pairs);
    let length = rest.len() - map.left();
    let (item, behind) = rest.split_at(length);
    *cursor = Cursor::new(behind, place + length as u64);
    Judged::new(item, place)
}
