//! Whether borrowed identifiers are equal.

ghost use Rattle.std.specs.Prelude.{◌≡◌, ◌<◌, [], length, get_or};
ghost use Rattle.suit_manifest.specs.ComponentsJudging.{same_id};

use crate::{LentIdentifier, LentIdentifiers};
use suit_params::IdentifiedList;

// The identifier at index `n` of those that are left.
fn at<'a>(ids: &mut LentIdentifiers<'a>, n: u64) -> LentIdentifier<'a>
    requires { n < length ids.old }
    ensures lent { result ≡ get_or ids.old n [] }
    ensures same { ids.new ≡ ids.old }
{
    let mut left = ids.copy();
    for _ in 0..n {
        left.next();
    }
    left.next().unwrap()
}

// Whether both identifiers have the same byte strings.
fn are_same(mut id: LentIdentifier<'_>, mut other: LentIdentifier<'_>) -> bool
    ensures { result ≡ same_id id.entry other.entry }
{
    while let Some(part) = id.next() {
        match other.next() {
            Some(found) => {
                if part != found {
                    return false;
                }
            }
            None => return false,
        }
    }
    other.next().is_none()
}

impl<'a> IdentifiedList for LentIdentifiers<'a> {
    type Item = LentIdentifier<'a>;

    ghost items = { λ ids. ids };

    ghost id_of = { λ id. id };

    fn are_same(&mut self, one: usize, other: usize) -> bool {
        are_same(at(self, one as u64), at(self, other as u64))
    }
}
