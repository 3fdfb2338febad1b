//! Reading the pairs of a map whose keys are numbers in one pass, from an item that was judged
//! before.
//!
//! The keys of such a map ascend, so its values are found by asking for one number after another.

ghost use Rattle.std.specs.Prelude.{◌≡◌};
ghost use Rattle.det_cbor.specs.HeadReading.{map_ok};
ghost use Rattle.suit_params.specs.Reading.{string_from};
ghost use Rattle.suit_manifest.specs.MapReading.{key_is, up_to, value_from, value_then, take_from, end_from, needed};

use det_cbor::{Cursor, HeadKind};
use suit_params::{Refusal, Why, read_bytes, read_head, read_item, refused, same_place};

// Takes the next `count` bytes, as a cursor over them.
fn piece<'a>(map: &mut Cursor<'a>, count: u64) -> Result<Cursor<'a>, Refusal>
    ensures { map_ok (λ inner. (inner, map.new)) result ≡ string_from count map.old }
{
    let place = map.place();
    let bytes = read_bytes(map, count)?;
    Ok(Cursor::new(bytes, place))
}

// Takes the bytes up to another cursor, as a cursor over them.
fn up_to<'a>(map: &mut Cursor<'a>, end: &Cursor<'_>) -> Result<Cursor<'a>, Refusal>
    ensures { map_ok (λ inner. (inner, map.new)) result ≡ up_to map.old end.now }
{
    piece(map, map.left().saturating_sub(end.left()) as u64)
}

// Takes the next value of a map that was judged before, as a cursor over its item. Of a number or a
// string, only the head is read.
#[tactic(auto, unfolding(crate::specs::MapReading::value_from))]
fn read_value<'a>(map: &mut Cursor<'a>) -> Result<Cursor<'a>, Refusal>
    ensures { map_ok (λ inner. (inner, map.new)) result ≡ value_from map.old }
{
    let mut ahead = same_place(map);
    let head = read_head(&mut ahead)?;
    match head.kind {
        HeadKind::Unsigned => up_to(map, &ahead),
        HeadKind::Bytes | HeadKind::Text => {
            read_bytes(&mut ahead, head.value)?;
            up_to(map, &ahead)
        }
        _ => read_item(map),
    }
}

// Reads the head of the next key, and returns whether it is this number.
#[tactic(auto, unfolding(crate::specs::MapReading::key_is))]
fn key_is(map: &mut Cursor<'_>, number: u64) -> Result<bool, Refusal>
    ensures { map_ok (λ is. (is, map.new)) result ≡ key_is number map.old }
{
    let head = read_head(map)?;
    match head.kind {
        HeadKind::Unsigned => Ok(head.value == number),
        _ => Ok(false),
    }
}

/// The pairs of a map that are left.
#[derive(Debug, Drop)]
pub(crate) struct Pairs<'a> {
    pub(crate) map: Cursor<'a>,
    pub(crate) left: u64,
}

impl<'a> Pairs<'a> {
    // Takes the next value. `behind` is the cursor after its key.
    fn value(&mut self, mut behind: Cursor<'a>) -> Result<Option<Cursor<'a>>, Refusal>
        ensures { map_ok (λ value. (value, self.new)) result
            ≡ value_then self.old.left behind.entry }
    {
        let value = read_value(&mut behind)?;
        self.map = behind;
        self.left = self.left.saturating_sub(1);
        Ok(Some(value))
    }

    /// Takes the value of the next pair, as a cursor over its item, if the pair's key is this
    /// number.
    pub(crate) fn take(&mut self, number: u64) -> Result<Option<Cursor<'a>>, Refusal>
        ensures { map_ok (λ value. (value, self.new)) result ≡ take_from number self.old }
    {
        if self.left == 0 {
            return Ok(None);
        }
        let mut ahead = same_place(&mut self.map);
        if key_is(&mut ahead, number)? {
            self.value(ahead)
        } else {
            Ok(None)
        }
    }

    /// Refuses a pair that is left, since its key is unknown.
    pub(crate) fn end(&self) -> Result<(), Refusal>
        ensures { result ≡ end_from self.now }
    {
        if self.left == 0 {
            Ok(())
        } else {
            refused(self.map.place(), Why::UnknownKey)
        }
    }
}

/// The value under a required number, or the refusal of the map, whose place is `place`.
pub fn needed<'a>(place: u64, number: u64, value: Option<Cursor<'a>>) -> Result<Cursor<'a>, Refusal>
    ensures { result ≡ needed place number value.entry }
{
    match value {
        Some(value) => Ok(value),
        None => refused(place, Why::Missing(number)),
    }
}
