//! Procedures in the bytes of a manifest.

ghost use Rattle.std.specs.Prelude.{◌≡◌};

use suit_cursor::LentSequence;

/// A procedure that is lent by bytes that were judged: its three members in order, the shared sequence that is run
/// before each of them, and the number of components. An absent sequence counts as an empty one.
#[derive(Drop)]
pub struct Program<'a> {
    pub shared: Option<LentSequence<'a>>,
    pub first: Option<LentSequence<'a>>,
    pub second: Option<LentSequence<'a>>,
    pub third: Option<LentSequence<'a>>,
    pub count: u32,
}

/// The same sequence, lent again.
pub(crate) fn lent_again<'a>(part: &mut Option<LentSequence<'a>>) -> Option<LentSequence<'a>>
    ensures copied { result ≡ part.old }
    ensures same { part.new ≡ part.old }
{
    match part {
        None => None,
        Some(steps) => Some(steps.copy()),
    }
}

impl<'a> Program<'a> {
    /// The same procedure, lent again.
    pub fn copy(&mut self) -> Program<'a>
        ensures copied { result ≡ self.old }
        ensures same { self.new ≡ self.old }
    {
        Program {
            shared: lent_again(&mut self.shared),
            first: lent_again(&mut self.first),
            second: lent_again(&mut self.second),
            third: lent_again(&mut self.third),
            count: self.count,
        }
    }
}
