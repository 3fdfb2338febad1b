//! Shapes of envelopes.

ghost use Rattle.std.specs.Prelude.{◌≡◌, IfOk};
ghost use Rattle.conformance.specs.Shapes.{shape_of, words_of};

use det_cbor::{Names, Text};
use std::alloc::{AllocError, Global};

/// How an envelope installs and invokes its image.
#[derive(Clone, Copy, Debug, PartialEq, Eq)]
pub enum Shape {
    /// The image is fetched, and invoked where it is.
    Fetched,
    /// The image is a payload of the envelope.
    Integrated,
    /// The image is fetched. Each boot copies it to working memory, and invokes it there.
    Loaded,
    /// The image is fetched, unless it is there already.
    FetchedIfOther,
}

impl Shape {
    /// The shape that a number stands for.
    pub(crate) fn of(number: u64) -> Shape
        ensures { result ≡ shape_of number }
    {
        match number % 4 {
            0 => Shape::Fetched,
            1 => Shape::Integrated,
            2 => Shape::Loaded,
            _ => Shape::FetchedIfOther,
        }
    }

    /// The words `URI=NAME` of `run update` for the files that the shape fetches.
    pub(crate) fn words(self, alloc: Global) -> Result<Names, AllocError>
        ensures { IfOk result (λ words. words ≡ words_of self) }
    {
        let mut words = Names::new(alloc);
        match self {
            Shape::Integrated => {}
            Shape::Fetched | Shape::Loaded | Shape::FetchedIfOther => {
                words.push(Text::from_str(alloc, "img=got.bin")?)?;
            }
        }
        Ok(words)
    }
}
