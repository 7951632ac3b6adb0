//! A text inside a larger one, so that places are not counted from its own start.
ghost use Rattle.std.specs.Prelude.{◌≡◌, ◌+◌, ◌<◌, ◌≤◌, ◌++◌, length, IfOk, Decides, codes};
ghost use Rattle.attrs.specs.Items.{left};
ghost use Rattle.vectors.specs.Texts.{DecodedText};

use attrs::Attributes;
use references::{DecodeRefusal, decode};
use std::alloc::{AllocError, Global};

/// What stands before the text.
const BEFORE: &[u8] = b"<a ";

/// What stands after it.
const AFTER: &[u8] = b"/>";

/// The place of the text in the larger one.
const PLACE: usize = 3;

/// A text, and the larger one that it stands in.
#[derive(Drop)]
pub struct Surrounded<'t> {
    text: &'t [u8],
    larger: Vec<u8>,
    ghost around: { larger.items ≡ codes "<a " ++ (text.now ++ codes "/>") },
}

impl<'t> Surrounded<'t> {
    /// Puts a text into a larger one.
    pub fn new(heap: Global, text: &'t [u8]) -> Result<Surrounded<'t>, AllocError>
        ensures { IfOk result (λ surrounded. surrounded.text.now ≡ text.now) }
    {
        let mut larger = Vec::from_slice(heap, BEFORE)?;
        larger.extend_from_slice(text)?;
        larger.extend_from_slice(AFTER)?;
        Ok(Surrounded { text, larger })
    }

    /// The text by itself.
    pub fn text(&self) -> &'t [u8]
        ensures { result.now ≡ self.now.text.now }
    {
        self.text
    }

    /// The larger text.
    pub fn larger(&self) -> &[u8]
        ensures { result.now ≡ codes "<a " ++ (self.now.text.now ++ codes "/>") }
    {
        self.larger.as_slice()
    }

    /// Whether that place in the larger text is one of the text.
    pub fn has_place(&self, place: usize) -> bool
        ensures { Decides result ((3 ≤ place) × (place < 3 + length self.now.text.now)) }
    {
        place
            .checked_sub(PLACE)
            .is_some_and(|place| place < self.text.len())
    }

    /// The text as attribute text.
    pub fn attributes(&self) -> Attributes<'_>
        ensures left { left result ≡ self.now.text.now }
        ensures place { result.place ≡ 3 }
    {
        Attributes::part(self.larger(), PLACE, self.text.len()).unwrap()
    }

    /// Decodes the text into a buffer.
    pub fn decode(&self, buffer: &mut [u8]) -> Result<usize, DecodeRefusal>
        ensures { DecodedText self.now.text.now buffer.old result buffer.new }
    {
        decode(self.larger(), PLACE, self.text.len(), buffer)
    }
}
