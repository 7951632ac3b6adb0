//! Texts with references.
ghost use Rattle.std.specs.Prelude.{◌≡◌, ℕ, ◌-◌, ◌<◌, true, ◌⊎◌, length, IfOk, MatchOption, Decides, string_bytes, codes};
ghost use Rattle.references.specs.declared.refusals.DecodeRefusal.TheVariants.{TooShort};
ghost use Rattle.vectors.specs.declared.reference_texts.Attempt.{Attempt};
ghost use Rattle.references.specs.Answers.{Sized, Undecodable};
ghost use Rattle.vectors.specs.declared.given.Kind.TheVariants.{Read, Refused, Unsound};
ghost use Rattle.vectors.specs.Attempts.{Untouched, Wrote, WasRefused, Attempted};

use crate::field::Whole;
use crate::given::{Given, Kind};
use crate::surroundings::Surrounded;
use references::{DecodeRefusal, check};
use std::alloc::{AllocError, Global};

/// What a buffer is filled with, to see what was written.
const FILL: u8 = 0xA5;

/// What decoding a part into a buffer came to.
#[derive(Drop)]
struct Attempt {
    answer: Result<usize, DecodeRefusal>,
    buffer: Vec<u8>,
}

impl Attempt {
    /// Decodes into a buffer of that length.
    fn new(heap: Global, text: &Surrounded<'_>, length: usize) -> Result<Attempt, AllocError>
        ensures { IfOk result (λ attempt. Attempted text.now.text.now length attempt) }
    {
        let mut buffer = vec![in heap; FILL; length]?;
        let answer = text.decode(buffer.as_mut_slice());
        Ok(Attempt { answer, buffer })
    }

    /// Whether nothing is written from that index on.
    fn is_untouched_from(&self, index: usize) -> bool
        ensures { Decides result (Untouched self.now.buffer.items index) }
    {
        self.buffer.iter().skip(index).all(|byte| *byte == FILL)
    }

    /// Whether the text was written over the front, and nothing after it.
    fn wrote(&self, text: &[u8]) -> bool
        ensures { Decides result (Wrote text.now self.now) }
    {
        self.answer == Ok(text.len())
            && self.buffer.as_slice().starts_with(text)
            && self.is_untouched_from(text.len())
    }

    /// Whether the part was refused for that, and the buffer left as it was.
    fn was_refused(&self, refusal: DecodeRefusal) -> bool
        ensures { Decides result (WasRefused refusal self.now) }
    {
        self.answer == Err(refusal) && self.is_untouched_from(0)
    }
}

/// How many bytes the text decodes into, by what an empty buffer is refused for.
fn decoded_size(text: &Surrounded<'_>) -> Option<usize>
    ensures { MatchOption result (Undecodable text.now.text.now) (λ size. Sized text.now.text.now size) }
{
    match text.decode(&mut []) {
        Ok(count) => Some(count),
        Err(DecodeRefusal::TooShort { needed }) => Some(needed),
        Err(DecodeRefusal::Malformed) => None,
    }
}

/// Whether a buffer that is a byte shorter is refused with the number 14, if there is a shorter one.
fn is_refused_if_shorter(
    heap: Global,
    text: &Surrounded<'_>,
    count: usize,
) -> Result<bool, AllocError>
    ensures { IfOk result (λ is_refused. is_refused ≡ true → 0 < count → (attempt : Attempt) × Attempted text.now.text.now (count - 1) attempt × WasRefused (TooShort count) attempt) }
{
    let Some(shorter) = count.checked_sub(1) else {
        return Ok(true);
    };
    let attempt = Attempt::new(heap, text, shorter)?;
    let refusal = DecodeRefusal::TooShort { needed: count };
    Ok(refusal.number() == 14 && attempt.was_refused(refusal))
}

/// What is said of a text that decodes into so many bytes: into a buffer of that length, into a longer
/// one, and not into one that is a byte shorter.
fn accepted(heap: Global, text: &Surrounded<'_>, count: usize) -> Result<Given, AllocError>
    ensures { IfOk result (λ given. (given.kind ≡ Read) ⊎ (given.kind ≡ Unsound)) }
{
    let exact = Attempt::new(heap, text, count)?;
    let longer = Attempt::new(heap, text, count.saturating_add(2))?;
    let bytes = exact.buffer.as_slice();
    let sound = check(text.text()).is_ok()
        && exact.wrote(bytes)
        && longer.wrote(bytes)
        && is_refused_if_shorter(heap, text, count)?;
    let words = if bytes == text.text() {
        String::from_str(heap, "=")?
    } else {
        Whole(bytes).to_string(heap)?
    };
    Ok(Given {
        kind: Kind::Read.provided(sound),
        words,
    })
}

/// What is said of a text that is refused: with the number 8, whatever buffer there is.
fn refused(heap: Global, text: &Surrounded<'_>) -> Result<Given, AllocError>
    ensures kind { IfOk result (λ given. (given.kind ≡ Refused) ⊎ (given.kind ≡ Unsound)) }
    ensures words { IfOk result (λ given. string_bytes given.words ≡ codes "refused") }
{
    let attempt = Attempt::new(heap, text, text.text().len())?;
    let refusal = DecodeRefusal::Malformed;
    let sound = check(text.text()).is_err_and(|malformed| malformed.number() == 8)
        && refusal.number() == 8
        && attempt.was_refused(refusal);
    Ok(Given {
        kind: Kind::Refused.provided(sound),
        words: String::from_str(heap, "refused")?,
    })
}

/// What `references` answers to a text, which stands inside of a larger text.
pub fn answered(heap: Global, text: &[u8]) -> Result<Given, AllocError>
    ensures read { IfOk result (λ given. given.kind ≡ Read → (size : ℕ) × Sized text.now size) }
    ensures refused { IfOk result (λ given. given.kind ≡ Refused → Undecodable text.now) }
{
    let text = Surrounded::new(heap, text)?;
    match decoded_size(&text) {
        Some(count) => accepted(heap, &text, count),
        None => refused(heap, &text),
    }
}
