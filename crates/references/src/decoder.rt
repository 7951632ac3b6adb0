//! Decoding a part of a text into a buffer: a first pass checks and counts, a second writes, so that
//! nothing is written where a part is refused.
ghost use Rattle.std.specs.Prelude.{◌≡◌, ℕ, ◌+◌, ◌<◌, ◌≤◌, List, ◌++◌, length, take, drop, MatchOption, MatchResult};
ghost use Rattle.std.proofs.Math.Utf8.{encode};
ghost use Rattle.references.specs.Answers.{Decoded, Sized, Undecodable, Within, Written, part};
ghost use Rattle.references.specs.Decoding.{Decodes, Laws};

use crate::characters::Characters;
use crate::refusals::{DecodeRefusal, Malformed};

/// How many bytes the raw text decodes into.
fn decoded_size(raw: &[u8]) -> Result<usize, Malformed>
    ensures { MatchResult result (λ n. Sized raw.now n) (λ _. Undecodable raw.now) }
{
    let mut characters = Characters::over(raw)?;
    let mut size = 0;
    while let Some(character) = characters.next()? {
        size += character.len_utf8();
    }
    Ok(size)
}

/// Whether every character of the raw text can be read: to check a part without writing it.
#[tactic(auto, using(crate::proofs::Reading::laws))]
pub fn check(raw: &[u8]) -> Result<(), Malformed>
    ensures decides { MatchResult result (λ _. (cs : List ℕ) × Decodes raw.now cs) (λ _. Undecodable raw.now) }
    ensures laws { Laws }
{
    decoded_size(raw).map(|_| ())
}

/// Writes the bytes of a character from that place on.
fn write_character(buffer: &mut [u8], place: usize, character: char)
    requires { place + length (encode character) ≤ length buffer.old }
    ensures { buffer.new ≡ take place buffer.old ++ (encode character ++ drop (place + length (encode character)) buffer.old) }
{
    // By way of an array: the contract of `encode_utf8` leaves open what becomes of a buffer's other bytes.
    let mut memory = [0; 4];
    let bytes = character.encode_utf8(&mut memory).as_bytes();
    buffer[place..place + bytes.len()].copy_from_slice(bytes);
}

/// Writes the decoded bytes of a raw text over the front of the buffer.
// A place is counted, and the buffer not cut shorter: the contract speaks of the whole buffer, which would be joined again.
fn write(raw: &[u8], buffer: &mut [u8])
    requires { (n : ℕ) × Sized raw.now n × (n ≤ length buffer.old) }
    ensures { (n : ℕ) → Sized raw.now n → Written raw.now buffer.old buffer.new n }
{
    let mut characters = Characters::over(raw).unwrap();
    let mut place = 0;
    while let Some(character) = characters.next().unwrap() {
        write_character(buffer, place, character);
        place += character.len_utf8();
    }
}

/// The part of the text, if it lies within.
fn part_of(text: &[u8], place: usize, size: usize) -> Option<&[u8]>
    ensures { MatchOption result (Within text.now place size → ⊥) (λ x. Within text.now place size × (x.now ≡ part text.now place size)) }
{
    text.get(place..)?.get(..size)
}

/// Writes the decoded bytes of a part of the text over the front of the buffer, and answers how many
/// they are. Refused, with the buffer as it was, if the part does not lie within the text or is
/// malformed, or else if the buffer is too short.
#[tactic(auto, using(crate::proofs::Reading::laws))]
pub fn decode(
    text: &[u8],
    place: usize,
    size: usize,
    buffer: &mut [u8],
) -> Result<usize, DecodeRefusal>
    ensures decoded { Decoded text.now place size buffer.old result buffer.new }
    ensures laws { Laws }
{
    let raw = part_of(text, place, size).ok_or(Malformed)?;
    let needed = decoded_size(raw)?;
    if buffer.len() < needed {
        return Err(DecodeRefusal::TooShort { needed });
    }
    write(raw, buffer);
    Ok(needed)
}
