//! The characters of a raw text, one after the other.
ghost use Rattle.std.specs.Prelude.{◌≡◌, IsUtf8, MatchResult};
ghost use Rattle.references.specs.Answers.{Next};
ghost use Rattle.references.specs.Decoding.{Laws};

use crate::reference::reference;
use crate::refusals::Malformed;

/// The decoded characters of a raw text, in turn.
#[derive(Drop)]
pub struct Characters<'t> {
    rest: &'t str,
}

impl<'t> Characters<'t> {
    /// The characters of these bytes. Refused if the bytes are not UTF-8.
    pub fn over(raw: &'t [u8]) -> Result<Characters<'t>, Malformed>
        ensures { MatchResult result (λ x. (x.rest.now ≡ raw.now) × IsUtf8 raw.now) (λ _. IsUtf8 raw.now → ⊥) }
    {
        // A `match`: with `map_err`, which was tried, the compiler no longer inlines this into `check`, which then runs a quarter
        // more instructions.
        match std::str::from_utf8(raw) {
            Ok(rest) => Ok(Characters { rest }),
            Err(_) => Err(Malformed),
        }
    }

    /// The next character, or none at the end. Refused where an `&` begins no reference, and then
    /// nothing moves.
    // A method, and not an `Iterator`: a refused call moves nothing, so as one it would never end.
    #[tactic(auto, using(crate::proofs::Reading::laws))]
    pub fn next(&mut self) -> Result<Option<char>, Malformed>
        ensures next { Next self.old.rest.now result self.new.rest.now }
        ensures laws { Laws }
    {
        let mut characters = self.rest.chars();
        let Some(first) = characters.next() else {
            return Ok(None);
        };
        let after = characters.as_str();
        if first != '&' {
            self.rest = after;
            return Ok(Some(first));
        }
        let (character, rest) = reference(after).ok_or(Malformed)?;
        self.rest = rest;
        Ok(Some(character))
    }
}
