//! References: an entity's name or a character's number, between `&` and `;`.
ghost use Rattle.std.specs.Prelude.{◌≡◌, ℕ, ◌+◌, ◌*◌, ◌<◌, ◌⊎◌, List, ◌++◌, codes, MatchOption};
ghost use Rattle.std.specs.Option.{SomeIff};
ghost use Rattle.std.specs.Char.{digit_value};
ghost use Rattle.references.specs.Xml.{Char, Entity, Means, Numbered, Refers};

/// The first number past every character.
const PAST_EVERY_CHARACTER: u32 = 0x110000;

/// The character of that number, if a document may have it.
fn allowed(code: u32) -> Option<char>
    ensures { SomeIff result (Char code) code }
{
    match code {
        0x9 | 0xA | 0xD | 0x20..=0xD7FF | 0xE000..=0xFFFD | 0x10000..=0x10FFFF => {
            char::from_u32(code)
        }
        _ => None,
    }
}

/// The number with one more digit; none if the byte is no digit, or the new number is past every character.
// By hand, and no `from_str_radix`, which takes twice the time for a digit.
fn with_digit(number: u32, radix: u32, byte: u8) -> Option<u32>
    requires small { number < 0x110000 }
    requires radix { (radix ≡ 10) ⊎ (radix ≡ 16) }
    ensures { SomeIff result ((digit_value byte < radix) × (number * radix + digit_value byte < 0x110000)) (number * radix + digit_value byte) }
{
    let digit = (byte as char).to_digit(radix)?;
    let more = number * radix + digit;
    (more < PAST_EVERY_CHARACTER).then_some(more)
}

/// The character whose number the digits are.
fn numbered(digits: &[u8], radix: u32) -> Option<char>
    requires { (radix ≡ 10) ⊎ (radix ≡ 16) }
    ensures { MatchOption result ((c : ℕ) → Numbered radix digits.now c → ⊥) (λ c. Numbered radix digits.now c) }
{
    if digits.is_empty() {
        return None;
    }
    let mut number = 0;
    for byte in digits {
        number = with_digit(number, radix, *byte)?;
    }
    allowed(number)
}

/// The character of the entity of that name.
#[tactic(auto, using(crate::specs::Xml::lt, crate::specs::Xml::gt, crate::specs::Xml::amp, crate::specs::Xml::apos, crate::specs::Xml::quot))]
fn entity(name: &str) -> Option<char>
    ensures { MatchOption result ((c : ℕ) → Entity name.now c → ⊥) (λ c. Entity name.now c) }
{
    match name {
        "lt" => Some('<'),
        "gt" => Some('>'),
        "amp" => Some('&'),
        "apos" => Some('\''),
        "quot" => Some('"'),
        _ => None,
    }
}

/// The character whose number this is, as written after `#`.
fn by_number(number: &str) -> Option<char>
    ensures { MatchOption result ((c : ℕ) → Means (codes "#" ++ number.now) c → ⊥) (λ c. Means (codes "#" ++ number.now) c) }
{
    match number.strip_prefix('x') {
        Some(digits) => numbered(digits.as_bytes(), 16),
        None => numbered(number.as_bytes(), 10),
    }
}

/// The character that the text means between `&` and `;`.
fn meaning(name: &str) -> Option<char>
    ensures { MatchOption result ((c : ℕ) → Means name.now c → ⊥) (λ c. Means name.now c) }
{
    match name.strip_prefix('#') {
        Some(number) => by_number(number),
        None => entity(name),
    }
}

/// The character that a reference means, and what follows the reference, given the text after its
/// `&`.
pub(crate) fn reference(after: &str) -> Option<(char, &str)>
    ensures { MatchOption result ((c : ℕ) (rest : List ℕ) → Refers after.now c rest → ⊥) (λ x. Refers after.now x.0 x.1.now) }
{
    let (name, rest) = after.split_once(';')?;
    let character = meaning(name)?;
    Some((character, rest))
}
