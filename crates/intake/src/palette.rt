//! The palette of a session.
ghost use Rattle.std.specs.Prelude.{◌≡◌, ℕ, ◌<◌, [], ◌∷◌, ◌++◌, vec_len, MatchResult, slice_index_or};
ghost use Rattle.sheet.specs.declared.xf.Xf as entry;
ghost use Rattle.intake.specs.declared.style.Style as style;

use crate::misread::Misread;
use crate::style::Style;
use formats::CellFormat;
use sheet::Xf;
use std::alloc::Global;

/// The entries so far. The style of each has the number of its place.
#[derive(Drop)]
pub struct Palette {
    entries: Vec<Xf<Style>>,
    ghost numbered: { (k : ℕ) (d : entry.Xf style.Style) → k < vec_len entries → (slice_index_or entries.items k d).style.number ≡ k },
}

impl Palette {
    /// A palette with no entry.
    pub fn new(heap: Global) -> Palette
        ensures { result.entries.items ≡ [] }
    {
        Palette {
            entries: Vec::new(heap),
        }
    }

    /// The entries, in order.
    pub fn entries(&self) -> &[Xf<Style>]
        ensures { result.now ≡ self.now.entries.items }
    {
        self.entries.as_slice()
    }

    /// Adds an entry of a kind, and answers its number.
    pub fn add(&mut self, kind: CellFormat) -> Result<u32, Misread>
        ensures { MatchResult result (λ n. (n ≡ vec_len self.old.entries) × (self.new.entries.items ≡ self.old.entries.items ++ record { style = record { number = n }; kind = kind } ∷ [])) (λ why. (why ≡ Misread.NoMemoryForXf) × (self.new.entries.items ≡ self.old.entries.items)) }
    {
        let number = u32::try_from(self.entries.len()).map_err(|_| Misread::NoMemoryForXf)?;
        let style = Style { number };
        self.entries
            .push(Xf { style, kind })
            .map_err(|_| Misread::NoMemoryForXf)?;
        Ok(number)
    }
}
