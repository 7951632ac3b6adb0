//! A style of the palette.

/// A style is known by the number of its entry.
#[derive(Clone, Copy)]
pub struct Style {
    pub number: u32,
}
