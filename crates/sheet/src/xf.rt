//! Entries of the palette.
ghost use Rattle.std.specs.Prelude.{◌≡◌};
ghost use Rattle.std.specs.Option.{option_map};
ghost use Rattle.sheet.specs.Palette.{style_at, kind_at};

use formats::CellFormat;

/// A style and its date kind. The palette is a list of these, and a style id is an index of it. It is a
/// slice that is lent to each call, since each is given the palette as it then is.
#[derive(Drop)]
pub struct Xf<S> {
    pub style: S,
    pub kind: CellFormat,
}

/// The date kind of a style id: `Other` past the palette.
pub(crate) fn kind_of<S>(palette: &[Xf<S>], id: u32) -> CellFormat
    ensures { result ≡ kind_at palette.now id }
{
    palette
        .get(id as usize)
        .map_or(CellFormat::Other, |xf| xf.kind)
}

/// The style of an id, or none past the palette.
pub(crate) fn style_of<'p, S>(palette: &'p [Xf<S>], id: u32) -> Option<&'p S>
    ensures { option_map (λ x. x.now) result ≡ style_at palette.now id }
{
    Some(&palette.get(id as usize)?.style)
}
