//! What a line is answered, as it is printed.
use crate::style::Style;
use formats::CellFormat;
use replicas::Answer;
use runs::{Mark, Run, RunTable};
use sheet::{Sheet, Styled, Xf};
use std::fmt;

/// The answer to a line that is understood.
#[derive(Drop)]
pub enum Reply<'s> {
    Ready,
    Added {
        number: u32,
    },
    Made(Answer),
    Style(Option<u32>),
    Kind(Option<CellFormat>),
    Runs {
        sheet: &'s Sheet,
    },
    Walk {
        sheet: &'s Sheet,
        palette: &'s [Xf<Style>],
    },
    Agree(bool),
}

/// Writes each run, as its mark and its end.
fn write_runs<W: fmt::Write, M: Mark + fmt::Display>(
    f: &mut fmt::Formatter<W>,
    runs: &RunTable<'_, M>,
) -> fmt::Result {
    for Run { mark, end } in runs.iter() {
        write!(f, " {mark}:{end}")?;
    }
    Ok(())
}

/// Writes the box and the runs of a sheet.
fn write_sheet<W: fmt::Write>(f: &mut fmt::Formatter<W>, sheet: &Sheet) -> fmt::Result {
    let Some(area) = sheet.bounding_box() else {
        return f.write_str("no box");
    };
    let start = area.start();
    let end = area.end();
    write!(
        f,
        "box {} {} {} {} ids",
        start.row(),
        start.column(),
        end.row(),
        end.column()
    )?;
    write_runs(f, &sheet.id_runs())?;
    f.write_str(" kinds")?;
    write_runs(f, &sheet.kind_runs())
}

/// Writes one position of a walk, on a line of its own.
fn write_styled<W: fmt::Write>(
    f: &mut fmt::Formatter<W>,
    styled: Styled<'_, Style>,
) -> fmt::Result {
    let row = styled.at.row();
    let column = styled.at.column();
    match styled.style {
        Some(style) => write!(f, "\n  {row} {column} style {}", style.number),
        None => write!(f, "\n  {row} {column} none"),
    }
}

/// Writes how many positions a walk has, and then each of them.
fn write_walk<W: fmt::Write>(
    f: &mut fmt::Formatter<W>,
    sheet: &Sheet,
    palette: &[Xf<Style>],
) -> fmt::Result {
    let positions = sheet.bounding_box().map_or(0, |area| area.positions());
    write!(f, "{positions}")?;
    for styled in sheet.walk(palette) {
        write_styled(f, styled)?;
    }
    Ok(())
}

impl<'s> fmt::Display for Reply<'s> {
    fn fmt<W: fmt::Write>(&self, f: &mut fmt::Formatter<W>) -> fmt::Result {
        match self {
            Reply::Ready => f.write_str("ready"),
            Reply::Added { number } => write!(f, "xf {number}"),
            Reply::Made(answer) => write!(f, "{answer}"),
            Reply::Style(Some(number)) => write!(f, "style {number}"),
            Reply::Kind(Some(kind)) => write!(f, "{kind}"),
            Reply::Style(None) | Reply::Kind(None) => f.write_str("none"),
            Reply::Runs { sheet } => write_sheet(f, sheet),
            Reply::Walk { sheet, palette } => write_walk(f, sheet, palette),
            Reply::Agree(agree) => f.write_str(if *agree { "yes" } else { "no" }),
        }
    }
}
