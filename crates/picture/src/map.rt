//! A picture of a reel: a row a superframe, a cell a frame.
ghost use Rattle.std.specs.Prelude.{IfOk};
ghost use Rattle.report.specs.Complete.{ComesTo};

use crate::layout::{Layout, MARGIN, TOP};
use reel::block::Block;
use reel::slots::Recorded;
use report::entry::Entry;
use report::source::Source;
use report::visit::{Outcome, Progress, Silent, Visitor};
use report::walk::walk;
use std::fmt;
use std::fmt::Write;

/// What a frame is.
#[derive(Clone, Copy, PartialEq, Eq, Debug)]
pub enum Cell {
    /// The superframe has no such frame.
    Absent,
    Whole,
    /// All padding: the frame carries nothing.
    Padding,
    Lost,
    Torn,
}

impl Cell {
    /// The class of the cell in the picture's style sheet.
    fn class(self) -> &'static str {
        match self {
            Cell::Whole => "w",
            Cell::Padding => "p",
            Cell::Lost => "l",
            Cell::Torn => "t",
            Cell::Absent => "a",
        }
    }
}

/// What the bytes of a frame say it is, torn frames aside: one that begins with padding is padding only.
impl From<Recorded<'_>> for Cell {
    fn from(recorded: Recorded<'_>) -> Cell {
        match recorded {
            Recorded::Gap => Cell::Lost,
            Recorded::Frame([0x7F, ..]) => Cell::Padding,
            Recorded::Frame(_) => Cell::Whole,
        }
    }
}

/// One row of cells, those of a superframe. It ends with absent cells where the superframe has fewer than 200 frames, so that each
/// number of a torn frame names a cell of every row.
#[derive(Clone, Copy, PartialEq, Eq, Debug)]
pub struct Row(pub [Cell; 200]);

impl Row {
    /// The row of no superframe.
    fn empty() -> Row {
        Row([Cell::Absent; 200])
    }

    /// The row of a block, torn frames aside.
    fn of(block: Block<'_>) -> Row {
        let mut row = Row::empty();
        for (cell, recorded) in row.0.iter_mut().zip(block.slots()) {
            *cell = Cell::from(recorded);
        }
        row
    }

    /// Takes up what an entry says of the row: a torn frame is named by its number.
    fn note(&mut self, entry: Entry) {
        if let Entry::Torn {
            frame: number @ 1..=200,
            ..
        } = entry
        {
            self.0[usize::from(number) - 1] = Cell::Torn;
        }
    }

    /// How many frames are padding only and not torn.
    fn padding_count(&self) -> usize {
        self.0.iter().filter(|cell| **cell == Cell::Padding).count()
    }
}

/// Text inside the picture: what XML reads otherwise is written by its name.
#[derive(Clone, Copy, PartialEq, Eq, Debug)]
pub struct XmlText<'a>(pub &'a str);

impl fmt::Display for XmlText<'_> {
    fn fmt<W: fmt::Write>(&self, f: &mut fmt::Formatter<W>) -> fmt::Result {
        for c in self.0.chars() {
            match c {
                '<' => f.write_str("&lt;")?,
                '>' => f.write_str("&gt;")?,
                '&' => f.write_str("&amp;")?,
                '"' => f.write_str("&quot;")?,
                control if u32::from(control) < 32 => f.write_str(" ")?,
                other => f.write_char(other)?,
            }
        }
        Ok(())
    }
}

/// The title and the legend, above the rows.
#[derive(Clone, Copy, PartialEq, Eq, Debug)]
pub struct MapHead<'a> {
    pub name: &'a str,
    pub layout: Layout,
    pub outcome: Outcome,
    /// How many of the whole frames are padding only.
    pub padding: u64,
}

/// The colours: calm for what is there, loud for what is not.
const STYLE: &str = "<style>
text{font-family:Helvetica,Arial,sans-serif;fill:#22313f}
.n{font-size:10px;fill:#7b8a97;text-anchor:end}
.w{fill:#4f8fbf}.p{fill:#d5dee6}.l{fill:#d7263d}.t{fill:#f49d1a}
</style>
";

/// Writes the legend: how many frames there are of each kind, side by side.
fn write_legend<W: fmt::Write>(
    f: &mut fmt::Formatter<W>,
    kinds: [(Cell, &str, u128); 4],
) -> fmt::Result {
    for (place, (cell, word, number)) in (0u64..).zip(kinds) {
        let class = cell.class();
        let left = MARGIN.saturating_add(place.saturating_mul(175));
        let text = left.saturating_add(20);
        writeln!(
            f,
            "<rect class=\"{class}\" x=\"{left}\" y=\"70\" width=\"14\" height=\"14\"/>"
        )?;
        writeln!(
            f,
            "<text x=\"{text}\" y=\"82\" font-size=\"13\">{word}: {number}</text>"
        )?;
    }
    Ok(())
}

impl fmt::Display for MapHead<'_> {
    fn fmt<W: fmt::Write>(&self, f: &mut fmt::Formatter<W>) -> fmt::Result {
        let width = self.layout.width();
        let height = self.layout.height();
        let name = XmlText(self.name);
        let contents = self.outcome.surveyed.contents;
        let superframes = contents.superframes;
        let frames = self.outcome.frames();
        let whole = self.outcome.whole().saturating_sub(self.padding);
        let torn = self.outcome.totals.torn;
        write!(
            f,
            "<svg xmlns=\"http://www.w3.org/2000/svg\" width=\"{width}\" height=\"{height}\""
        )?;
        writeln!(f, " viewBox=\"0 0 {width} {height}\">")?;
        f.write_str(STYLE)?;
        writeln!(
            f,
            "<rect width=\"{width}\" height=\"{height}\" fill=\"#ffffff\"/>"
        )?;
        writeln!(
            f,
            "<text x=\"24\" y=\"34\" font-size=\"18\" font-weight=\"bold\">{name}</text>"
        )?;
        write!(
            f,
            "<text x=\"24\" y=\"54\" font-size=\"12\">{superframes} superframes, {frames} frames;"
        )?;
        writeln!(
            f,
            " a row a superframe, a cell a frame, in reading order</text>"
        )?;
        let kinds = [
            (Cell::Whole, "whole", u128::from(whole)),
            (Cell::Padding, "padding only", u128::from(self.padding)),
            (Cell::Lost, "lost", contents.gaps),
            (Cell::Torn, "torn", u128::from(torn)),
        ];
        write_legend(f, kinds)
    }
}

/// What is to be done with the row of each superframe. It is no closure: what is drawn holds a reference, and that it may always be
/// called cannot be asked of a closure there.
pub trait EachRow {
    /// The superframe of this row has ended, the one of this number, counted from 1.
    fn row(&mut self, number: u64, row: Row) -> fmt::Result;
}

/// Gathers the row of each superframe, and hands it on where the superframe ends.
#[derive(Drop)]
pub struct Rows<R> {
    /// The number of the superframe, counted from 1.
    pub number: u64,
    pub row: Row,
    pub each: R,
}

impl<R> Rows<R> {
    /// The rows of a reel, each for this.
    fn of(each: R) -> Rows<R> {
        Rows {
            number: 0,
            row: Row::empty(),
            each,
        }
    }
}

impl<R: EachRow> Visitor for Rows<R> {
    fn superframe(&mut self, number: u64, block: Block<'_>) -> fmt::Result {
        self.number = number;
        self.row = Row::of(block);
        Ok(())
    }

    fn entry(&mut self, entry: Entry, _packet: &[u8]) -> fmt::Result {
        self.row.note(entry);
        Ok(())
    }

    fn superframe_end(&mut self) -> fmt::Result {
        self.each.row(self.number, self.row)
    }
}

/// How many frames are padding only and not torn.
#[derive(Clone, Copy)]
pub struct PaddingCount(pub u64);

impl EachRow for PaddingCount {
    fn row(&mut self, _number: u64, row: Row) -> fmt::Result {
        self.0 = self.0.saturating_add(row.padding_count() as u64);
        Ok(())
    }
}

/// The rows of the picture. Cells of one kind side by side are drawn as one.
#[derive(Drop)]
pub struct MapRows<'a, O> {
    pub out: &'a mut O,
    pub layout: Layout,
}

impl<O: fmt::Write> MapRows<'_, O> {
    /// Draws cells of this row, counted from 0, from one place up to another.
    fn draw(&mut self, row: u64, from: u64, to: u64, cell: Cell) -> fmt::Result {
        let class = cell.class();
        let size = self.layout.cell;
        let left = self
            .layout
            .left(row)
            .saturating_add(from.saturating_mul(size));
        let top = self.layout.top(row);
        let width = to.saturating_sub(from).saturating_mul(size);
        let height = if size > 3 { size - 1 } else { size };
        write!(self.out, "<rect class=\"{class}\" x=\"{left}\" y=\"{top}\"")?;
        writeln!(self.out, " width=\"{width}\" height=\"{height}\"/>")
    }

    /// Writes the number of this row, counted from 0, if it is one of those that have theirs.
    fn draw_number(&mut self, row: u64) -> fmt::Result {
        let number = row.saturating_add(1);
        let step = self.layout.number_step().max(1);
        let in_column = row % self.layout.rows.max(1);
        let crowded = in_column.saturating_mul(self.layout.cell) < 12;
        if in_column != 0 && (number % step != 0 || crowded) {
            return Ok(());
        }
        let left = self.layout.left(row).saturating_sub(6);
        let top = self
            .layout
            .top(row)
            .saturating_add(self.layout.cell / 2)
            .saturating_add(4);
        writeln!(
            self.out,
            "<text class=\"n\" x=\"{left}\" y=\"{top}\">{number}</text>"
        )
    }
}

impl<O: fmt::Write> EachRow for MapRows<'_, O> {
    fn row(&mut self, number: u64, row: Row) -> fmt::Result {
        let place = number.saturating_sub(1);
        self.draw_number(place)?;
        // Where a run stands is what the runs before it are long: `scan` would say that no plainer.
        let mut from = 0u64;
        for run in row.0.chunk_by(|cell, next| cell == next) {
            let to = from.saturating_add(run.len() as u64);
            if let [cell, ..] = run
                && *cell != Cell::Absent
            {
                self.draw(place, from, to, *cell)?;
            }
            from = to;
        }
        Ok(())
    }
}

/// Lines between the cells of all rows, where cells are large enough for it.
#[derive(Clone, Copy, PartialEq, Eq, Debug)]
pub struct Grid(pub Layout);

/// Writes the lines of one column of rows.
fn write_lines<W: fmt::Write>(
    f: &mut fmt::Formatter<W>,
    layout: Layout,
    column: u64,
) -> fmt::Result {
    let left = layout.left(column.saturating_mul(layout.rows));
    let top = TOP;
    let bottom = layout.height();
    for k in 1..layout.widest {
        let x = left.saturating_add(k.saturating_mul(layout.cell));
        write!(f, "M{x} {top}V{bottom}")?;
    }
    Ok(())
}

impl fmt::Display for Grid {
    fn fmt<W: fmt::Write>(&self, f: &mut fmt::Formatter<W>) -> fmt::Result {
        f.write_str("<path stroke=\"#ffffff\" d=\"")?;
        for column in 0..self.0.columns {
            write_lines(f, self.0, column)?;
        }
        f.write_str("\"/>\n")
    }
}

/// Draws a reel.
pub fn draw<O: fmt::Write, P: Progress>(
    source: Source<'_>,
    out: &mut O,
    progress: &mut P,
) -> Result<Outcome, fmt::Error>
    ensures { IfOk result (ComesTo source.entry.settings source.entry.reel.now) }
{
    let layout = Layout::for_reel(source.reel);
    let mut counting = Rows::of(PaddingCount(0));
    let counted = walk(source.reel, source.settings, &mut counting, &mut Silent)?;
    out.write(MapHead {
        name: source.name,
        layout,
        outcome: counted,
        padding: counting.each.0,
    })?;
    let mut rows = Rows::of(MapRows { out, layout });
    let outcome = walk(source.reel, source.settings, &mut rows, progress)?;
    let out = rows.each.out;
    if layout.cell >= 10 {
        out.write(Grid(layout))?;
    }
    out.write_str("</svg>\n")?;
    Ok(outcome)
}
