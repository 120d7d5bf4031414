//! Where the rows of the picture stand.
use reel::blocks::Blocks;

/// How the rows are laid out on the page.
#[derive(Clone, Copy, PartialEq, Eq, Debug)]
pub struct Layout {
    /// The size of a cell.
    pub cell: u64,
    /// How many cells the longest row has.
    pub widest: u64,
    /// How many rows one column of rows has.
    pub rows: u64,
    /// How many columns of rows there are.
    pub columns: u64,
}

/// The space around the picture, and that for the numbers left of a column.
pub const MARGIN: u64 = 24;

pub const NUMBERS: u64 = 56;

/// Where the rows begin, below the title and the legend.
pub const TOP: u64 = 112;

/// The size of a cell at which so many cells make a page of about 1,200 by 1,000.
fn cell_size(cells: u64) -> u64 {
    match cells {
        0..=4_000 => 16,
        4_001..=12_000 => 10,
        12_001..=30_000 => 6,
        30_001..=70_000 => 4,
        70_001..=150_000 => 3,
        _ => 2,
    }
}

/// The width of one column of rows, the numbers at its left included.
fn column_width(cell: u64, widest: u64) -> u64 {
    cell.saturating_mul(widest).saturating_add(NUMBERS)
}

/// The fewest columns with which the picture is no higher than it is wide, at most 40.
fn columns_for(superframes: u64, cell: u64, widest: u64) -> u64 {
    let height = superframes.saturating_mul(cell);
    let width = column_width(cell, widest);
    // A closure of `find` would not know that the number it divides by is not 0.
    for columns in 1..40u64 {
        if height / columns <= width.saturating_mul(columns) || height / columns <= 640 {
            return columns;
        }
    }
    40
}

impl Layout {
    /// The layout for a reel of so many superframes, the largest of so many frames.
    pub fn of(superframes: u64, widest: u64) -> Layout {
        let cell = cell_size(superframes.saturating_mul(widest));
        let columns = columns_for(superframes, cell, widest).max(1);
        Layout {
            cell,
            widest,
            rows: superframes.div_ceil(columns).max(1),
            columns,
        }
    }

    /// The layout for a reel, up to its first fault.
    pub fn for_reel(reel: &[u8]) -> Layout {
        let (superframes, widest) = Blocks::of(reel)
            .map_while(Result::ok)
            .fold((0u64, 1), |(count, widest), block| {
                (count.saturating_add(1), block.size.max(widest))
            });
        Layout::of(superframes, u64::from(widest))
    }

    /// The width of the page; the title and the legend want some width, too.
    pub fn width(self) -> u64 {
        let all = column_width(self.cell, self.widest).saturating_mul(self.columns);
        all.saturating_add(2 * MARGIN).max(760)
    }

    /// The height of the page.
    pub fn height(self) -> u64 {
        self.cell
            .saturating_mul(self.rows)
            .saturating_add(TOP)
            .saturating_add(MARGIN)
    }

    /// The left edge of the cells of this row, counted from 0.
    pub fn left(self, row: u64) -> u64 {
        let column = row / self.rows.max(1);
        column_width(self.cell, self.widest)
            .saturating_mul(column)
            .saturating_add(MARGIN)
            .saturating_add(NUMBERS - 8)
    }

    /// The upper edge of this row.
    pub fn top(self, row: u64) -> u64 {
        (row % self.rows.max(1))
            .saturating_mul(self.cell)
            .saturating_add(TOP)
    }

    /// Every how many rows a number stands.
    pub fn number_step(self) -> u64 {
        match self.cell {
            16 => 1,
            10 => 5,
            4 | 6 => 10,
            3 => 20,
            _ => 25,
        }
    }
}
